// Why the program did not do what was asked, or not to its end.
use crate::limits::{
    MOST_BYTES, MOST_FILE_BYTES, MOST_LINE_BYTES, MOST_MOVES, MOST_PLACES, MOST_SITUATION_BYTES,
    MOST_SITUATIONS,
};
use std::alloc::AllocError;
use std::io;
use thiserror::Error;
use wording::call::USAGE;

// Why a line of input, or a word of the call, asks for nothing that there is.
#[derive(Clone, Copy, Debug, Error)]
pub(crate) enum Slip {
    // Of lines.
    #[error("the line is no UTF-8 text")]
    NoText,
    #[error("a line has at most {MOST_LINE_BYTES} bytes")]
    LongLine,
    // Of the words that plays and scripts share.
    #[error("a transaction is a number from 0 to 4294967295")]
    Transaction,
    #[error("a seat is a number from 0 to 15")]
    Seat,
    #[error("a kind is Prepare, Commit, Rollback, Prepared, ReadOnly, Aborted or Committed")]
    Kind,
    #[error("a vote is prepared, readonly or aborted")]
    Ballot,
    #[error("register takes volatile or durable")]
    Durability,
    // Of plays.
    #[error("a step is 'post T SEAT KIND' or 'take'")]
    Step,
    #[error("post takes a transaction, a seat and a kind")]
    PostParts,
    #[error("a call is 'receive', 'vote', 'settle', 'expire', 'resend', 'cut N', 'outbox N', 'fill N' or 'log'")]
    ParticipantCall,
    #[error("a call is 'register', 'commit', 'rollback', 'outcome', 'receive', 'settle', 'expire', 'resend', 'cut N', 'outbox N', 'fill N' or 'log'")]
    CoordinatorCall,
    #[error("receive takes a kind, or a transaction, a seat and a kind")]
    ReceiveParts,
    #[error("receive takes a seat and a kind, or a transaction, a seat and a kind")]
    ReceiveSeatParts,
    #[error("the closing right is spent: commit or rollback was asked already")]
    Spent,
    #[error("cut takes a number from 0 to 4294967295")]
    Cut,
    #[error("outbox takes a number of places from 0 to 16")]
    Outbox,
    #[error("fill takes a number of records from 0 to 4294967295")]
    Fill,
    // Of scripts.
    #[error("a script begins with 'open T'")]
    Unopened,
    #[error("a script opens one transaction")]
    Reopened,
    #[error("open takes a transaction, and behind it 'log LOG', 'stores LOG' and 'line LINE': LOG is 'tray', 'journal BYTES' or 'gathered LOG', LINE is 'queue PLACES' or 'board'")]
    Opening,
    #[error("a log is gathered twice at most")]
    Gatherers,
    #[error("BYTES is a number of bytes from 0 to {MOST_BYTES}")]
    Bytes,
    #[error("PLACES is a number of notifications from 0 to {MOST_PLACES}")]
    Places,
    #[error("a command is 'register', 'join SEAT', 'commit', 'rollback', 'outcome', 'vote SEAT BALLOT', 'settle WHO', 'expire WHO', 'resend WHO', 'cut WHO N', 'say SEAT KIND', 'post', 'post I', 'take', 'receive WHO I', 'deliver' or 'run N'")]
    Command,
    #[error("join takes a seat from 0 to 15")]
    JoinParts,
    #[error("vote takes a seat and a ballot: prepared, readonly or aborted")]
    VoteParts,
    // of settle, expire or resend
    #[error("{0} takes WHO: coordinator or a seat from 0 to 15")]
    WhoParts(&'static str),
    #[error("cut takes WHO and a number from 0 to 4294967295")]
    CutParts,
    #[error("say takes a seat and a kind: Prepared, ReadOnly, Aborted or Committed")]
    SayParts,
    #[error("post takes the number of a notification, or nothing")]
    PostNumber,
    #[error("receive takes WHO and the number of a notification")]
    ReceiveNumber,
    #[error("run takes a number of times from 0 to 4294967295")]
    Times,
    #[error("commit, rollback, outcome, take and deliver take no word behind them")]
    Alone,
    #[error("a participant says Prepared, ReadOnly, Aborted or Committed")]
    Upward,
    #[error("the number of a notification counts from 0")]
    Number,
    #[error("WHO is coordinator or a seat from 0 to 15")]
    Who,
    #[error("a script comes to at most {MOST_MOVES} moves")]
    Moves,
    #[error("run N comes to more than {MOST_MOVES} moves, with those before it")]
    RunMoves,
    // Of what is explored.
    #[error("explore takes '--stores N', '--volatile M', '--steps S', '--log LOG' and '--line LINE': LOG is 'tray', 'journal BYTES' or 'gathered LOG', LINE is 'any', 'queue PLACES' or 'board'")]
    Explore,
    #[error("stores and volatile participants are numbers that come to 16 at most")]
    Parties,
    #[error("steps are a number from 0 to 4294967295")]
    Steps,
}

// Why a call of the program ends with status 1; the words as they were given.
#[derive(Debug, Drop, Error)]
pub(crate) enum Refusal<'a> {
    #[error("unknown command\n\n{USAGE}")]
    Unknown,
    #[error("a word of the call is no UTF-8 text; a file whose name is none can be lent as standard input, which is /dev/stdin")]
    NoWord,
    #[error("COUNT is a number of records, not '{0}'")]
    Count(&'a str),
    #[error("PLACES is a number of notifications from 0 to {MOST_PLACES}, not '{0}'")]
    Places(&'a str),
    #[error("BYTES is a number of bytes from 0 to {MOST_BYTES}, not '{0}'")]
    Bytes(&'a str),
    #[error("cannot read {file}: {why}")]
    Unread {
        file: &'a str,
        why: io::Error,
    },
    #[error("{file}: fault {fault}, record {record} is malformed")]
    Malformed {
        file: &'a str,
        fault: u8,
        record: usize,
    },
    #[error("{file}: fault {fault}, record {record} lies outside the file")]
    Outside {
        file: &'a str,
        fault: u8,
        record: usize,
    },
    #[error("{0}: COUNT records are more than the {MOST_FILE_BYTES} bytes that are read of a file")]
    LongFile(&'a str),
    #[error("the script is empty; it begins with 'open T'")]
    NoScript,
    #[error("there is no memory to play the script")]
    Unplayed,
    #[error("the rules are not kept: the script on standard output comes to a situation that shows it")]
    Breach,
    #[error("there are more situations than are kept, which are {MOST_SITUATIONS} in {MOST_SITUATION_BYTES} bytes; '--steps S' with a smaller S ends before")]
    Situations,
    #[error("line {number}: {slip}")]
    Line {
        number: u64,
        slip: Slip,
    },
    // The same, where the number of the line is still to be told.
    #[error(transparent)]
    Slip(#[from] Slip),
    #[error(transparent)]
    Memory(#[from(alloc)] AllocError),
    // Each other error of the system is told apart where it comes.
    #[error("cannot write to standard output: {0}")]
    Unwritten(#[from] io::Error),
}

impl Refusal<'_> {
    // The refusal, told of a line of input.
    pub(crate) fn at_line(self, number: u64) -> Self {
        match self {
            Refusal::Slip(slip) => Refusal::Line { number, slip },
            other => other,
        }
    }
}
