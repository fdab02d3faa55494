// Scripts of rehearsals: what each line asks for.
use crate::limits::MOST_MOVES;
use crate::reading::{read_ballot, read_bytes, read_durability, read_kind, read_places, read_seat};
use crate::refusal::{Refusal, Slip};
use rehearsals::moves::{Call, Move};
use seats::seat::SEATS;
use std::alloc::Global;
use std::fmt;
use words::kind::Kind;

// How many places a line has where the script does not say.
const QUEUE_PLACES: usize = 64;

// The log at the bottom.
#[derive(Clone, Copy, PartialEq, Eq)]
pub(crate) enum Bottom {
    Tray,
    // a journal of so many bytes
    Journal(usize),
}

// How many gatherers lie over it.
#[derive(Clone, Copy, PartialEq, Eq)]
pub(crate) enum Gatherers {
    Zero,
    One,
    Two,
}

// A kind of log.
#[derive(Clone, Copy, PartialEq, Eq)]
pub(crate) struct LogChoice {
    pub(crate) bottom: Bottom,
    pub(crate) gatherers: Gatherers,
}

impl LogChoice {
    const TRAY: LogChoice = LogChoice {
        bottom: Bottom::Tray,
        gatherers: Gatherers::Zero,
    };

    // The same under one gatherer more.
    fn gathered(self) -> Result<LogChoice, Slip> {
        let gatherers = match self.gatherers {
            Gatherers::Zero => Gatherers::One,
            Gatherers::One => Gatherers::Two,
            Gatherers::Two => return Err(Slip::Gatherers),
        };
        Ok(LogChoice { gatherers, ..self })
    }
}

// A kind of line.
#[derive(Clone, Copy, PartialEq, Eq)]
pub(crate) enum LineChoice {
    // a queue of so many places
    Queue(usize),
    Board,
}

// What a script opens.
#[derive(Clone, Copy)]
pub(crate) struct Opening {
    pub(crate) transaction: u32,
    pub(crate) log: LogChoice,
    pub(crate) stores: LogChoice,
    pub(crate) line: LineChoice,
}

// As a script says it.
impl fmt::Display for LogChoice {
    fn fmt<W: fmt::Write>(&self, f: &mut fmt::Formatter<W>) -> fmt::Result {
        f.write_str(match self.gatherers {
            Gatherers::Zero => "",
            Gatherers::One => "gathered ",
            Gatherers::Two => "gathered gathered ",
        })?;
        match self.bottom {
            Bottom::Tray => f.write_str("tray"),
            Bottom::Journal(bytes) => write!(f, "journal {bytes}"),
        }
    }
}

impl fmt::Display for LineChoice {
    fn fmt<W: fmt::Write>(&self, f: &mut fmt::Formatter<W>) -> fmt::Result {
        match *self {
            LineChoice::Queue(places) => write!(f, "queue {places}"),
            LineChoice::Board => f.write_str("board"),
        }
    }
}

impl fmt::Display for Opening {
    fn fmt<W: fmt::Write>(&self, f: &mut fmt::Formatter<W>) -> fmt::Result {
        let Opening {
            transaction,
            log,
            stores,
            line,
        } = self;
        write!(
            f,
            "open {transaction} log {log} stores {stores} line {line}"
        )
    }
}

// What a line of a script asks for, behind the opening.
#[derive(Clone, Copy)]
pub(crate) enum Command {
    Move(Move),
    // All that the last call gave is posted.
    PostLast,
    // One notification is taken, handed to whom it is for, and what that gives is posted.
    Deliver,
    // So many times at most: every party settles and posts, and one notification is delivered.
    Run(u32),
}

// A command and the number of its line.
#[derive(Clone, Copy)]
pub(crate) struct Order {
    pub(crate) number: u64,
    pub(crate) command: Command,
}

// A script, read whole before anything is done.
#[derive(Drop)]
pub(crate) struct Script {
    pub(crate) opening: Option<Opening>,
    pub(crate) orders: Vec<Order>,
}

impl Script {
    // A script without lines.
    pub(crate) fn new(alloc: Global) -> Script {
        Script {
            opening: None,
            orders: Vec::new(alloc),
        }
    }

    // Reads a line, which has this number; a line without words asks for nothing.
    pub(crate) fn read(
        &mut self,
        alloc: Global,
        number: u64,
        line: &str,
    ) -> Result<(), Refusal<'static>> {
        let mut words = Vec::new(alloc);
        for word in line.split('#').next().unwrap_or("").split_whitespace() {
            words.push(word)?;
        }
        let asked = read_words(&words, self.opening.is_some()).map_err(|slip| Refusal::Line {
            number,
            slip,
        })?;
        match asked {
            Asked::Nothing => {}
            Asked::Opening(opening) => self.opening = Some(opening),
            Asked::Command(_) if self.orders.len() >= MOST_MOVES => {
                let slip = Slip::Moves;
                return Err(Refusal::Line { number, slip });
            }
            Asked::Command(command) => self.orders.push(Order { number, command })?,
        }
        Ok(())
    }

    // How many logs the durable participants of the script join with at most.
    pub(crate) fn joins(&self) -> usize {
        let joins = |order: &&Order| matches!(order.command, Command::Move(Move::Join(_)));
        let count = self.orders.iter().filter(joins).count();
        count.min(usize::from(SEATS))
    }
}

// What a line asks for.
#[derive(Clone, Copy)]
enum Asked {
    Nothing,
    Opening(Opening),
    Command(Command),
}

// What these words ask for, behind an opening or not.
fn read_words(words: &[&str], opened: bool) -> Result<Asked, Slip> {
    let [first, rest @ ..] = words else {
        return Ok(Asked::Nothing);
    };
    match (*first, opened) {
        ("open", false) => Ok(Asked::Opening(read_opening(rest)?)),
        ("open", true) => Err(Slip::Reopened),
        (_, false) => Err(Slip::Unopened),
        (first, true) => Ok(Asked::Command(read_command(first, rest)?)),
    }
}

// Whose log is chosen.
#[derive(Clone, Copy, PartialEq, Eq)]
pub(crate) enum Whose {
    Coordinators,
    Stores,
}

// What the next word of an opening may be.
#[derive(Clone, Copy, PartialEq, Eq)]
pub(crate) enum Awaited {
    Part,
    Log(Whose),
    Bytes(Whose),
    Line,
    Places,
}

impl Opening {
    // The opening of a transaction where nothing else is said.
    pub(crate) fn of(transaction: u32) -> Opening {
        Opening {
            transaction,
            log: LogChoice::TRAY,
            stores: LogChoice::TRAY,
            line: LineChoice::Queue(QUEUE_PLACES),
        }
    }

    // The log that is chosen.
    fn choice(&mut self, whose: Whose) -> &mut LogChoice {
        match whose {
            Whose::Coordinators => &mut self.log,
            Whose::Stores => &mut self.stores,
        }
    }

    // Begins a choice, which takes the place of an earlier one.
    pub(crate) fn choose(&mut self, whose: Whose) -> Awaited {
        *self.choice(whose) = LogChoice::TRAY;
        Awaited::Log(whose)
    }

    // Takes the next word, and tells what may follow it.
    pub(crate) fn take(&mut self, awaited: Awaited, word: &str) -> Result<Awaited, Slip> {
        match (awaited, word) {
            (Awaited::Part, "log") => Ok(self.choose(Whose::Coordinators)),
            (Awaited::Part, "stores") => Ok(self.choose(Whose::Stores)),
            (Awaited::Part, "line") => Ok(Awaited::Line),
            (Awaited::Log(whose), "gathered") => {
                let choice = self.choice(whose);
                *choice = choice.gathered()?;
                Ok(Awaited::Log(whose))
            }
            (Awaited::Log(_), "tray") => Ok(Awaited::Part),
            (Awaited::Log(whose), "journal") => Ok(Awaited::Bytes(whose)),
            (Awaited::Bytes(whose), bytes) => {
                let bytes = read_bytes(bytes).ok_or(Slip::Bytes)?;
                self.choice(whose).bottom = Bottom::Journal(bytes);
                Ok(Awaited::Part)
            }
            (Awaited::Line, "board") => {
                self.line = LineChoice::Board;
                Ok(Awaited::Part)
            }
            (Awaited::Line, "queue") => Ok(Awaited::Places),
            (Awaited::Places, places) => {
                self.line = LineChoice::Queue(read_places(places).ok_or(Slip::Places)?);
                Ok(Awaited::Part)
            }
            _ => Err(Slip::Opening),
        }
    }
}

// The opening that the words behind 'open' ask for.
fn read_opening(words: &[&str]) -> Result<Opening, Slip> {
    let [transaction, rest @ ..] = words else {
        return Err(Slip::Opening);
    };
    let mut opening = Opening::of(transaction.parse().map_err(|_| Slip::Transaction)?);
    let mut awaited = Awaited::Part;
    for word in rest {
        awaited = opening.take(awaited, word)?;
    }
    match awaited {
        Awaited::Part => Ok(opening),
        _ => Err(Slip::Opening),
    }
}

// The command that a word with these behind it asks for.
fn read_command(first: &str, rest: &[&str]) -> Result<Command, Slip> {
    match rest {
        [] => read_plain(first),
        [word] => read_with_one(first, word),
        [word, other] => Ok(Command::Move(read_with_two(first, word, other)?)),
        _ => Err(parts_of(first)),
    }
}

// The command of one word.
fn read_plain(word: &str) -> Result<Command, Slip> {
    match word {
        "commit" => Ok(Command::Move(Move::AskCommit)),
        "rollback" => Ok(Command::Move(Move::AskRollback)),
        "outcome" => Ok(Command::Move(Move::AskOutcome)),
        "take" => Ok(Command::Move(Move::Take)),
        "post" => Ok(Command::PostLast),
        "deliver" => Ok(Command::Deliver),
        _ => Err(parts_of(word)),
    }
}

// The command of a word with one behind it.
fn read_with_one(first: &str, word: &str) -> Result<Command, Slip> {
    match first {
        "run" => Ok(Command::Run(word.parse().map_err(|_| Slip::Times)?)),
        "register" => Ok(Command::Move(Move::Register(read_durability(word)?))),
        "join" => Ok(Command::Move(Move::Join(read_seat(word)?))),
        "post" => Ok(Command::Move(Move::Post(read_number(word)?))),
        "settle" => Ok(Command::Move(made_by(word, Call::Settle)?)),
        "expire" => Ok(Command::Move(made_by(word, Call::Expire)?)),
        "resend" => Ok(Command::Move(made_by(word, Call::Resend)?)),
        _ => Err(parts_of(first)),
    }
}

// The move of a word with two behind it.
fn read_with_two(first: &str, word: &str, other: &str) -> Result<Move, Slip> {
    match first {
        "vote" => Ok(Move::Vote(read_seat(word)?, read_ballot(other)?)),
        "say" => Ok(Move::Say(read_seat(word)?, read_upward(other)?)),
        "cut" => made_by(word, Call::Restart(other.parse().map_err(|_| Slip::Cut)?)),
        "receive" => made_by(word, Call::Receive(read_number(other)?)),
        _ => Err(parts_of(first)),
    }
}

// What a command takes, which is told where fewer or more words lie behind it.
fn parts_of(first: &str) -> Slip {
    match first {
        "register" => Slip::Durability,
        "join" => Slip::JoinParts,
        "commit" | "rollback" | "outcome" | "take" | "deliver" => Slip::Alone,
        "vote" => Slip::VoteParts,
        "settle" => Slip::WhoParts("settle"),
        "expire" => Slip::WhoParts("expire"),
        "resend" => Slip::WhoParts("resend"),
        "cut" => Slip::CutParts,
        "say" => Slip::SayParts,
        "post" => Slip::PostNumber,
        "receive" => Slip::ReceiveNumber,
        "run" => Slip::Times,
        _ => Slip::Command,
    }
}

// The kind of this name, if a participant may say it.
fn read_upward(name: &str) -> Result<Kind, Slip> {
    let kind = read_kind(name).map_err(|_| Slip::Upward)?;
    if kind.goes_up() {
        Ok(kind)
    } else {
        Err(Slip::Upward)
    }
}

// The number of a notification.
fn read_number(word: &str) -> Result<usize, Slip> {
    word.parse().map_err(|_| Slip::Number)
}

// A call of the coordinator, or of the participant at a seat.
fn made_by(who: &str, call: Call) -> Result<Move, Slip> {
    match who {
        "coordinator" => Ok(Move::Coordinator(call)),
        seat => Ok(Move::Participant(read_seat(seat).map_err(|_| Slip::Who)?, call)),
    }
}
