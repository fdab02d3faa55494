ghost use Rattle.std.specs.Prelude.{◌≡◌};
ghost use Rattle.words.specs.Faults.{fault_number, fault_sent, fault_text, fault_line};

use logs::log::Full;
use seats::seat::Seat;
use std::error::Error;
use std::fmt;

// Why a call refused, or did other than was asked. `S` is the state of the party that was called.
// Checks run in the order of the faults' numbers. Number 11 is a journal's refusal to open (`Malformed` of crate `journals`), which no party's call answers.
#[derive(Clone, Copy, PartialEq, Eq, Debug)]
pub enum Fault<S> {
    // 1: the outbox has fewer places than the party may need.
    ShortOutbox,
    // 2: the closing right is one for another transaction.
    OtherRight,
    // 3, Invalid State: registering or voting in a state that does not take it.
    InvalidState,
    // 4, Cannot Register Participant: all seats are used.
    CannotRegister,
    // 5: the notification is of another transaction.
    OtherTransaction,
    // 6: the notification is of a kind for the other side, or for another participant's seat.
    Misdirected,
    // 7, Unknown Transaction: the seat is not registered.
    UnknownTransaction,
    // 8, Invalid State: a peer said what it cannot say now; its seat, the state before the call, and how many notifications were written.
    InvalidPeer { seat: Seat, state: S, sent: usize },
    // 9, Inconsistent Internal State: a peer contradicts what was decided.
    Inconsistent,
    // 10: the log is full; its own fault, and how many notifications were written.
    LogFull { full: Full, sent: usize },
    // 10, at voting: too few places are left for the vote and its outcome; how many there are, and how many notifications were written.
    NoPlace { spare: usize, sent: usize },
}

impl<S: Copy> Fault<S> {
    // Its number, the published one that programs print: two faults share 10.
    pub fn number(self) -> u8
        ensures { result ≡ fault_number self }
    {
        match self {
            Fault::ShortOutbox => 1,
            Fault::OtherRight => 2,
            Fault::InvalidState => 3,
            Fault::CannotRegister => 4,
            Fault::OtherTransaction => 5,
            Fault::Misdirected => 6,
            Fault::UnknownTransaction => 7,
            Fault::InvalidPeer { .. } => 8,
            Fault::Inconsistent => 9,
            Fault::LogFull { .. } | Fault::NoPlace { .. } => Full::NUMBER,
        }
    }

    // How many notifications the call wrote all the same.
    pub fn sent(self) -> usize
        ensures { result ≡ fault_sent self }
    {
        match self {
            Fault::InvalidPeer { sent, .. }
            | Fault::LogFull { sent, .. }
            | Fault::NoPlace { sent, .. } => sent,
            _ => 0,
        }
    }

    // What it says, without its values: texts, as the names of kinds are.
    pub fn text(self) -> &'static str
        ensures { result.now ≡ fault_text self }
    {
        match self {
            Fault::ShortOutbox => "the outbox is too short",
            Fault::OtherRight => "the closing right is for another transaction",
            Fault::InvalidState => "Invalid State: this state does not take the call",
            Fault::CannotRegister => "Cannot Register Participant: all seats are used",
            Fault::OtherTransaction => "the notification is of another transaction",
            Fault::Misdirected => "the notification is for another party",
            Fault::UnknownTransaction => "Unknown Transaction: the seat is not registered",
            Fault::InvalidPeer { .. } => "Invalid State: a peer said what it cannot say now",
            Fault::Inconsistent => "Inconsistent Internal State: a peer contradicts the outcome",
            Fault::LogFull { .. } => "the log is full",
            Fault::NoPlace { .. } => "the log has no place for the vote and its outcome",
        }
    }
}

// Its number, what it says, and its values.
impl<S: Copy + fmt::Display> fmt::Display for Fault<S> {
    ghost output = { fault_line S.output };

    fn fmt<W: fmt::Write>(&self, f: &mut fmt::Formatter<W>) -> fmt::Result {
        let number = self.number();
        let text = self.text();
        write!(f, "fault {number}, {text}")?;
        match *self {
            Fault::InvalidPeer { seat, state, .. } => write!(f, " (seat {seat}, in {state})"),
            Fault::LogFull { full, .. } => write!(f, " (capacity {})", full.capacity),
            Fault::NoPlace { spare, .. } => write!(f, " ({spare} left)"),
            _ => Ok(()),
        }
    }
}

impl<S: Copy + fmt::Debug + fmt::Display> Error for Fault<S> {}
