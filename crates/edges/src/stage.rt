ghost use Rattle.std.specs.Prelude.{◌≡◌};

use agreement::coordinator::{Place, State};
use coordinator::{Coordinator, Durability, OUTBOX_PLACES, Outcome};
use logs::tray::Tray;
use words::fault::Fault;
use words::kind::Kind;
use words::row::Row;

// What a coordinator is called to do.
#[derive(Clone, Copy, PartialEq, Eq, Debug)]
pub enum Call {
    Register(Durability),
    AskCommit,
    // a notification of this kind, from this seat
    Hear(u8, Kind),
    Expire,
    Settle,
    // the world chooses the number
    Restart(u32),
}

// What it answers, with how many notifications it wrote.
#[derive(Clone, Copy, PartialEq, Eq, Debug)]
pub enum Answer {
    Seated { seat: u8, sent: usize },
    Told { outcome: Outcome, sent: usize },
    Sent(usize),
    Refused(Fault<State>),
}

// What is to be seen of it: its state and its table, how many records of its log are safe and how many are loose, and its outbox.
#[derive(Clone, Copy, PartialEq, Eq, Debug)]
pub struct View {
    pub state: State,
    pub table: [Place; OUTBOX_PLACES],
    pub safe: usize,
    pub loose: usize,
    pub outbox: [Row; OUTBOX_PLACES],
}

// A call that was made: only a stage makes one, by making the call.
#[derive(Clone, Copy, PartialEq, Eq, Debug)]
pub struct Shown {
    call: Call,
    before: View,
    answer: Answer,
    after: View,
}

impl Shown {
    // What was called.
    pub fn call(&self) -> Call
        ensures { result ≡ self.now.call }
    {
        self.call
    }

    // What was to be seen before.
    pub fn before(&self) -> View
        ensures { result ≡ self.now.before }
    {
        self.before
    }

    // What was answered.
    pub fn answer(&self) -> Answer
        ensures { result ≡ self.now.answer }
    {
        self.answer
    }

    // What is to be seen behind it.
    pub fn after(&self) -> View
        ensures { result ≡ self.now.after }
    {
        self.after
    }
}

// The coordinator of transaction 7, with its log and the outbox of its calls.
#[derive(Drop)]
pub(crate) struct Stage {
    coordinator: Coordinator,
    log: Tray,
    outbox: [Row; OUTBOX_PLACES],
    ghost own: { coordinator.transaction ≡ 7 },
}

mod calling;
