use agreement::coordinator::{Outcome, State};
use agreement::participant;
use coordinator::{Registered, Told};
use words::fault::Fault;
use words::notification::Notification;

// What a move did.
#[derive(Clone, Copy, PartialEq, Eq, Debug)]
pub enum Event {
    // It could not be, and nothing changed.
    Impossible,
    Registered(Result<Registered, Fault<State>>),
    Joined,
    Told(Told),
    Asked(Outcome),
    // What the coordinator answered, or a participant.
    Coordinator(Result<usize, Fault<State>>),
    Participant(Result<usize, Fault<participant::State>>),
    Posted,
    Took(Option<Notification>),
}

// An entry of the trace: what a move did, and what there is behind it.
#[derive(Clone, Copy, PartialEq, Eq, Debug)]
pub struct Entry {
    pub event: Event,
    // the coordinator's state
    pub coordinator: State,
    // that of the participant that moved, if it has joined
    pub participant: Option<participant::State>,
    // how many notifications calls have given in all
    pub given: usize,
}
