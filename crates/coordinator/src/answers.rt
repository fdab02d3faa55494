use crate::ClosingRight;
use agreement::coordinator::{Outcome, State};
use seats::seat::Seat;
use words::fault::Fault;

// The answer to registering: the seat that was given, and how many notifications were written.
#[derive(Clone, Copy, PartialEq, Eq, Debug)]
pub struct Registered {
    pub seat: Seat,
    pub sent: usize,
}

// The answer to asking: the outcome now, and how many notifications were written.
#[derive(Clone, Copy, PartialEq, Eq, Debug)]
pub struct Told {
    pub outcome: Outcome,
    pub sent: usize,
}

// The refusal of asking: the closing right, unspent, and why.
#[derive(Debug)]
pub struct Returned {
    pub right: ClosingRight,
    pub fault: Fault<State>,
}
