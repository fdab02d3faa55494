ghost use Rattle.std.specs.Prelude.{◌≡◌, length};
ghost use Rattle.seats.specs.Sizes.{seat_count};
ghost use Rattle.desks.specs.Own.{RightOwn, SeatsOwn};

use agreement::coordinator::Outcome;
use coordinator::{ClosingRight, Coordinator};
use participant::Participant;
use words::notification::Notification;
use words::row::Row;

// A durable participant and its log.
#[derive(Drop)]
pub struct Store<P> {
    participant: Participant,
    log: P,
}

// Who sits at a seat.
#[derive(Drop)]
pub enum Party<P> {
    Nobody,
    Volatile,
    // A durable participant that has not joined yet.
    Awaited,
    Joined(Store<P>),
}

// A transaction's coordinator and its log, those at its seats, the line between them, and what happened.
pub struct Desk<C, P, N> {
    transaction: u32,
    coordinator: Coordinator,
    log: C,
    // until it is spent
    right: Option<ClosingRight>,
    seats: Vec<Party<P>>,
    line: N,
    // what calls gave to be posted, what was posted, what was taken, and what the initiator was told, each in its order
    given: Vec<Row>,
    posted: Vec<Notification>,
    taken: Vec<Notification>,
    told: Vec<Outcome>,
    ghost full: { length seats.items ≡ seat_count },
    ghost number: { coordinator.transaction ≡ transaction },
    ghost own_right: { RightOwn transaction right },
    ghost own_seats: { SeatsOwn transaction seats.items },
}

mod acting;
mod asking;
mod heading;
mod joining;
mod mailing;
mod opening;
mod questions;
