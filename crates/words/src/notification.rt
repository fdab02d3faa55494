ghost use Rattle.std.specs.Prelude.{Some};
ghost use Rattle.words.specs.Notes.{note_of, note_text};

use crate::kind::Kind;
use seats::seat::Seat;
use std::fmt;

// What one party tells another: of a transaction, between the coordinator and the participant at a seat.
#[derive(Clone, Copy, PartialEq, Eq, Debug)]
pub struct Notification {
    pub transaction: u32,
    pub seat: Seat,
    pub kind: Kind,
}

impl fmt::Display for Notification {
    ghost output = { λ n. Some (note_text (note_of n)) };

    fn fmt<W: fmt::Write>(&self, f: &mut fmt::Formatter<W>) -> fmt::Result {
        let Notification {
            transaction,
            seat,
            kind,
        } = *self;
        write!(f, "transaction {transaction}, seat {seat}, {kind}")
    }
}
