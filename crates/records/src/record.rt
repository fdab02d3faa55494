ghost use Rattle.std.specs.Prelude.{◌≡◌, ◌^◌, ◌<◌};

use seats::seat::Seat;
use seats::set::SeatSet;

// What a record says of its transaction.
#[derive(Clone, Copy, PartialEq, Eq, Debug)]
pub enum Entry {
    // The coordinator decided to commit; the durable seats that voted for it, if any.
    Decision(SeatSet),
    // The participant at the seat voted Prepared.
    Vote(Seat),
    // It kept the step.
    Kept(Seat),
    // It undid the step.
    Undone(Seat),
}

// A record of a log: the number of a transaction and an entry.
#[derive(Clone, Copy, PartialEq, Eq, Debug)]
pub struct Record {
    pub transaction: u32,
    pub entry: Entry,
    ghost small: { transaction < 2 ^ 32 },
}

impl Record {
    // The record of an entry in a transaction.
    pub fn new(transaction: u32, entry: Entry) -> Record
        ensures number { result.transaction ≡ transaction }
        ensures content { result.entry ≡ entry }
    {
        Record { transaction, entry }
    }
}

mod kinds;
mod printing;
