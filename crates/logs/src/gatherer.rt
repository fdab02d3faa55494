ghost use Rattle.std.specs.Prelude.{◌≡◌, ◌+◌, ◌≤◌, length};
ghost use Rattle.logs.specs.Sizes.{held_length};

use crate::log::Log;
use records::record::Record;

// How many records a gatherer holds back at most.
pub const HELD_RECORDS: usize = 8;

// A gatherer: a log over any other, which holds up to 8 added records and passes them down together, in order, when a ninth comes or on securing.
// What it holds is loose: a power cut takes it.
#[derive(Drop)]
pub struct Gatherer<L: Log> {
    below: L,
    // not an `ArrayVec`, which asks for a default: that would let any code make a record that nobody wrote
    held: [Record; HELD_RECORDS],
    holding: usize,
    ghost few: { holding ≤ held_length },
    ghost long: { length held ≡ held_length },
    // there is room for them below, so all that is held is loose
    ghost room: { length (L.Log.safe below) + length (L.Log.loose below) + holding ≤ L.Log.capacity below },
}

mod logging;
mod making;
