ghost use Rattle.std.specs.Prelude.{◌≡◌, ◌≤◌, true};
ghost use Rattle.arrayvec.specs.ArrayVec.{array_vec_len};
ghost use Rattle.records.specs.Pairs.{parted, after};
ghost use Rattle.seats.specs.Sizes.{seat_count};
ghost use Rattle.records.specs.Sizes.{pair_count};

use arrayvec::ArrayVec;

// How many pairs a record has places for.
pub(crate) const PAIRS: usize = 8;

// A range of seats: the first one, and how many.
#[derive(Clone, Copy, Default)]
pub(crate) struct Pair {
    pub(crate) offset: u8,
    pub(crate) length: u8,
}

// Ranges of seats, each a pair: sorted, parted by at least one free seat, none past the last seat.
#[derive(Drop)]
pub(crate) struct Ranges {
    pairs: ArrayVec<Pair, PAIRS>,
    // where the next range may begin
    next: u8,
    ghost few: { array_vec_len pairs ≤ pair_count },
    ghost apart: { parted 0 seat_count pairs.items ≡ true },
    ghost begins: { next ≡ after 0 pairs.items },
}

mod cells;
mod making;
