ghost use Rattle.std.specs.Prelude.{◌≡◌, ◌+◌, ◌≤◌, [], ◌∷◌, ◌++◌, length};
ghost use Rattle.records.specs.Pairs.{after, runs};
ghost use Rattle.records.specs.Ranged.{held};
ghost use Rattle.seats.specs.Sets.{member};
ghost use Rattle.seats.specs.Sizes.{seat_count};
ghost use Rattle.records.specs.Sizes.{pair_count};

use super::{Pair, Ranges};
use arrayvec::ArrayVec;
use seats::set::SeatSet;

impl Ranges {
    // No ranges.
    pub(crate) fn none() -> Ranges
        ensures { held result ≡ [] }
    {
        Ranges {
            pairs: ArrayVec::new(),
            next: 0,
        }
    }

    // How many ranges there are.
    pub(crate) fn count(&self) -> usize
        ensures value { result ≡ length (held self.now) }
        ensures few { result ≤ pair_count }
    {
        self.pairs.len()
    }

    // One range more, behind the others.
    pub(crate) fn push(&mut self, pair: Pair)
        requires begins { after 0 (held self.old) ≤ pair.offset }
        requires some { 1 ≤ pair.length }
        requires within { pair.offset + pair.length ≤ seat_count }
        ensures { held self.new ≡ held self.old ++ pair ∷ [] }
    {
        self.pairs.push(pair);
        self.next = pair.offset + pair.length + 1;
    }
}

// The runs of a set of seats.
impl From<SeatSet> for Ranges {
    ghost from_gives = { λ seats ranges. held ranges ≡ runs seat_count 0 (member seats.bits) };

    fn from(seats: SeatSet) -> Ranges {
        let mut ranges = Ranges::none();
        // from run to run; `left` is the set from seat k up, moved down by k
        let mut k = 0u8;
        let mut left = u32::from(seats.bits());
        while left != 0 {
            // proved to lose nothing, and so below
            let offset = k + left.trailing_zeros() as u8;
            left >>= left.trailing_zeros();
            let length = left.trailing_ones() as u8;
            ranges.push(Pair { offset, length });
            // the seat behind a run is not in the set
            left = left >> length >> 1;
            k = offset + length + 1;
        }
        ranges
    }
}
