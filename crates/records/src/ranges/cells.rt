ghost use Rattle.std.specs.Prelude.{◌≡◌, ℕ, ◌+◌, ◌*◌, ◌<◌, ◌≤◌, ◌&&◌, ◌↔◌, length, nat_le, slice_index, EachIndex, IsTrue};
ghost use Rattle.records.specs.Pairs.{after, padded};
ghost use Rattle.records.specs.Ranged.{held, ReadsSeats};
ghost use Rattle.seats.specs.Sizes.{seat_count};
ghost use Rattle.records.specs.Sizes.{pair_count};

use super::{PAIRS, Pair, Ranges};
use seats::seat::SEATS;
use seats::set::SeatSet;

// How many bytes a pair takes: its offset and its length.
const PAIR_CELLS: usize = 2;

// How many bytes the pairs of a record take.
pub(crate) const CELLS: usize = 16;

impl Ranges {
    // The places of the pairs, offset and length in turn, unused ones zero.
    pub(crate) fn cells(&self) -> [u8; CELLS]
        ensures { result ≡ padded pair_count (held self.now) }
    {
        let mut cells = [0u8; CELLS];
        // the cells by index: nothing would be known of what a zip with their chunks writes
        for (i, pair) in self.pairs.as_slice().iter().enumerate() {
            cells[PAIR_CELLS * i] = pair.offset;
            cells[PAIR_CELLS * i + 1] = pair.length;
        }
        cells
    }

    // Whether a range may follow the others.
    fn fits(&self, pair: Pair) -> bool
        ensures { result ≡ (nat_le (after 0 (held self.now)) pair.offset && (nat_le 1 pair.length && nat_le (pair.offset + pair.length) seat_count)) }
    {
        pair.offset >= self.next
            && pair.length >= 1
            && u16::from(pair.offset) + u16::from(pair.length) <= u16::from(SEATS)
    }

    // The seats in the ranges that a count of pairs and their places write, or none where these break a rule.
    pub(crate) fn read_seats(count: u8, cells: &[u8]) -> Option<SeatSet>
        requires { length cells.now ≡ 2 * pair_count }
        ensures { ReadsSeats count cells.now result }
    {
        let used = usize::from(count);
        if used > PAIRS {
            return None;
        }
        let (written, unused) = cells.split_at(PAIR_CELLS * used);
        if !all_zero(unused) {
            return None;
        }
        let mut ranges = Ranges::none();
        let mut seats = SeatSet::empty();
        for [offset, length] in written.as_chunks::<PAIR_CELLS>().0 {
            let pair = Pair {
                offset: *offset,
                length: *length,
            };
            if !ranges.fits(pair) {
                return None;
            }
            let Some(range) = SeatSet::range(pair.offset, pair.length) else {
                unreachable()
            };
            ranges.push(pair);
            seats = seats.union(range);
        }
        Some(seats)
    }
}

// Whether all of them are zero.
fn all_zero(cells: &[u8]) -> bool
    ensures { IsTrue result ↔ EachIndex cells.now (λ k. slice_index cells.now k ≡ 0) }
{
    cells.iter().all(|cell| *cell == 0)
}
