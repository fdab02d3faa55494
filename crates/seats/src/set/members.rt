ghost use Rattle.std.specs.Prelude.{◌≡◌, ℕ, ◌+◌, ◌^◌, ◌<◌, false, ◌&&◌, ◌||◌, Some, MatchOption, ◌==◌, nat_le, nat_lt};
ghost use Rattle.seats.specs.Exactly.{Exactly};
ghost use Rattle.seats.specs.Sets.{member};
ghost use Rattle.seats.specs.Texts.{seat_text};
ghost use Rattle.seats.specs.Sizes.{seat_count};
ghost use Rattle.seats.specs.declared.seat.Seat.{Seat};

use super::SeatSet;
use crate::seat::{SEATS, Seat};
use std::fmt;

impl SeatSet {
    // The set without seats.
    pub fn empty() -> SeatSet
        ensures { (k : ℕ) → member result.bits k ≡ false }
    {
        SeatSet { bits: 0 }
    }

    // The set of one seat.
    pub fn only(seat: Seat) -> SeatSet
        ensures bits { result.bits ≡ 2 ^ seat.value }
        ensures members { (k : ℕ) → member result.bits k ≡ (k == seat.value) }
    {
        SeatSet { bits: bit(seat) }
    }

    // The set whose bits these are. `from_bits` and `bits` are what `from_bits` and `to_bits` are of the library's floats.
    pub fn from_bits(bits: u16) -> SeatSet
        ensures { result.bits ≡ bits }
    {
        SeatSet { bits }
    }

    // Its bits.
    pub fn bits(self) -> u16
        ensures { result ≡ self.bits }
    {
        self.bits
    }

    // Whether the seat is in the set.
    pub fn has(self, seat: Seat) -> bool
        ensures { result ≡ member self.bits seat.value }
    {
        (self.bits >> seat.number()) % 2 == 1
    }

    // Whether the seat of this number is in the set; no set has one past the last seat.
    pub fn has_number(self, number: u8) -> bool
        ensures { result ≡ member self.bits number }
    {
        // a match: what `is_some_and` answers of a closure over the set has no proof
        match Seat::new(number) {
            Some(seat) => self.has(seat),
            None => false,
        }
    }

    // The set of the seats of both.
    pub fn union(self, other: SeatSet) -> SeatSet
        ensures { (k : ℕ) → member result.bits k ≡ (member self.bits k || member other.bits k) }
    {
        SeatSet {
            bits: self.bits | other.bits,
        }
    }

    // The set with this seat too.
    pub fn with(self, seat: Seat) -> SeatSet
        ensures { (k : ℕ) → member result.bits k ≡ (member self.bits k || k == seat.value) }
    {
        self.union(SeatSet::only(seat))
    }

    // The one seat of the set, or none where it has no seat or several.
    pub fn single(self) -> Option<Seat>
        ensures { Exactly (λ s. self.bits ≡ 2 ^ s.value) result }
    {
        self.lowest().filter(|seat| self == SeatSet::only(*seat))
    }

    // The lowest seat of the set, if it has any: that of a set of one is the one.
    fn lowest(self) -> Option<Seat>
        ensures { (s : Seat) → self.bits ≡ 2 ^ s.value → result ≡ Some s }
    {
        // the cast is proved to lose nothing; `try_from` would answer an error that never comes
        Seat::new(self.bits.trailing_zeros() as u8)
    }

    // The set of `count` seats, from `first` on, or none where these pass the last seat.
    pub fn range(first: u8, count: u8) -> Option<SeatSet>
        ensures { MatchOption result (seat_count < first + count) (λ s. (k : ℕ) → member s.bits k ≡ (nat_le first k && nat_lt k (first + count))) }
    {
        if u16::from(first) + u16::from(count) > u16::from(SEATS) {
            return None;
        }
        let bits = ((1u32 << count) - 1) << first;
        // proved to lose nothing
        Some(SeatSet { bits: bits as u16 })
    }
}

// The set without seats.
impl Default for SeatSet {
    ghost is_default = { λ seats. seats.bits ≡ 0 };

    fn default() -> SeatSet {
        SeatSet { bits: 0b0 }
    }
}

// Its seats from the lowest up, each behind a space.
impl fmt::Display for SeatSet {
    ghost output = { λ seats. Some (seat_text seats.bits) };

    fn fmt<W: fmt::Write>(&self, f: &mut fmt::Formatter<W>) -> fmt::Result {
        // a loop: what a chain with `filter` writes has no proof
        for number in 0..SEATS {
            if self.has_number(number) {
                write!(f, " {number}")?;
            }
        }
        Ok(())
    }
}

// The bit of a seat.
fn bit(seat: Seat) -> u16
    ensures value { result ≡ 2 ^ seat.value }
    ensures members { (k : ℕ) → member result k ≡ (k == seat.value) }
{
    1 << seat.number()
}
