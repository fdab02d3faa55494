ghost use Rattle.std.specs.Prelude.{◌≡◌, ◌<◌, ◌≤◌, Some, MatchOption, decimal};
ghost use Rattle.std.specs.Fmt.{styled_decimal};
ghost use Rattle.seats.specs.Sizes.{seat_count};

use std::fmt;

// How many seats a coordinator has.
pub const SEATS: u8 = 16;

// A seat: the number, from 0 to 15, under which one participant is registered at its coordinator.
#[derive(Clone, Copy, PartialEq, Eq, Debug)]
pub struct Seat {
    value: u8,
    ghost small: { value < seat_count },
}

// `new` answers absence and not an error: each caller makes an error of its own of it.
impl Seat {
    // The seat of this number, or none where no seat has it.
    pub fn new(number: u8) -> Option<Seat>
        ensures { MatchOption result (seat_count ≤ number) (λ s. s.value ≡ number) }
    {
        if number < SEATS {
            Some(Seat { value: number })
        } else {
            None
        }
    }

    // Its number.
    pub fn number(self) -> u8
        ensures { result ≡ self.value }
    {
        self.value
    }
}

// Its number, in decimal.
impl fmt::Display for Seat {
    ghost output = { λ seat. Some (decimal seat.value) };

    // A width and its like are those of the number.
    ghost styled_output = { λ seat options. Some (styled_decimal options seat.value) };

    fn fmt<W: fmt::Write>(&self, f: &mut fmt::Formatter<W>) -> fmt::Result {
        let number = self.value;
        number.fmt(f)
    }
}
