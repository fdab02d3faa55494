ghost use Rattle.std.specs.Prelude.{◌^◌, ◌<◌};
ghost use Rattle.seats.specs.Sizes.{seat_count};

// A set of seats: bit k stands for seat k.
#[derive(Clone, Copy, PartialEq, Eq, Debug)]
pub struct SeatSet {
    bits: u16,
    ghost small: { bits < 2 ^ seat_count },
}

mod members;
