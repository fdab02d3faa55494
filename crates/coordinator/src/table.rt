ghost use Rattle.std.specs.Prelude.{◌≡◌, ◌<◌, map, length, IfSome, slice_set};
ghost use Rattle.std.specs.Option.{option_map};
ghost use Rattle.agreement.specs.CoordinatorRules.{ask, none_is, vacant_from};
ghost use Rattle.coordinator.specs.Groups.{passes, same};
ghost use Rattle.seats.specs.Sizes.{seat_count};
ghost use Rattle.seats.specs.declared.seat.Seat.{Seat};

use crate::group::Group;
use crate::{Coordinator, Durability, Place, Standing};
use seats::seat::Seat;

impl Coordinator {
    // Whether no seat is of a group.
    pub(crate) fn has_none(&self, group: Group) -> bool
        ensures { result ≡ none_is (passes group) self.now.table }
    {
        self.table.iter().all(|place| !group.has(*place))
    }

    // Asks each Idle seat of a durability.
    pub(crate) fn ask(&mut self, durability: Durability)
        ensures transaction { self.new.transaction ≡ self.old.transaction }
        ensures state { self.new.state ≡ self.old.state }
        ensures table { self.new.table ≡ map (ask (same durability)) self.old.table }
    {
        for place in self.table.iter_mut() {
            *place = asked(*place, durability);
        }
    }

    // Seats a participant, who stands so.
    pub(crate) fn set_place(&mut self, seat: Seat, durability: Durability, standing: Standing)
        ensures transaction { self.new.transaction ≡ self.old.transaction }
        ensures state { self.new.state ≡ self.old.state }
        ensures table { self.new.table ≡ slice_set self.old.table seat.value (Some (durability, standing)) }
    {
        self.table[usize::from(seat.number())] = Some((durability, standing));
    }

    // The first vacant seat, if there is one.
    pub(crate) fn vacant(&self) -> Option<Seat>
        ensures { option_map (λ (s : Seat). s.value) result ≡ vacant_from 0 self.now.table }
    {
        first_vacant(&self.table).map(seat_of)
    }
}

// The place after the Idle seats of a durability are asked.
fn asked(place: Place, durability: Durability) -> Place
    ensures { result ≡ ask (same durability) place }
{
    match place {
        Some((own, Standing::Idle)) if own == durability => Some((own, Standing::Asked)),
        _ => place,
    }
}

// The number of the first vacant place, if there is one.
fn first_vacant(table: &[Place]) -> Option<usize>
    ensures at { result ≡ vacant_from 0 table.now }
    ensures below { IfSome result (λ n. n < length table.now) }
{
    table.iter().position(|place| place.is_none())
}

// The seat of a number.
pub(crate) fn seat_of(number: usize) -> Seat
    requires { number < seat_count }
    ensures { result.value ≡ number }
{
    Seat::new(number as u8).unwrap()
}
