ghost use Rattle.std.specs.Prelude.{◌≡◌};
ghost use Rattle.coordinator.specs.Groups.{passes};

use agreement::coordinator::Durability::{Durable, Volatile};
use agreement::coordinator::Place;
use agreement::coordinator::Standing::{Asked, Heard, Idle, Voted};

// A group of places of the table, by the durability of their participants and how they stand.
#[derive(Clone, Copy)]
pub(crate) enum Group {
    IdleVolatile,
    IdleDurable,
    // Idle or Asked.
    PendingVolatile,
    Asked,
    Voted,
    VotedDurable,
    // All but the Gone ones.
    Remaining,
}

impl Group {
    // Whether a place is of the group; a vacant one is of none.
    pub(crate) fn has(self, place: Place) -> bool
        ensures { result ≡ passes self place }
    {
        match self {
            Group::IdleVolatile => matches!(place, Some((Volatile, Idle))),
            Group::IdleDurable => matches!(place, Some((Durable, Idle))),
            Group::PendingVolatile => matches!(place, Some((Volatile, Idle | Asked))),
            Group::Asked => matches!(place, Some((_, Asked))),
            Group::Voted => matches!(place, Some((_, Voted))),
            Group::VotedDurable => matches!(place, Some((Durable, Voted))),
            Group::Remaining => matches!(place, Some((_, Idle | Asked | Voted | Heard))),
        }
    }
}
