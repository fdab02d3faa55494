ghost use Rattle.std.specs.Prelude.{◌≡◌, slice_index_or};
ghost use Rattle.desks.specs.Worlds.{state_in, world_of};
ghost use Rattle.desks.specs.declared.desk.Party.TheVariants.{Nobody};
ghost use Rattle.agreement.specs.World.{seat_in};

use super::{Desk, Party, Store};
use agreement::coordinator::{Outcome, State};
use agreement::participant;
use lines::line::Line;
use logs::log::Log;
use seats::seat::Seat;
use words::notification::Notification;
use words::row::Row;

impl<C: Log, P: Log, N: Line> Desk<C, P, N> {
    // Its transaction.
    pub fn transaction(&self) -> u32
        ensures { result ≡ self.now.transaction }
    {
        self.transaction
    }

    // The coordinator's state.
    pub fn state(&self) -> State
        ensures { result ≡ self.now.coordinator.state }
    {
        self.coordinator.state()
    }

    // The state of the participant that has joined at a seat, or none.
    pub fn state_at(&self, seat: Seat) -> Option<participant::State>
        ensures { result ≡ state_in (seat_in (world_of C.Log P.Log N.Line self.now).office seat.value) }
    {
        match &self.seats[usize::from(seat.number())] {
            Party::Joined(store) => Some(store.state()),
            Party::Nobody | Party::Volatile | Party::Awaited => None,
        }
    }

    // The coordinator's log.
    pub fn log(&self) -> &C
        ensures { result.now ≡ self.now.log }
    {
        &self.log
    }

    // Who sits at a seat.
    pub fn party_at(&self, seat: Seat) -> &Party<P>
        ensures { result.now ≡ slice_index_or self.now.seats.items seat.value Nobody }
    {
        &self.seats[usize::from(seat.number())]
    }

    // What calls gave, in its order.
    pub fn given(&self) -> &[Row]
        ensures { result.now ≡ self.now.given.items }
    {
        &self.given
    }

    // What was posted, in its order.
    pub fn posted(&self) -> &[Notification]
        ensures { result.now ≡ self.now.posted.items }
    {
        &self.posted
    }

    // What was taken from the line, in its order.
    pub fn taken(&self) -> &[Notification]
        ensures { result.now ≡ self.now.taken.items }
    {
        &self.taken
    }

    // What the initiator was told, in its order.
    pub fn told(&self) -> &[Outcome]
        ensures { result.now ≡ self.now.told.items }
    {
        &self.told
    }
}

impl<P> Store<P> {
    // The participant's state.
    pub fn state(&self) -> participant::State
        ensures { result ≡ self.now.participant.state }
    {
        self.participant.state()
    }

    // Its log.
    pub fn log(&self) -> &P
        ensures { result.now ≡ self.now.log }
    {
        &self.log
    }
}
