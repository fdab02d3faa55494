ghost use Rattle.std.specs.Prelude.{◌≤◌, [], length};
ghost use Rattle.agreement.specs.CoordinatorRules.{advance, rolls_back, volatile_asked};
ghost use Rattle.agreement.specs.Turns.{done};
ghost use Rattle.coordinator.specs.Calls.{Obeys, coord_of};
ghost use Rattle.seats.specs.Sizes.{seat_count};

use crate::group::Group;
use crate::{Coordinator, Durability, State};
use words::kind::Kind;
use words::row::Row;

impl Coordinator {
    // Advances: asks the durable seats once no volatile vote is owed, and is Ready once no vote is.
    pub(crate) fn advance(&mut self, outbox: &mut [Row]) -> usize
        requires { seat_count ≤ length outbox.old }
        ensures { Obeys (advance self.old.transaction [] (coord_of self.old)) self.old self.new outbox.old outbox.new (done result) }
    {
        let mut sent = 0;
        if self.state == State::VolatileVoting && self.has_none(Group::PendingVolatile) {
            sent = self.give(Kind::Prepare, Group::IdleDurable, outbox);
            self.ask(Durability::Durable);
            self.state = State::DurableVoting;
        }
        if self.state == State::DurableVoting && self.has_none(Group::Asked) {
            self.state = State::Ready;
        }
        sent
    }

    // Rolls back.
    pub(crate) fn roll_back(&mut self, outbox: &mut [Row]) -> usize
        requires { seat_count ≤ length outbox.old }
        ensures { Obeys (rolls_back self.old.transaction (coord_of self.old)) self.old self.new outbox.old outbox.new (done result) }
    {
        self.state = State::Rolled;
        self.give(Kind::Rollback, Group::Remaining, outbox)
    }

    // Asks the volatile seats to prepare, and advances where there is none.
    pub(crate) fn ask_volatile(&mut self, outbox: &mut [Row]) -> usize
        requires { seat_count ≤ length outbox.old }
        ensures { Obeys (volatile_asked self.old.transaction (coord_of self.old)) self.old self.new outbox.old outbox.new (done result) }
    {
        let asked = self.give(Kind::Prepare, Group::IdleVolatile, outbox);
        self.ask(Durability::Volatile);
        self.state = State::VolatileVoting;
        if asked > 0 {
            return asked;
        }
        self.advance(outbox)
    }
}
