ghost use Rattle.std.specs.Prelude.{◌≡◌, ◌≤◌, ◌<◌, length, IfErr, MatchResult};
ghost use Rattle.agreement.specs.Turns.{reply_of, report_of};
ghost use Rattle.coordinator.specs.Calls.{Obeys, registered, registered_reply, commit_asked_with, rollback_asked_with, told_reply, RightRefused, expired, resent};
ghost use Rattle.seats.specs.Sizes.{seat_count};

use crate::group::Group;
use crate::{
    ClosingRight, Coordinator, Durability, OUTBOX_PLACES, Registered, Returned, Standing, State,
    Told,
};
use words::fault::Fault;
use words::kind::Kind;
use words::row::Row;

impl Coordinator {
    // Registers a participant at the next seat. A volatile one is asked at once where volatile seats vote.
    pub fn register(
        &mut self,
        durability: Durability,
        outbox: &mut [Row],
    ) -> Result<Registered, Fault<State>>
        ensures { Obeys (registered self.old (length outbox.old) durability) self.old self.new outbox.old outbox.new (registered_reply result) }
    {
        check_room(outbox.len())?;
        let standing = match (self.state, durability) {
            (State::VolatileVoting, Durability::Volatile) => Standing::Asked,
            (State::Active | State::VolatileVoting, _) => Standing::Idle,
            _ => return Err(Fault::InvalidState),
        };
        let seat = self.vacant().ok_or(Fault::CannotRegister)?;
        self.set_place(seat, durability, standing);
        let sent = match standing {
            Standing::Asked => self.tell(seat, Kind::Prepare, outbox),
            _ => 0,
        };
        Ok(Registered { seat, sent })
    }

    // Asks to commit: spends the closing right, unless it is for another transaction, and acts in Active alone.
    pub fn ask_commit(&mut self, right: ClosingRight, outbox: &mut [Row]) -> Result<Told, Returned>
        ensures turn { Obeys (commit_asked_with self.old (length outbox.old) right.transaction) self.old self.new outbox.old outbox.new (told_reply result) }
        ensures right { IfErr result (λ e. e.right.transaction ≡ right.transaction) }
    {
        self.close(right, outbox.len())?;
        let sent = match self.state {
            State::Active => self.ask_volatile(outbox),
            _ => 0,
        };
        Ok(Told {
            outcome: self.outcome(),
            sent,
        })
    }

    // Asks to roll back, likewise.
    pub fn ask_rollback(
        &mut self,
        right: ClosingRight,
        outbox: &mut [Row],
    ) -> Result<Told, Returned>
        ensures turn { Obeys (rollback_asked_with self.old (length outbox.old) right.transaction) self.old self.new outbox.old outbox.new (told_reply result) }
        ensures right { IfErr result (λ e. e.right.transaction ≡ right.transaction) }
    {
        self.close(right, outbox.len())?;
        let sent = match self.state {
            State::Active => self.roll_back(outbox),
            _ => 0,
        };
        Ok(Told {
            outcome: self.outcome(),
            sent,
        })
    }

    // Its time is up: it rolls back, unless the transaction is decided.
    pub fn expire(&mut self, outbox: &mut [Row]) -> Result<usize, Fault<State>>
        ensures { Obeys (expired self.old (length outbox.old)) self.old self.new outbox.old outbox.new (reply_of result) }
    {
        check_room(outbox.len())?;
        match self.state {
            State::Active | State::VolatileVoting | State::DurableVoting | State::Ready => {
                Ok(self.roll_back(outbox))
            }
            _ => Ok(0),
        }
    }

    // Says again what it waits for an answer to.
    pub fn resend(&mut self, outbox: &mut [Row]) -> Result<usize, Fault<State>>
        ensures { Obeys (resent self.old (length outbox.old)) self.old self.new outbox.old outbox.new (reply_of result) }
    {
        check_room(outbox.len())?;
        match self.state {
            State::VolatileVoting | State::DurableVoting => {
                Ok(self.give(Kind::Prepare, Group::Asked, outbox))
            }
            State::Committing => Ok(self.give(Kind::Commit, Group::VotedDurable, outbox)),
            _ => Ok(0),
        }
    }

    // Spends a closing right for its transaction, or gives it back: with fault 1 for an outbox of too few places, else with fault 2.
    fn close(&self, right: ClosingRight, places: usize) -> Result<(), Returned>
        ensures answer { MatchResult result (λ _. (seat_count ≤ places) × (right.transaction ≡ self.now.transaction)) (λ e. RightRefused self.now.transaction places right.transaction (report_of e.fault)) }
        ensures right { IfErr result (λ e. e.right.transaction ≡ right.transaction) }
    {
        if let Err(fault) = check_room(places) {
            return Err(Returned { right, fault });
        }
        if right.transaction() != self.transaction {
            return Err(Returned {
                right,
                fault: Fault::OtherRight,
            });
        }
        right.spend();
        Ok(())
    }
}

// Refuses an outbox of fewer places than a call may need.
pub(crate) fn check_room(places: usize) -> Result<(), Fault<State>>
    ensures { MatchResult result (λ _. seat_count ≤ places) (λ e. (places < seat_count) × (e ≡ Fault.ShortOutbox)) }
{
    if places < OUTBOX_PLACES {
        Err(Fault::ShortOutbox)
    } else {
        Ok(())
    }
}
