ghost use Rattle.std.specs.Prelude.{◌≡◌, MatchResult, Some};
ghost use Rattle.agreement.specs.Turns.{note};
ghost use Rattle.desks.specs.Steps.{Did, Tried, PostedAt, Said, Took, NotGiven, CannotSay, LineBy, TakenOff, given_at};
ghost use Rattle.desks.specs.Worlds.{Between, world_of};

use super::{Desk, Party};
use lines::line::Line;
use logs::log::Log;
use seats::seat::Seat;
use std::alloc::AllocError;
use words::kind::Kind;
use words::notification::Notification;

impl<C: Log, P: Log, N: Line> Desk<C, P, N> {
    // Posts the notification that calls gave with this number.
    pub fn post(&mut self, number: usize) -> Result<Option<()>, AllocError>
        ensures transaction { self.new.transaction ≡ self.old.transaction }
        ensures right { self.new.right ≡ self.old.right }
        ensures line { LineBy N.Line (λ n. given_at number (world_of C.Log P.Log N.Line self.old) ≡ Some n) self.old.line self.new.line result }
        ensures step { Between C.Log P.Log N.Line self.old self.new (λ w v. Tried (λ _. PostedAt self.old.transaction w v number) (NotGiven number w) w v result) }
    {
        let Some(row) = self.given.get(number) else {
            return Ok(None);
        };
        let Ok(notification) = Notification::try_from(*row) else {
            return Ok(None);
        };
        self.posted.push(notification)?;
        self.line.post(notification);
        Ok(Some(()))
    }

    // Takes what the line gives.
    pub fn take(&mut self) -> Result<Option<Notification>, AllocError>
        ensures transaction { self.new.transaction ≡ self.old.transaction }
        ensures right { self.new.right ≡ self.old.right }
        ensures line { MatchResult result (λ n. TakenOff N.Line n self.old.line self.new.line) (λ _. self.new.line ≡ self.old.line) }
        ensures step { Between C.Log P.Log N.Line self.old self.new (λ w v. Did (Took self.old.transaction w v) w v result) }
    {
        self.taken.reserve(1)?;
        let Some(notification) = self.line.take() else {
            return Ok(None);
        };
        self.taken.push(notification)?;
        Ok(Some(notification))
    }

    // A volatile participant posts a notification of its own, true or not.
    pub fn say(&mut self, seat: Seat, kind: Kind) -> Result<Option<()>, AllocError>
        ensures transaction { self.new.transaction ≡ self.old.transaction }
        ensures right { self.new.right ≡ self.old.right }
        ensures line { LineBy N.Line (λ n. n ≡ note self.old.transaction seat.value kind) self.old.line self.new.line result }
        ensures step { Between C.Log P.Log N.Line self.old self.new (λ w v. Tried (λ _. Said self.old.transaction w v seat.value kind) (CannotSay seat.value kind w) w v result) }
    {
        let volatile = matches!(self.seats[usize::from(seat.number())], Party::Volatile);
        if !volatile || !kind.goes_up() {
            return Ok(None);
        }
        let own = Notification {
            transaction: self.transaction,
            seat,
            kind,
        };
        self.posted.push(own)?;
        self.line.post(own);
        Ok(Some(()))
    }
}
