ghost use Rattle.std.specs.Prelude.{◌≡◌, Ok};
ghost use Rattle.agreement.specs.World.{settles, expires, resends, restarts};
ghost use Rattle.desks.specs.Steps.{Did, Tried, Headed, HeadReceived, NotTaken, places};
ghost use Rattle.desks.specs.Worlds.{Between};

use super::Desk;
use crate::rows::keep;
use agreement::coordinator::State;
use coordinator::{Coordinator, OUTBOX_PLACES};
use core::mem::replace_with;
use lines::line::Line;
use logs::log::Log;
use std::alloc::AllocError;
use words::fault::Fault;
use words::row::Row;

impl<C: Log, P: Log, N: Line> Desk<C, P, N> {
    // The coordinator settles.
    pub fn settle(&mut self) -> Result<Result<usize, Fault<State>>, AllocError>
        ensures transaction { self.new.transaction ≡ self.old.transaction }
        ensures right { self.new.right ≡ self.old.right }
        ensures line { self.new.line ≡ self.old.line }
        ensures step { Between C.Log P.Log N.Line self.old self.new (λ w v. Did (Headed self.old.transaction w v (settles places)) w v result) }
    {
        self.given.reserve(OUTBOX_PLACES)?;
        let mut outbox = [Row::BLANK; OUTBOX_PLACES];
        let answer = self.coordinator.settle(&mut self.log, &mut outbox);
        keep(&mut self.given, &outbox);
        Ok(answer)
    }

    // The coordinator's time is up.
    pub fn expire(&mut self) -> Result<Result<usize, Fault<State>>, AllocError>
        ensures transaction { self.new.transaction ≡ self.old.transaction }
        ensures right { self.new.right ≡ self.old.right }
        ensures line { self.new.line ≡ self.old.line }
        ensures step { Between C.Log P.Log N.Line self.old self.new (λ w v. Did (Headed self.old.transaction w v (expires places)) w v result) }
    {
        self.given.reserve(OUTBOX_PLACES)?;
        let mut outbox = [Row::BLANK; OUTBOX_PLACES];
        let answer = self.coordinator.expire(&mut outbox);
        keep(&mut self.given, &outbox);
        Ok(answer)
    }

    // The coordinator resends.
    pub fn resend(&mut self) -> Result<Result<usize, Fault<State>>, AllocError>
        ensures transaction { self.new.transaction ≡ self.old.transaction }
        ensures right { self.new.right ≡ self.old.right }
        ensures line { self.new.line ≡ self.old.line }
        ensures step { Between C.Log P.Log N.Line self.old self.new (λ w v. Did (Headed self.old.transaction w v (resends places)) w v result) }
    {
        self.given.reserve(OUTBOX_PLACES)?;
        let mut outbox = [Row::BLANK; OUTBOX_PLACES];
        let answer = self.coordinator.resend(&mut outbox);
        keep(&mut self.given, &outbox);
        Ok(answer)
    }

    // The coordinator receives the notification that was taken with this number.
    pub fn receive(
        &mut self,
        number: usize,
    ) -> Result<Option<Result<usize, Fault<State>>>, AllocError>
        ensures transaction { self.new.transaction ≡ self.old.transaction }
        ensures right { self.new.right ≡ self.old.right }
        ensures line { self.new.line ≡ self.old.line }
        ensures step { Between C.Log P.Log N.Line self.old self.new (λ w v. Tried (HeadReceived self.old.transaction w v number) (NotTaken number w) w v result) }
    {
        self.given.reserve(OUTBOX_PLACES)?;
        let Some(notification) = self.taken.get(number) else {
            return Ok(None);
        };
        let mut outbox = [Row::BLANK; OUTBOX_PLACES];
        let answer = self.coordinator.receive(*notification, &mut outbox);
        keep(&mut self.given, &outbox);
        Ok(Some(answer))
    }

    // The power of the coordinator went and came back: it restarts with the number that the world chose.
    pub fn restart(&mut self, n: u32)
        ensures transaction { self.new.transaction ≡ self.old.transaction }
        ensures right { self.new.right ≡ self.old.right }
        ensures line { self.new.line ≡ self.old.line }
        ensures step { Between C.Log P.Log N.Line self.old self.new (λ w v. Headed self.old.transaction w v (restarts (C.Log.survives self.old.log n)) (Ok 0)) }
    {
        replace_with(self, n, Desk::restarted);
    }

    fn restarted(self, n: u32) -> (Desk<C, P, N>, ())
        ensures transaction { result.0.transaction ≡ self.transaction }
        ensures right { result.0.right ≡ self.right }
        ensures line { result.0.line ≡ self.line }
        ensures step { Between C.Log P.Log N.Line self result.0 (λ w v. Headed self.transaction w v (restarts (C.Log.survives self.log n)) (Ok 0)) }
    {
        let Desk {
            transaction,
            coordinator,
            mut log,
            right,
            seats,
            line,
            given,
            posted,
            taken,
            told,
        } = self;
        let coordinator = coordinator.restart(&mut log, n);
        let desk = Desk {
            transaction,
            coordinator,
            log,
            right,
            seats,
            line,
            given,
            posted,
            taken,
            told,
        };
        (desk, ())
    }
}
