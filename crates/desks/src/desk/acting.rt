ghost use Rattle.std.specs.Prelude.{◌≡◌, ◌⊎◌, length, Ok};
ghost use Rattle.agreement.specs.Logs.{log_of};
ghost use Rattle.participant.specs.Calls.{Obeys, Leaves, expired, resent, woken};
ghost use Rattle.agreement.specs.World.{settles, expires, resends};
ghost use Rattle.desks.specs.Steps.{Tried, Acted, ActReceived, Voted, RestartedAt, NotTaken, NotJoined, places};
ghost use Rattle.desks.specs.Worlds.{Between};

use super::{Desk, Party, Store};
use crate::rows::keep;
use agreement::participant::{Ballot, State};
use coordinator::OUTBOX_PLACES;
use lines::line::Line;
use logs::log::Log;
use participant::Participant;
use seats::seat::Seat;
use std::alloc::AllocError;
use std::mem;
use words::fault::Fault;
use words::row::Row;

impl<C: Log, P: Log, N: Line> Desk<C, P, N> {
    // The participant at a seat settles.
    pub fn settle_at(
        &mut self,
        seat: Seat,
    ) -> Result<Option<Result<usize, Fault<State>>>, AllocError>
        ensures transaction { self.new.transaction ≡ self.old.transaction }
        ensures right { self.new.right ≡ self.old.right }
        ensures line { self.new.line ≡ self.old.line }
        ensures step { Between C.Log P.Log N.Line self.old self.new (λ w v. Tried (Acted self.old.transaction w v seat.value (settles places)) (NotJoined seat.value w) w v result) }
    {
        self.given.reserve(OUTBOX_PLACES)?;
        let mut outbox = [Row::BLANK; OUTBOX_PLACES];
        let Party::Joined(store) = &mut self.seats[usize::from(seat.number())] else {
            return Ok(None);
        };
        let answer = store.participant.settle(&mut store.log, &mut outbox);
        keep(&mut self.given, &outbox);
        Ok(Some(answer))
    }

    // The time of the participant at a seat is up.
    pub fn expire_at(
        &mut self,
        seat: Seat,
    ) -> Result<Option<Result<usize, Fault<State>>>, AllocError>
        ensures transaction { self.new.transaction ≡ self.old.transaction }
        ensures right { self.new.right ≡ self.old.right }
        ensures line { self.new.line ≡ self.old.line }
        ensures step { Between C.Log P.Log N.Line self.old self.new (λ w v. Tried (Acted self.old.transaction w v seat.value (expires places)) (NotJoined seat.value w) w v result) }
    {
        self.given.reserve(OUTBOX_PLACES)?;
        let mut outbox = [Row::BLANK; OUTBOX_PLACES];
        let Party::Joined(store) = &mut self.seats[usize::from(seat.number())] else {
            return Ok(None);
        };
        let answer = store.expire(&mut outbox);
        keep(&mut self.given, &outbox);
        Ok(Some(answer))
    }

    // The participant at a seat resends.
    pub fn resend_at(
        &mut self,
        seat: Seat,
    ) -> Result<Option<Result<usize, Fault<State>>>, AllocError>
        ensures transaction { self.new.transaction ≡ self.old.transaction }
        ensures right { self.new.right ≡ self.old.right }
        ensures line { self.new.line ≡ self.old.line }
        ensures step { Between C.Log P.Log N.Line self.old self.new (λ w v. Tried (Acted self.old.transaction w v seat.value (resends places)) (NotJoined seat.value w) w v result) }
    {
        self.given.reserve(OUTBOX_PLACES)?;
        let mut outbox = [Row::BLANK; OUTBOX_PLACES];
        let Party::Joined(store) = &mut self.seats[usize::from(seat.number())] else {
            return Ok(None);
        };
        let answer = store.resend(&mut outbox);
        keep(&mut self.given, &outbox);
        Ok(Some(answer))
    }

    // The participant at a seat votes.
    pub fn vote_at(
        &mut self,
        seat: Seat,
        ballot: Ballot,
    ) -> Result<Option<Result<usize, Fault<State>>>, AllocError>
        ensures transaction { self.new.transaction ≡ self.old.transaction }
        ensures right { self.new.right ≡ self.old.right }
        ensures line { self.new.line ≡ self.old.line }
        ensures step { Between C.Log P.Log N.Line self.old self.new (λ w v. Tried (Voted self.old.transaction w v seat.value ballot) (NotJoined seat.value w) w v result) }
    {
        self.given.reserve(OUTBOX_PLACES)?;
        let mut outbox = [Row::BLANK; OUTBOX_PLACES];
        let Party::Joined(store) = &mut self.seats[usize::from(seat.number())] else {
            return Ok(None);
        };
        let answer = store.participant.vote(ballot, &mut store.log, &mut outbox);
        keep(&mut self.given, &outbox);
        Ok(Some(answer))
    }

    // The participant at a seat receives the notification that was taken with this number.
    pub fn receive_at(
        &mut self,
        seat: Seat,
        number: usize,
    ) -> Result<Option<Result<usize, Fault<State>>>, AllocError>
        ensures transaction { self.new.transaction ≡ self.old.transaction }
        ensures right { self.new.right ≡ self.old.right }
        ensures line { self.new.line ≡ self.old.line }
        ensures step { Between C.Log P.Log N.Line self.old self.new (λ w v. Tried (ActReceived self.old.transaction w v seat.value number) (NotTaken number w ⊎ NotJoined seat.value w) w v result) }
    {
        self.given.reserve(OUTBOX_PLACES)?;
        let Some(notification) = self.taken.get(number) else {
            return Ok(None);
        };
        let mut outbox = [Row::BLANK; OUTBOX_PLACES];
        let Party::Joined(store) = &mut self.seats[usize::from(seat.number())] else {
            return Ok(None);
        };
        let answer = store
            .participant
            .receive(*notification, &mut store.log, &mut outbox);
        keep(&mut self.given, &outbox);
        Ok(Some(answer))
    }

    // The power of the participant at a seat went and came back: it restarts with the number that the world chose.
    pub fn restart_at(&mut self, seat: Seat, n: u32) -> Option<()>
        ensures transaction { self.new.transaction ≡ self.old.transaction }
        ensures right { self.new.right ≡ self.old.right }
        ensures line { self.new.line ≡ self.old.line }
        ensures step { Between C.Log P.Log N.Line self.old self.new (λ w v. RestartedAt P.Log self.old.seats.items self.old.transaction w v seat.value n result) }
    {
        let Party::Joined(store) = &mut self.seats[usize::from(seat.number())] else {
            return None;
        };
        store.restart(n);
        Some(())
    }
}

impl<P: Log> Store<P> {
    fn expire(&mut self, outbox: &mut [Row]) -> Result<usize, Fault<State>>
        ensures { Obeys (expired self.old.participant (length outbox.old) (log_of P.Log self.old.log)) self.old.participant self.new.participant (log_of P.Log self.new.log) outbox.old outbox.new result }
    {
        self.participant.expire(outbox)
    }

    fn resend(&mut self, outbox: &mut [Row]) -> Result<usize, Fault<State>>
        ensures { Obeys (resent self.old.participant (length outbox.old) (log_of P.Log self.old.log)) self.old.participant self.new.participant (log_of P.Log self.new.log) outbox.old outbox.new result }
    {
        self.participant.resend(outbox)
    }

    fn restart(&mut self, n: u32)
        ensures { Leaves (woken self.old.participant (P.Log.survives self.old.log n) (log_of P.Log self.old.log)) self.old.participant self.new.participant (log_of P.Log self.new.log) (Ok 0) }
    {
        let blank = Participant::join(self.participant.transaction(), self.participant.seat());
        let old = mem::replace(&mut self.participant, blank);
        self.participant = old.restart(&mut self.log, n);
    }
}
