ghost use Rattle.std.specs.Prelude.{◌≡◌, MatchResult};
ghost use Rattle.rehearsals.specs.Plays.{Acts, Happened, Heads, Unmoved, event_of, right_after};
ghost use Rattle.rehearsals.specs.declared.moves.Move.TheVariants.{Join};

use super::Rehearsal;
use crate::moves::{Call, Move};
use crate::trace::Event;
use agreement::participant::State;
use lines::line::Line;
use logs::log::Log;
use seats::seat::Seat;
use std::alloc::AllocError;
use words::fault::Fault;

impl<C: Log, P: Log + Drop, N: Line> Rehearsal<C, P, N> {
    // The coordinator's call.
    fn call(&mut self, call: Call) -> Result<Event, AllocError>
        ensures transaction { self.new.desk.transaction ≡ self.old.desk.transaction }
        ensures right { self.new.desk.right ≡ self.old.desk.right }
        ensures trace { self.new.trace ≡ self.old.trace }
        ensures step { MatchResult result (λ e. Heads C.Log P.Log N.Line self.old self.new call e) (λ _. Unmoved C.Log P.Log N.Line self.old self.new) }
    {
        Ok(match call {
            Call::Expire => Event::Coordinator(self.desk.expire()?),
            Call::Settle => Event::Coordinator(self.desk.settle()?),
            Call::Resend => Event::Coordinator(self.desk.resend()?),
            Call::Receive(number) => self
                .desk
                .receive(number)?
                .map_or(Event::Impossible, Event::Coordinator),
            Call::Restart(n) => {
                self.desk.restart(n);
                Event::Coordinator(Ok(0))
            }
        })
    }

    // The call of the participant at a seat.
    fn call_at(&mut self, seat: Seat, call: Call) -> Result<Event, AllocError>
        ensures transaction { self.new.desk.transaction ≡ self.old.desk.transaction }
        ensures right { self.new.desk.right ≡ self.old.desk.right }
        ensures trace { self.new.trace ≡ self.old.trace }
        ensures step { MatchResult result (λ e. Acts C.Log P.Log N.Line self.old self.new seat.value call e) (λ _. Unmoved C.Log P.Log N.Line self.old self.new) }
    {
        Ok(match call {
            Call::Expire => event_of(self.desk.expire_at(seat)?),
            Call::Settle => event_of(self.desk.settle_at(seat)?),
            Call::Resend => event_of(self.desk.resend_at(seat)?),
            Call::Receive(number) => event_of(self.desk.receive_at(seat, number)?),
            Call::Restart(n) => event_of(self.desk.restart_at(seat, n).map(|()| Ok(0))),
        })
    }

    // A durable participant joins at a seat.
    fn join(&mut self, seat: Seat) -> Event
        ensures transaction { self.new.desk.transaction ≡ self.old.desk.transaction }
        ensures right { self.new.desk.right ≡ self.old.desk.right }
        ensures trace { self.new.trace ≡ self.old.trace }
        ensures step { Happened C.Log P.Log N.Line self.old self.new (Join seat) result }
    {
        let Some(log) = self.logs.pop() else {
            return Event::Impossible;
        };
        match self.desk.join(seat, log) {
            Ok(()) => Event::Joined,
            Err(log) => {
                self.logs.push_reserved(log);
                Event::Impossible
            }
        }
    }

    // Makes a move.
    pub(super) fn make(&mut self, next: Move) -> Result<Event, AllocError>
        ensures transaction { self.new.desk.transaction ≡ self.old.desk.transaction }
        ensures trace { self.new.trace ≡ self.old.trace }
        ensures step { MatchResult result (λ e. (self.new.desk.right ≡ right_after next self.old.desk.right) × Happened C.Log P.Log N.Line self.old self.new next e) (λ _. (self.new.desk.right ≡ self.old.desk.right) × Unmoved C.Log P.Log N.Line self.old self.new) }
    {
        Ok(match next {
            Move::Register(durability) => Event::Registered(self.desk.register(durability)?),
            Move::Join(seat) => self.join(seat),
            Move::AskCommit => self
                .desk
                .ask_commit()?
                .map_or(Event::Impossible, Event::Told),
            Move::AskRollback => self
                .desk
                .ask_rollback()?
                .map_or(Event::Impossible, Event::Told),
            Move::AskOutcome => Event::Asked(self.desk.outcome()?),
            Move::Coordinator(call) => self.call(call)?,
            Move::Vote(seat, ballot) => self
                .desk
                .vote_at(seat, ballot)?
                .map_or(Event::Impossible, Event::Participant),
            Move::Participant(seat, call) => self.call_at(seat, call)?,
            Move::Post(number) => self
                .desk
                .post(number)?
                .map_or(Event::Impossible, |()| Event::Posted),
            Move::Say(seat, kind) => self
                .desk
                .say(seat, kind)?
                .map_or(Event::Impossible, |()| Event::Posted),
            Move::Take => Event::Took(self.desk.take()?),
        })
    }
}

// What a participant's call did.
fn event_of(answer: Option<Result<usize, Fault<State>>>) -> Event
    ensures { result ≡ event_of answer }
{
    answer.map_or(Event::Impossible, Event::Participant)
}
