ghost use Rattle.std.specs.Prelude.{◌≡◌, None, MatchResult, is_some};
ghost use Rattle.desks.specs.Steps.{Did, Tried, RegisteredAs, AskedCommit, AskedRollback, AskedOutcome};
ghost use Rattle.desks.specs.Worlds.{Between, newcomer};

use super::{Desk, Party};
use crate::rows::keep;
use agreement::coordinator::{Durability, Outcome, State};
use coordinator::{OUTBOX_PLACES, Registered, Told};
use lines::line::Line;
use logs::log::Log;
use std::alloc::AllocError;
use words::fault::Fault;
use words::row::Row;

impl<C: Log, P: Log + Drop, N: Line> Desk<C, P, N> {
    // The initiator asks the outcome.
    pub fn outcome(&mut self) -> Result<Outcome, AllocError>
        ensures transaction { self.new.transaction ≡ self.old.transaction }
        ensures right { self.new.right ≡ self.old.right }
        ensures line { self.new.line ≡ self.old.line }
        ensures step { Between C.Log P.Log N.Line self.old self.new (λ w v. Did (AskedOutcome self.old.transaction w v) w v result) }
    {
        let outcome = self.coordinator.outcome();
        self.told.push(outcome)?;
        Ok(outcome)
    }

    // The initiator asks to commit, if the closing right is still there.
    pub fn ask_commit(&mut self) -> Result<Option<Told>, AllocError>
        ensures transaction { self.new.transaction ≡ self.old.transaction }
        ensures right { MatchResult result (λ told. (is_some told ≡ is_some self.old.right) × (self.new.right ≡ None)) (λ _. self.new.right ≡ self.old.right) }
        ensures line { self.new.line ≡ self.old.line }
        ensures step { Between C.Log P.Log N.Line self.old self.new (λ w v. Tried (AskedCommit self.old.transaction w v) (self.old.right ≡ None) w v result) }
    {
        self.given.reserve(OUTBOX_PLACES)?;
        self.told.reserve(1)?;
        let Some(right) = self.right.take() else {
            return Ok(None);
        };
        let mut outbox = [Row::BLANK; OUTBOX_PLACES];
        let told = match self.coordinator.ask_commit(right, &mut outbox) {
            Ok(told) => told,
            Err(returned) => unreachable(),
        };
        keep(&mut self.given, &outbox);
        self.told.push(told.outcome)?;
        Ok(Some(told))
    }

    // The initiator asks to roll back, if the closing right is still there.
    pub fn ask_rollback(&mut self) -> Result<Option<Told>, AllocError>
        ensures transaction { self.new.transaction ≡ self.old.transaction }
        ensures right { MatchResult result (λ told. (is_some told ≡ is_some self.old.right) × (self.new.right ≡ None)) (λ _. self.new.right ≡ self.old.right) }
        ensures line { self.new.line ≡ self.old.line }
        ensures step { Between C.Log P.Log N.Line self.old self.new (λ w v. Tried (AskedRollback self.old.transaction w v) (self.old.right ≡ None) w v result) }
    {
        self.given.reserve(OUTBOX_PLACES)?;
        self.told.reserve(1)?;
        let Some(right) = self.right.take() else {
            return Ok(None);
        };
        let mut outbox = [Row::BLANK; OUTBOX_PLACES];
        let told = match self.coordinator.ask_rollback(right, &mut outbox) {
            Ok(told) => told,
            Err(returned) => unreachable(),
        };
        keep(&mut self.given, &outbox);
        self.told.push(told.outcome)?;
        Ok(Some(told))
    }

    // A participant registers.
    pub fn register(
        &mut self,
        durability: Durability,
    ) -> Result<Result<Registered, Fault<State>>, AllocError>
        ensures transaction { self.new.transaction ≡ self.old.transaction }
        ensures right { self.new.right ≡ self.old.right }
        ensures line { self.new.line ≡ self.old.line }
        ensures step { Between C.Log P.Log N.Line self.old self.new (λ w v. Did (RegisteredAs self.old.transaction w v durability) w v result) }
    {
        self.given.reserve(OUTBOX_PLACES)?;
        let mut outbox = [Row::BLANK; OUTBOX_PLACES];
        let answer = self.coordinator.register(durability, &mut outbox);
        keep(&mut self.given, &outbox);
        if let Ok(registered) = answer {
            self.seats[usize::from(registered.seat.number())] = newcomer(durability);
        }
        Ok(answer)
    }
}

// Who sits at a seat that was just given.
fn newcomer<P>(durability: Durability) -> Party<P>
    ensures { result ≡ newcomer durability }
{
    match durability {
        Durability::Volatile => Party::Volatile,
        Durability::Durable => Party::Awaited,
    }
}
