ghost use Rattle.std.specs.Prelude.{◌≡◌, ◌⊎◌, MatchResult};
ghost use Rattle.agreement.specs.Logs.{Fresh, log_of};
ghost use Rattle.desks.specs.Steps.{Joined, NotAwaited};
ghost use Rattle.desks.specs.Worlds.{Between};

use super::{Desk, Party, Store};
use crate::fresh::is_fresh;
use lines::line::Line;
use logs::log::Log;
use participant::Participant;
use seats::seat::Seat;

impl<C: Log, P: Log + Drop, N: Line> Desk<C, P, N> {
    // A durable participant joins at a seat that awaits one, with a log that has no record of the transaction; else it gets its log back.
    pub fn join(&mut self, seat: Seat, log: P) -> Result<(), P>
        ensures transaction { self.new.transaction ≡ self.old.transaction }
        ensures right { self.new.right ≡ self.old.right }
        ensures line { self.new.line ≡ self.old.line }
        ensures step { Between C.Log P.Log N.Line self.old self.new (λ w v. MatchResult result (λ _. Joined self.old.transaction w v seat.value (log_of P.Log log)) (λ back. (back ≡ log) × (NotAwaited seat.value w ⊎ (Fresh self.old.transaction (log_of P.Log log) → ⊥)) × (v ≡ w))) }
    {
        let transaction = self.transaction;
        if !is_fresh(&log, transaction) {
            return Err(log);
        }
        let place = &mut self.seats[usize::from(seat.number())];
        let Party::Awaited = place else {
            return Err(log);
        };
        *place = Party::Joined(Store {
            participant: Participant::join(transaction, seat),
            log,
        });
        Ok(())
    }
}
