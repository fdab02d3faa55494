ghost use Rattle.std.specs.Prelude.{◌≡◌, ◌≤◌, [], ◌∷◌, map, length, Ok};
ghost use Rattle.agreement.specs.Logs.{log_of};
ghost use Rattle.agreement.specs.ParticipantRules.{adds_record};
ghost use Rattle.agreement.specs.Turns.{note};
ghost use Rattle.participant.specs.Calls.{Leaves, record_of};
ghost use Rattle.words.specs.Notes.{row_of};
ghost use Rattle.words.specs.Outboxes.{laid};

use crate::{Participant, State};
use logs::log::Log;
use records::record::{Entry, Record};
use words::fault::Fault;
use words::kind::Kind;
use words::notification::Notification;
use words::row::Row;

impl Participant {
    // Enters a state, and that is all.
    pub(crate) fn enter(&mut self, next: State) -> Result<usize, Fault<State>>
        ensures transaction { self.new.transaction ≡ self.old.transaction }
        ensures seat { self.new.seat ≡ self.old.seat }
        ensures state { self.new.state ≡ next }
        ensures answer { result ≡ Ok 0 }
    {
        self.state = next;
        Ok(0)
    }

    // Sends a notification and enters a state.
    pub(crate) fn send(
        &mut self,
        kind: Kind,
        next: State,
        outbox: &mut [Row],
    ) -> Result<usize, Fault<State>>
        requires { 1 ≤ length outbox.old }
        ensures transaction { self.new.transaction ≡ self.old.transaction }
        ensures seat { self.new.seat ≡ self.old.seat }
        ensures state { self.new.state ≡ next }
        ensures rows { outbox.new ≡ laid (map row_of (note self.old.transaction self.old.seat.value kind ∷ [])) outbox.old }
        ensures answer { result ≡ Ok 1 }
    {
        outbox[0] = Row::from(Notification {
            transaction: self.transaction,
            seat: self.seat,
            kind,
        });
        self.state = next;
        Ok(1)
    }

    // Adds a record and enters a state, or does neither where the log is full.
    pub(crate) fn add<L: Log>(
        &mut self,
        entry: Entry,
        next: State,
        log: &mut L,
    ) -> Result<usize, Fault<State>>
        ensures { Leaves (adds_record (record_of self.old entry) next self.old.state (log_of L.Log log.old)) self.old self.new (log_of L.Log log.new) result }
    {
        log.add(Record::new(self.transaction, entry))
            .map_err(|full| Fault::LogFull { full, sent: 0 })?;
        self.state = next;
        Ok(0)
    }
}
