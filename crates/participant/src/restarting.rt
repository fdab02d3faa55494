ghost use Rattle.std.specs.Prelude.{◌≡◌, ◌++◌, Ok};
ghost use Rattle.agreement.specs.Logs.{log_of};
ghost use Rattle.agreement.specs.ParticipantRules.{found};
ghost use Rattle.participant.specs.Calls.{Leaves, woken};
ghost use Rattle.participant.specs.Signs.{sign_of};
ghost use Rattle.records.specs.Recs.{model_of};

use crate::{Participant, State};
use logs::listing::Records;
use logs::log::Log;
use records::record::{Entry, Record};
use seats::set::SeatSet;

// What a record of its own says of a participant.
#[derive(Clone, Copy)]
enum Sign {
    // It voted for the step.
    Vote,
    // It kept the step.
    Kept,
    // It undid the step.
    Undone,
}

impl Participant {
    // The power went and came back: restarts the log with the number that the world chose, and takes up what the log says. The old participant is gone.
    pub fn restart<L: Log>(self, log: &mut L, n: u32) -> Participant
        ensures { Leaves (woken self (L.Log.survives log.old n) (log_of L.Log log.old)) self result (log_of L.Log log.new) (Ok 0) }
    {
        log.restart(n);
        let state = self.find(log);
        Participant { state, ..self }
    }

    // The state that the records of a log give: by the first Kept or Undone, else by a Vote.
    fn find<L: Log>(&self, log: &L) -> State
        ensures { result ≡ found self.now.transaction self.now.seat.value (L.Log.safe log.now ++ L.Log.loose log.now) }
    {
        let mut voted = false;
        for record in Records::over(log) {
            match self.sign(record) {
                Some(Sign::Kept) => return State::Kept,
                Some(Sign::Undone) => return State::Undone,
                Some(Sign::Vote) => voted = true,
                None => {}
            }
        }
        if voted {
            State::InDoubt
        } else {
            State::Unknown
        }
    }

    // What a record says of it, or none where the record is another party's.
    fn sign(&self, record: Record) -> Option<Sign>
        ensures { result ≡ sign_of self.now.transaction self.now.seat.value (model_of «record») }
    {
        let own = SeatSet::only(self.seat);
        if record.transaction != self.transaction || record.entry.seats() != own {
            return None;
        }
        match record.entry {
            Entry::Decision(_) => None,
            Entry::Vote(_) => Some(Sign::Vote),
            Entry::Kept(_) => Some(Sign::Kept),
            Entry::Undone(_) => Some(Sign::Undone),
        }
    }
}
