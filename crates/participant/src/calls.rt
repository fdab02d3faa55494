ghost use Rattle.std.specs.Prelude.{◌≤◌, length};
ghost use Rattle.agreement.specs.Logs.{LogState, log_of};
ghost use Rattle.participant.specs.Calls.{Obeys, voted, voted_for, settled, expired, resent};

use crate::{Ballot, Participant, State, check_room};
use logs::log::Log;
use records::record::Entry;
use words::fault::Fault;
use words::kind::Kind;
use words::row::Row;

// How many places of its log a vote for the step needs: for the Vote, and for its outcome.
const VOTE_PLACES: usize = 2;

// A log and an outbox are lent apart: the host keeps them, and not every call needs both.
impl Participant {
    // Votes, once it was asked to prepare. A vote for the step that finds no place in the log for itself and its outcome is one against it, with fault 10.
    pub fn vote<L: Log>(
        &mut self,
        ballot: Ballot,
        log: &mut L,
        outbox: &mut [Row],
    ) -> Result<usize, Fault<State>>
        ensures { Obeys (voted self.old (length outbox.old) ballot (log_of L.Log log.old)) self.old self.new (log_of L.Log log.new) outbox.old outbox.new result }
    {
        check_room(outbox.len())?;
        if self.state != State::Voting {
            return Err(Fault::InvalidState);
        }
        match ballot {
            Ballot::Prepared => self.vote_for(log, outbox),
            Ballot::ReadOnly => self.send(Kind::ReadOnly, State::Viewed, outbox),
            Ballot::Aborted => self.send(Kind::Aborted, State::Undone, outbox),
        }
    }

    // Votes for the step, if the log has the places that it needs.
    fn vote_for<L: Log>(&mut self, log: &mut L, outbox: &mut [Row]) -> Result<usize, Fault<State>>
        requires { 1 ≤ length outbox.old }
        ensures { Obeys (voted_for self.old (log_of L.Log log.old)) self.old self.new (log_of L.Log log.new) outbox.old outbox.new result }
    {
        let spare = log.spare();
        if spare >= VOTE_PLACES {
            return self.add(Entry::Vote(self.seat), State::Noted, log);
        }
        let _ = self.send(Kind::Aborted, State::Undone, outbox);
        Err(Fault::NoPlace { spare, sent: 1 })
    }

    // Secures what its state has written, and tells the coordinator.
    pub fn settle<L: Log>(&mut self, log: &mut L, outbox: &mut [Row]) -> Result<usize, Fault<State>>
        ensures { Obeys (settled self.old (length outbox.old) (log_of L.Log log.old)) self.old self.new (log_of L.Log log.new) outbox.old outbox.new result }
    {
        check_room(outbox.len())?;
        let (kind, next) = match self.state {
            State::Noted => (Kind::Prepared, State::InDoubt),
            State::Keeping => (Kind::Committed, State::Kept),
            State::Undoing => (Kind::Aborted, State::Undone),
            _ => return Ok(0),
        };
        log.secure();
        self.send(kind, next, outbox)
    }

    // Its time is up: it gives the step up, unless it has voted. No log is touched.
    pub fn expire(&mut self, outbox: &mut [Row]) -> Result<usize, Fault<State>>
        ensures { (l : LogState) → Obeys (expired self.old (length outbox.old) l) self.old self.new l outbox.old outbox.new result }
    {
        check_room(outbox.len())?;
        match self.state {
            State::Working | State::Voting => self.send(Kind::Aborted, State::Undone, outbox),
            _ => Ok(0),
        }
    }

    // Says again that it is prepared, where it waits for the outcome. No log is touched.
    pub fn resend(&mut self, outbox: &mut [Row]) -> Result<usize, Fault<State>>
        ensures { (l : LogState) → Obeys (resent self.old (length outbox.old) l) self.old self.new l outbox.old outbox.new result }
    {
        check_room(outbox.len())?;
        match self.state {
            State::InDoubt => self.send(Kind::Prepared, State::InDoubt, outbox),
            _ => Ok(0),
        }
    }
}
