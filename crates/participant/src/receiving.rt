ghost use Rattle.std.specs.Prelude.{length};
ghost use Rattle.agreement.specs.Logs.{log_of};
ghost use Rattle.participant.specs.Calls.{Obeys, admits, received};
ghost use Rattle.words.specs.Notes.{note_of};

use crate::{Participant, State, check_room};
use agreement::participant::State::{
    InDoubt, Keeping, Kept, Noted, Undoing, Undone, Unknown, Viewed, Voting, Working,
};
use logs::log::Log;
use records::record::Entry;
use words::fault::Fault;
use words::kind::Kind::{Aborted, Commit, Committed, Prepare, Prepared, ReadOnly, Rollback};
use words::notification::Notification;
use words::row::Row;

impl Participant {
    // Receives a notification, and does what stands in the cell of its state and the kind.
    pub fn receive<L: Log>(
        &mut self,
        notification: Notification,
        log: &mut L,
        outbox: &mut [Row],
    ) -> Result<usize, Fault<State>>
        ensures { Obeys (received self.old (length outbox.old) (note_of notification) (log_of L.Log log.old)) self.old self.new (log_of L.Log log.new) outbox.old outbox.new result }
    {
        self.admit(notification, outbox.len())?;
        let (state, seat) = (self.state, self.seat);
        match (state, notification.kind) {
            (Working, Prepare) => self.enter(Voting),
            (Working | Voting | Noted, Commit) => Err(Fault::InvalidPeer {
                seat,
                state,
                sent: 0,
            }),
            (Working | Voting, Rollback) => self.send(Aborted, Undone, outbox),
            (Noted | InDoubt, Rollback) => self.add(Entry::Undone(seat), Undoing, log),
            (InDoubt, Prepare) => self.send(Prepared, InDoubt, outbox),
            (InDoubt, Commit) => self.add(Entry::Kept(seat), Keeping, log),
            (Keeping | Kept, Rollback) => Err(Fault::Inconsistent),
            (Undoing | Undone, Commit) => Err(Fault::Inconsistent),
            (Kept | Viewed | Unknown, Commit) => self.send(Committed, state, outbox),
            (Viewed, Prepare) => self.send(ReadOnly, Viewed, outbox),
            (Undone | Unknown, Prepare) => self.send(Aborted, state, outbox),
            (Undone | Viewed | Unknown, Rollback) => self.send(Aborted, state, outbox),
            (Voting | Noted | Keeping | Undoing | Kept, Prepare) => Ok(0),
            (Keeping, Commit) | (Undoing, Rollback) => Ok(0),
            (_, Prepared | ReadOnly | Aborted | Committed) => Err(Fault::Misdirected),
        }
    }

    // The checks of a notification, in the order of their faults.
    fn admit(&self, notification: Notification, places: usize) -> Result<(), Fault<State>>
        ensures { admits self.now places (note_of notification) result }
    {
        check_room(places)?;
        if notification.transaction != self.transaction {
            return Err(Fault::OtherTransaction);
        }
        if notification.seat != self.seat {
            return Err(Fault::Misdirected);
        }
        Ok(())
    }
}
