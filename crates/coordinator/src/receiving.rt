ghost use Rattle.std.specs.Prelude.{◌≡◌, ◌≤◌, length};
ghost use Rattle.agreement.specs.CoordinatorRules.{verdict, judge, hear, hear_noted, hear_rolled, hear_decided};
ghost use Rattle.agreement.specs.Turns.{reply_of, report_of, invalid_peer};
ghost use Rattle.coordinator.specs.Calls.{Obeys, coord_of, admits, received};
ghost use Rattle.coordinator.specs.Verdicts.{verdict_of};
ghost use Rattle.seats.specs.Sizes.{seat_count};
ghost use Rattle.words.specs.Notes.{note_of};

use crate::calls::check_room;
use crate::group::Group;
use crate::{Coordinator, Durability, Standing, State};
use agreement::coordinator::Standing::{Asked, Gone, Heard, Idle, Voted};
use agreement::coordinator::State::{Committing, Done, Noted, Rolled};
use seats::seat::Seat;
use words::fault::Fault;
use words::kind::Kind::{self, Aborted, Commit, Committed, Prepare, Prepared, ReadOnly, Rollback};
use words::notification::Notification;
use words::row::Row;

// The verdict on a notification, while votes are gathered.
#[derive(Clone, Copy)]
enum Verdict {
    // Nothing of the seat changes, and the coordinator advances.
    Ignored,
    // The seat stands so, and the coordinator advances.
    Stands(Standing),
    // The seat is Gone, and the coordinator rolls back.
    Withdraws,
    // It is fault 8, and the coordinator rolls back.
    Breaks,
}

// The verdict on a kind, from a seat that stands so.
fn verdict_on(kind: Kind, standing: Standing) -> Verdict
    ensures { verdict_of result ≡ verdict kind standing }
{
    match (standing, kind) {
        (Idle, Prepared) => Verdict::Breaks,
        (Asked, Prepared) => Verdict::Stands(Voted),
        (Voted, Prepared) => Verdict::Ignored,
        (Idle | Asked, ReadOnly) => Verdict::Stands(Gone),
        (Idle | Asked, Aborted) => Verdict::Withdraws,
        (Voted, ReadOnly | Aborted) => Verdict::Breaks,
        (Idle | Asked | Voted, Committed) => Verdict::Breaks,
        (Gone | Heard, _) | (_, Prepare | Commit | Rollback) => Verdict::Ignored,
    }
}

impl Coordinator {
    // Receives a notification.
    pub fn receive(
        &mut self,
        notification: Notification,
        outbox: &mut [Row],
    ) -> Result<usize, Fault<State>>
        ensures { Obeys (received self.old (length outbox.old) (note_of notification)) self.old self.new outbox.old outbox.new (reply_of result) }
    {
        self.admit(notification, outbox.len())?;
        self.hear(notification.seat, notification.kind, outbox)
    }

    // The checks of a notification, in the order of their faults.
    fn admit(&self, notification: Notification, places: usize) -> Result<(), Fault<State>>
        ensures { admits self.now places (note_of notification) result }
    {
        check_room(places)?;
        if notification.transaction != self.transaction {
            return Err(Fault::OtherTransaction);
        }
        if !notification.kind.goes_up() {
            return Err(Fault::Misdirected);
        }
        Ok(())
    }

    // Hears a seat, by its state and by how the seat stands.
    fn hear(&mut self, seat: Seat, kind: Kind, outbox: &mut [Row]) -> Result<usize, Fault<State>>
        requires { seat_count ≤ length outbox.old }
        ensures { Obeys (hear self.old.transaction seat.value kind (coord_of self.old)) self.old self.new outbox.old outbox.new (reply_of result) }
    {
        if self.state == Rolled {
            return self.hear_rolled(seat, kind, outbox);
        }
        let (durability, standing) = self.place(seat).ok_or(Fault::UnknownTransaction)?;
        if standing == Gone {
            return Ok(0);
        }
        match self.state {
            Noted => self.hear_noted(seat, kind),
            Committing | Done => self.hear_decided(seat, kind, durability, standing, outbox),
            // the four in which votes are gathered: Rolled is dealt with above
            _ => self.judge(seat, durability, verdict_on(kind, standing), outbox),
        }
    }

    // Votes are gathered: does what the verdict says.
    fn judge(
        &mut self,
        seat: Seat,
        durability: Durability,
        verdict: Verdict,
        outbox: &mut [Row],
    ) -> Result<usize, Fault<State>>
        requires { seat_count ≤ length outbox.old }
        ensures { Obeys (judge self.old.transaction seat.value durability (verdict_of verdict) (coord_of self.old)) self.old self.new outbox.old outbox.new (reply_of result) }
    {
        match verdict {
            Verdict::Ignored => Ok(self.advance(outbox)),
            Verdict::Stands(standing) => {
                self.set_place(seat, durability, standing);
                Ok(self.advance(outbox))
            }
            Verdict::Withdraws => {
                self.set_place(seat, durability, Gone);
                Ok(self.roll_back(outbox))
            }
            Verdict::Breaks => {
                let state = self.state;
                let sent = self.roll_back(outbox);
                Err(Fault::InvalidPeer { seat, state, sent })
            }
        }
    }

    // The decision is written, and not yet safe.
    fn hear_noted(&self, seat: Seat, kind: Kind) -> Result<usize, Fault<State>>
        ensures { reply_of result ≡ (hear_noted seat.value kind (coord_of self.now)).reply }
    {
        match kind {
            Kind::ReadOnly | Kind::Aborted | Committed => Err(self.invalid_peer(seat)),
            _ => Ok(0),
        }
    }

    // The transaction is committed: says so again, or hears who is done.
    fn hear_decided(
        &mut self,
        seat: Seat,
        kind: Kind,
        durability: Durability,
        standing: Standing,
        outbox: &mut [Row],
    ) -> Result<usize, Fault<State>>
        requires { seat_count ≤ length outbox.old }
        ensures { Obeys (hear_decided self.old.transaction seat.value kind durability standing (coord_of self.old)) self.old self.new outbox.old outbox.new (reply_of result) }
    {
        match (kind, durability, standing) {
            (Prepared, _, _) => Ok(self.tell(seat, Commit, outbox)),
            (ReadOnly | Aborted, _, _) => Err(self.invalid_peer(seat)),
            (Committed, Durability::Durable, Voted) => {
                self.set_place(seat, durability, Heard);
                if self.has_none(Group::VotedDurable) {
                    self.state = Done;
                }
                Ok(0)
            }
            _ => Ok(0),
        }
    }

    // The transaction is rolled back: says so to who has voted for it.
    fn hear_rolled(&self, seat: Seat, kind: Kind, outbox: &mut [Row]) -> Result<usize, Fault<State>>
        requires { seat_count ≤ length outbox.old }
        ensures { Obeys (hear_rolled self.now.transaction seat.value kind (coord_of self.now)) self.now self.now outbox.old outbox.new (reply_of result) }
    {
        match kind {
            Prepared => Ok(self.tell(seat, Rollback, outbox)),
            Committed => Err(self.invalid_peer(seat)),
            _ => Ok(0),
        }
    }

    // Fault 8 of a call that changes nothing.
    fn invalid_peer(&self, seat: Seat) -> Fault<State>
        ensures { report_of result ≡ invalid_peer seat.value self.now.state 0 }
    {
        Fault::InvalidPeer {
            seat,
            state: self.state,
            sent: 0,
        }
    }
}
