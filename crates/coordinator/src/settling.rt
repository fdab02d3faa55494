ghost use Rattle.std.specs.Prelude.{◌≡◌, ◌≤◌, None, length, slice_index_or};
ghost use Rattle.agreement.specs.CoordinatorRules.{voted_durable, decides, commits};
ghost use Rattle.agreement.specs.Logs.{log_of};
ghost use Rattle.agreement.specs.Turns.{done, reply_of};
ghost use Rattle.coordinator.specs.Calls.{Settles, coord_of, settled};
ghost use Rattle.seats.specs.Sets.{bits_of};
ghost use Rattle.seats.specs.Sizes.{seat_count};

use crate::calls::check_room;
use crate::group::Group;
use crate::table::seat_of;
use crate::{Coordinator, State};
use logs::log::Log;
use records::record::{Entry, Record};
use seats::set::SeatSet;
use words::fault::Fault;
use words::kind::Kind;
use words::row::Row;

impl Coordinator {
    // Decides once it is Ready; and once that is written, secures it and tells the seats.
    pub fn settle<L: Log>(&mut self, log: &mut L, outbox: &mut [Row]) -> Result<usize, Fault<State>>
        ensures { Settles (settled self.old (length outbox.old) (log_of L.Log log.old)) self.old self.new (log_of L.Log log.new) outbox.old outbox.new (reply_of result) }
    {
        check_room(outbox.len())?;
        match self.state {
            State::Ready => self.decide(log, outbox),
            State::Noted => Ok(self.commit(log, outbox)),
            _ => Ok(0),
        }
    }

    // Adds its decision to the log, or rolls back where the log is full.
    fn decide<L: Log>(&mut self, log: &mut L, outbox: &mut [Row]) -> Result<usize, Fault<State>>
        requires { seat_count ≤ length outbox.old }
        ensures { Settles (decides self.old.transaction (coord_of self.old) (log_of L.Log log.old)) self.old self.new (log_of L.Log log.new) outbox.old outbox.new (reply_of result) }
    {
        let entry = Entry::Decision(self.voted_seats());
        match log.add(Record::new(self.transaction, entry)) {
            Ok(()) => {
                self.state = State::Noted;
                Ok(0)
            }
            Err(full) => {
                let sent = self.roll_back(outbox);
                Err(Fault::LogFull { full, sent })
            }
        }
    }

    // Secures its decision, and gives Commit to the seats that voted for it.
    fn commit<L: Log>(&mut self, log: &mut L, outbox: &mut [Row]) -> usize
        requires { seat_count ≤ length outbox.old }
        ensures { Settles (commits self.old.transaction (coord_of self.old) (log_of L.Log log.old)) self.old self.new (log_of L.Log log.new) outbox.old outbox.new (done result) }
    {
        log.secure();
        self.state = if self.has_none(Group::VotedDurable) {
            State::Done
        } else {
            State::Committing
        };
        self.give(Kind::Commit, Group::Voted, outbox)
    }

    // The durable seats that voted for the transaction.
    fn voted_seats(&self) -> SeatSet
        ensures { result.bits ≡ bits_of seat_count (λ s. voted_durable (slice_index_or self.now.table s None)) }
    {
        let mut seats = SeatSet::empty();
        for (number, place) in self.table.iter().enumerate() {
            if Group::VotedDurable.has(*place) {
                seats = seats.with(seat_of(number));
            }
        }
        seats
    }
}
