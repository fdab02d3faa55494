ghost use Rattle.std.specs.Prelude.{◌≡◌, ◌++◌, ◌==◌};
ghost use Rattle.std.specs.Option.{option_map};
ghost use Rattle.agreement.specs.CoordinatorRules.{done_if, table_of};
ghost use Rattle.agreement.specs.Logs.{first, is_decision, log_of};
ghost use Rattle.coordinator.specs.Calls.{Wakes, woken};
ghost use Rattle.seats.specs.declared.set.SeatSet.{SeatSet};
ghost use Rattle.records.specs.Recs.{Rec};

use crate::{Coordinator, Durability, PLACES, Place, Standing, State};
use logs::listing::Records;
use logs::log::Log;
use records::record::Entry;
use seats::seat::SEATS;
use seats::set::SeatSet;

impl Coordinator {
    // The power went and came back: restarts the log with the number that the world chose, and takes up what the log says. The old coordinator is gone.
    pub fn restart<L: Log>(self, log: &mut L, n: u32) -> Coordinator
        ensures { Wakes (woken self (L.Log.survives log.old n) (log_of L.Log log.old)) self result (log_of L.Log log.new) }
    {
        log.restart(n);
        match self.decided(log) {
            Some(seats) => Coordinator {
                state: standing_by(seats),
                table: table_of(seats),
                ..self
            },
            None => Coordinator {
                state: State::Rolled,
                table: [None; PLACES],
                ..self
            },
        }
    }

    // The seats of the first Decision for its transaction in a log, if there is one.
    fn decided<L: Log>(&self, log: &L) -> Option<SeatSet>
        ensures { option_map (λ (s : SeatSet). s.bits) result ≡ option_map (λ (r : Rec). r.seats) (first (is_decision self.now.transaction) (L.Log.safe log.now ++ L.Log.loose log.now)) }
    {
        for record in Records::over(log) {
            match record.entry {
                Entry::Decision(seats) if record.transaction == self.transaction => {
                    return Some(seats);
                }
                _ => {}
            }
        }
        None
    }
}

// What a coordinator does that finds a Decision with these seats.
fn standing_by(seats: SeatSet) -> State
    ensures { result ≡ done_if (seats.bits == 0) }
{
    if seats.bits() == 0 {
        State::Done
    } else {
        State::Committing
    }
}

// The table in which each seat of a set is a durable one that voted for the transaction.
fn table_of(seats: SeatSet) -> [Place; PLACES]
    ensures { result ≡ table_of seats.bits }
{
    let mut table = [None; PLACES];
    for number in 0..SEATS {
        if seats.has_number(number) {
            table[usize::from(number)] = Some((Durability::Durable, Standing::Voted));
        }
    }
    table
}
