ghost use Rattle.std.specs.Prelude.{◌≡◌, MatchResult, replicate};
ghost use Rattle.desks.specs.Worlds.{Opened};
ghost use Rattle.desks.specs.declared.desk.Party.TheVariants.{Nobody};
ghost use Rattle.seats.specs.Sizes.{seat_count};

use super::{Desk, Party};
use coordinator::{Coordinator, OUTBOX_PLACES};
use lines::line::Line;
use logs::log::Log;
use seats::seat::SEATS;
use std::alloc::{AllocError, Global};
use words::row::Row;

impl<C: Log, P: Log + Drop, N: Line> Desk<C, P, N> {
    // A desk at which a transaction was just opened, with nobody at its seats; without memory for them the log and the line come back.
    pub fn open(transaction: u32, log: C, line: N, alloc: Global) -> Result<Desk<C, P, N>, (C, N)>
        ensures { MatchResult result (λ desk. Opened C.Log P.Log N.Line transaction log line desk) (λ back. (back.0 ≡ log) × (back.1 ≡ line)) }
    {
        let Ok(seats) = nobody(alloc) else {
            return Err((log, line));
        };
        let (coordinator, right) = Coordinator::open(transaction);
        Ok(Desk {
            transaction,
            coordinator,
            log,
            right: Some(right),
            seats,
            line,
            given: Vec::new(alloc),
            posted: Vec::new(alloc),
            taken: Vec::new(alloc),
            told: Vec::new(alloc),
        })
    }

    // Ends a desk, and gives back the coordinator's log and the line. A closing right that is still there is spent, and nobody hears of it.
    pub fn close(self) -> (C, N)
        ensures { result ≡ (self.log, self.line) }
    {
        let Desk {
            transaction: _,
            mut coordinator,
            log,
            right,
            seats: _,
            line,
            given: _,
            posted: _,
            taken: _,
            told: _,
        } = self;
        if let Some(right) = right {
            let mut outbox = [Row::BLANK; OUTBOX_PLACES];
            match coordinator.ask_rollback(right, &mut outbox) {
                Ok(_) => {}
                Err(returned) => unreachable(),
            }
        }
        (log, line)
    }
}

// Seats at which nobody sits.
fn nobody<P: Drop>(alloc: Global) -> Result<Vec<Party<P>>, AllocError>
    ensures { MatchResult result (λ seats. seats.items ≡ replicate seat_count Nobody) (λ _. Unit {0}) }
{
    let mut seats = Vec::new(alloc);
    for _ in 0..SEATS {
        seats.push(Party::Nobody)?;
    }
    Ok(seats)
}
