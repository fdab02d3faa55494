ghost use Rattle.choices.specs.Eithers.{atmost_by, capacity_by, loose_by, safe_by, survives_by, within_by};

use logs::log::{Full, Log};
use records::record::Record;

// A log of either kind. More kinds are told apart by an `Either` of an `Either`.
#[derive(Drop)]
pub enum Either<A, B> {
    First(A),
    Second(B),
}

// It is the log that was chosen.
impl<A: Log, B: Log> Log for Either<A, B> {
    ghost safe = { safe_by A.Log B.Log };

    ghost loose = { loose_by A.Log B.Log };

    ghost capacity = { capacity_by A.Log B.Log };

    ghost survives = { survives_by A.Log B.Log };

    ghost within = { within_by A.Log B.Log };

    ghost atmost = { atmost_by A.Log B.Log };

    fn add(&mut self, record: Record) -> Result<(), Full> {
        match self {
            Either::First(log) => log.add(record),
            Either::Second(log) => log.add(record),
        }
    }

    fn secure(&mut self) {
        match self {
            Either::First(log) => log.secure(),
            Either::Second(log) => log.secure(),
        }
    }

    fn read(&self, i: usize) -> Option<Record> {
        match self {
            Either::First(log) => log.read(i),
            Either::Second(log) => log.read(i),
        }
    }

    fn count(&self) -> usize {
        match self {
            Either::First(log) => log.count(),
            Either::Second(log) => log.count(),
        }
    }

    fn secured(&self) -> usize {
        match self {
            Either::First(log) => log.secured(),
            Either::Second(log) => log.secured(),
        }
    }

    fn capacity(&self) -> usize {
        match self {
            Either::First(log) => log.capacity(),
            Either::Second(log) => log.capacity(),
        }
    }

    fn restart(&mut self, n: u32) {
        match self {
            Either::First(log) => log.restart(n),
            Either::Second(log) => log.restart(n),
        }
    }
}
