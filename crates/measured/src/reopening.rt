// Restarts over logs with records of other transactions.
use crate::closing::Opened;
use crate::coding::varied;
use crate::store::Store;
use agreement::coordinator::State;
use coordinator::Coordinator;
use journals::journal::Journal;
use logs::log::Log;
use logs::tray::Tray;
use participant::Participant;
use records::codec::RECORD_BYTES;
use seats::seat::Seat;
use std::alloc::{AllocError, Global};

// The transaction of the party: the records are of those below it.
const TRANSACTION: u32 = u32::MAX;

// A journal with room for so many records.
pub(crate) fn journal_of(alloc: Global, places: u32) -> Result<Journal, AllocError> {
    let bytes = vec![in alloc; 0u8; (places as usize).wrapping_mul(RECORD_BYTES)]?;
    Ok(Journal::create(bytes))
}

// Adds so many records of other transactions, of the kinds in turn, and secures them.
pub(crate) fn fill<L: Log>(log: &mut L, held: u32) {
    for i in 0..held {
        let _ = log.add(varied((i % 4 + 1) as u8, i));
    }
    log.secure();
}

fn restart_participant<L: Log + Drop>(mut log: L, held: u32, rounds: u32) -> u64 {
    fill(&mut log, held);
    let Some(seat) = Seat::new(3) else {
        return 0;
    };
    let mut store = Store {
        participant: Participant::join(TRANSACTION, seat),
        log,
    };
    let mut sum = 0u64;
    for n in 0..rounds {
        store.cut(n);
        let state = u64::from(u8::from(store.participant.state()));
        sum = sum.wrapping_mul(31).wrapping_add(state);
    }
    sum
}

fn restart_coordinator<L: Log + Drop>(mut log: L, held: u32, rounds: u32) -> u64 {
    fill(&mut log, held);
    let mut coordinator = Opened::new(TRANSACTION).end();
    let mut sum = 0u64;
    for n in 0..rounds {
        coordinator = coordinator.restart(&mut log, n);
        let state = u64::from(u8::from(coordinator.state()));
        sum = sum.wrapping_mul(31).wrapping_add(state);
    }
    sum
}

// Restarts a participant so many times over a tray that holds so many records of other transactions. Answers a sum over its states.
#[unsafe(no_mangle)]
pub extern "C" fn measured_participant_restarts(held: u32, rounds: u32) -> u64 {
    restart_participant(Tray::new(), held, rounds)
}

// The same over a journal.
#[unsafe(no_mangle)]
pub extern "C" fn measured_participant_restarts_journal(
    alloc: Global,
    held: u32,
    rounds: u32,
) -> u64 {
    match journal_of(alloc, held) {
        Ok(journal) => restart_participant(journal, held, rounds),
        Err(_) => 0,
    }
}

// Restarts a coordinator likewise over a tray.
#[unsafe(no_mangle)]
pub extern "C" fn measured_coordinator_restarts(held: u32, rounds: u32) -> u64 {
    restart_coordinator(Tray::new(), held, rounds)
}

// The same over a journal.
#[unsafe(no_mangle)]
pub extern "C" fn measured_coordinator_restarts_journal(
    alloc: Global,
    held: u32,
    rounds: u32,
) -> u64 {
    match journal_of(alloc, held) {
        Ok(journal) => restart_coordinator(journal, held, rounds),
        Err(_) => 0,
    }
}
