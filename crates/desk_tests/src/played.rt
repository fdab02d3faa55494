// Lists of moves, played over several logs and lines.
use agreement::coordinator::{Durability, Outcome, State};
use agreement::participant;
use agreement::participant::Ballot;
use boards::board::Board;
use journals::journal::Journal;
use lines::line::Line;
use lines::queue::Queue;
use logs::gatherer::Gatherer;
use logs::log::Log;
use logs::tray::Tray;
use records::codec::RECORD_BYTES;
use records::record::{Entry, Record};
use rehearsals::moves::{Call, Move};
use rehearsals::rehearsal::{Rehearsal, Unfinished, rehearse};
use rehearsals::trace::Event;
use seats::seat::Seat;
use std::alloc::Global;
use std::process::Abort;
use std::test::Fail;
use words::row::Row;

const TRANSACTION: u32 = 7;

// The moves by which one store votes for the step, up to the decision that is written and not yet secured.
const DECIDING: usize = 12;

// Those by which it is secured, and the store keeps the step.
const KEEPING: usize = 9;

fn seat(rt: &impl Abort) -> Seat {
    Seat::new(0).expect(rt, "a seat")
}

fn deciding(store: Seat) -> [Move; DECIDING] {
    [
        Move::Register(Durability::Durable),
        Move::Join(store),
        // Prepare is given, as notification 0
        Move::AskCommit,
        Move::Post(0),
        Move::Take,
        Move::Participant(store, Call::Receive(0)),
        Move::Vote(store, Ballot::Prepared),
        // Prepared, 1
        Move::Participant(store, Call::Settle),
        Move::Post(1),
        Move::Take,
        Move::Coordinator(Call::Receive(1)),
        Move::Coordinator(Call::Settle),
    ]
}

fn keeping(store: Seat) -> [Move; KEEPING] {
    [
        // Commit, 2
        Move::Coordinator(Call::Settle),
        Move::Post(2),
        Move::Take,
        Move::Participant(store, Call::Receive(2)),
        // Committed, 3
        Move::Participant(store, Call::Settle),
        Move::Post(3),
        Move::Take,
        Move::Coordinator(Call::Receive(3)),
        Move::AskOutcome,
    ]
}

// A rehearsal of these moves with one store over a tray.
fn played<C: Log + Drop, N: Line + Drop>(
    rt: &impl Abort,
    alloc: Global,
    log: C,
    line: N,
    moves: &[Move],
) -> Rehearsal<C, Tray, N> {
    let mut logs = Vec::new(alloc);
    logs.push(Tray::new()).expect(rt, "memory");
    match rehearse(TRANSACTION, log, line, logs, moves, alloc) {
        Ok(rehearsal) => rehearsal,
        Err(Unfinished::NotOpened(_, _, _)) => rt.abort(),
        Err(Unfinished::Halted(rehearsal, _)) => {
            rehearsal.close();
            rt.abort()
        }
    }
}

// The store keeps the step, and the initiator is told so.
fn keeps<C: Log + Drop, N: Line + Drop>(rt: &impl Abort, alloc: Global, log: C, line: N) {
    let store = seat(rt);
    let mut rehearsal = played(rt, alloc, log, line, &deciding(store));
    assert!(rt; rehearsal.play(&keeping(store)).is_ok());
    let desk = rehearsal.desk();
    assert_eq!(rt; desk.state(), State::Done);
    assert_eq!(rt; desk.state_at(store), Some(participant::State::Kept));
    assert_eq!(rt; desk.told(), [Outcome::Open, Outcome::Committed].as_slice());
    assert_eq!(rt; desk.posted().len(), 4);
    assert_eq!(rt; desk.taken().len(), 4);
    assert_eq!(rt; desk.log().secured(), 1);
    assert_eq!(rt; rehearsal.trace().len(), DECIDING + KEEPING);
    assert_eq!(rt; rehearsal.ready(), 0);
    let (log, _) = rehearsal.close();
    assert_eq!(rt; log.count(), 1);
}

// A gatherer over a journal with room for two records.
fn gathered(alloc: Global) -> Result<Gatherer<Journal>, Fail> {
    Ok(Gatherer::over(Journal::create(vec![in alloc; 0; 2 * RECORD_BYTES]?)))
}

#[test]
fn a_store_keeps_the_step_over_every_line(rt: HostRuntime) -> Result<(), Fail> {
    let mut rows = [Row::BLANK; 4];
    keeps(
        &rt,
        rt.alloc(),
        gathered(rt.alloc())?,
        Queue::new(&mut rows),
    );
    keeps(&rt, rt.alloc(), gathered(rt.alloc())?, Board::new());
    keeps(&rt, rt.alloc(), Tray::new(), Board::new());
    Ok(())
}

// Whether the power takes the decision or leaves it, what is decided is by the log.
#[test]
fn a_cut_before_the_decision_is_secured(rt: HostRuntime) {
    for (left, state, records) in [(0, State::Rolled, 0), (1, State::Committing, 1)] {
        let mut rows = [Row::BLANK; 4];
        let line = Queue::new(&mut rows);
        let mut rehearsal = played(&rt, rt.alloc(), Tray::new(), line, &deciding(seat(&rt)));
        assert!(rt;
            rehearsal
                .play_one(Move::Coordinator(Call::Restart(left)))
                .is_ok()
        );
        assert_eq!(rt; rehearsal.desk().state(), state);
        let (log, _) = rehearsal.close();
        assert_eq!(rt; log.count(), records);
    }
}

// A store whose log has a record of the transaction does not join, and the log stays.
#[test]
fn a_log_with_a_record_of_the_transaction_joins_nobody(rt: HostRuntime) -> Result<(), Fail> {
    let store = seat(&rt);
    let mut log = Tray::new();
    let _ = log.add(Record::new(TRANSACTION, Entry::Vote(store)));
    let mut logs = Vec::new(rt.alloc());
    logs.push(log)?;
    let moves = [Move::Register(Durability::Durable), Move::Join(store)];
    let opened = rehearse(
        TRANSACTION,
        Tray::new(),
        Board::new(),
        logs,
        &moves,
        rt.alloc(),
    );
    match opened {
        Ok(rehearsal) => {
            let last = rehearsal.trace().last().map(|entry| entry.event);
            assert_eq!(rt; last, Some(Event::Impossible));
            assert_eq!(rt; rehearsal.ready(), 1);
            assert_eq!(rt; rehearsal.desk().state_at(store), None);
            rehearsal.close();
        }
        Err(Unfinished::NotOpened(_, _, _)) => rt.abort(),
        Err(Unfinished::Halted(rehearsal, _)) => {
            rehearsal.close();
            rt.abort()
        }
    }
    Ok(())
}
