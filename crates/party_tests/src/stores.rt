// A store over a pile of logs, and what faults carry.
use journals::journal::Journal;
use logs::gatherer::Gatherer;
use logs::log::{Full, Log};
use logs::tray::Tray;
use participant::{Ballot, Participant, State};
use records::codec::RECORD_BYTES;
use records::record::{Entry, Record};
use seats::seat::Seat;
use seats::set::SeatSet;
use std::process::Abort;
use std::test::Fail;
use words::fault::Fault;
use words::kind::Kind;
use words::notification::Notification;
use words::row::Row;

// An outbox whose rows are no notification's.
const OUTBOX: [Row; 2] = [
    Row {
        transaction: 1,
        seat: 99,
        kind: 1,
    },
    Row {
        transaction: 2,
        seat: 99,
        kind: 2,
    },
];

// A seat whose number is below 16. Each crate of examples has its own: they share no library.
fn seat(number: u8) -> Result<Seat, Fail> {
    Seat::new(number).ok_or_else(|| Fail::new("no such seat"))
}

// What transaction 9 says to seat 3, or from there.
fn said(kind: Kind) -> Result<Notification, Fail> {
    Ok(Notification {
        transaction: 9,
        seat: seat(3)?,
        kind,
    })
}

// A participant that has voted for the step and waits for the outcome.
fn doubting<L: Log>(rt: &impl Abort, log: &mut L) -> Result<Participant, Fail> {
    let mut outbox = OUTBOX;
    let mut store = Participant::join(9, seat(3)?);
    assert_eq!(rt;
        store.receive(said(Kind::Prepare)?, log, &mut outbox),
        Ok(0)
    );
    assert_eq!(rt; store.vote(Ballot::Prepared, log, &mut outbox), Ok(0));
    assert_eq!(rt; store.settle(log, &mut outbox), Ok(1));
    assert_eq!(rt; store.state(), State::InDoubt);
    Ok(store)
}

// One notification goes to the front of the outbox, and the rest is kept.
#[test]
fn the_rest_of_the_outbox_is_kept(rt: HostRuntime) -> Result<(), Fail> {
    let mut log = Tray::new();
    let mut store = doubting(&rt, &mut log)?;
    let mut outbox = OUTBOX;
    assert_eq!(rt; store.resend(&mut outbox), Ok(1));
    assert_eq!(rt; outbox[0], Row::from(said(Kind::Prepared)?));
    assert_eq!(rt; outbox[1], OUTBOX[1]);
    Ok(())
}

// Over a gatherer over a journal of two records: what is held back is lost in a cut, what is secured is not.
#[test]
fn a_pile_of_logs_is_a_log(rt: HostRuntime) -> Result<(), Fail> {
    let bytes = vec![in rt.alloc(); 0; 2 * RECORD_BYTES]?;
    let mut log = Gatherer::over(Journal::create(bytes));
    let mut outbox = OUTBOX;
    let mut store = doubting(&rt, &mut log)?;
    assert_eq!(rt;
        store.receive(said(Kind::Commit)?, &mut log, &mut outbox),
        Ok(0)
    );
    assert_eq!(rt; store.state(), State::Keeping);
    let mut store = store.restart(&mut log, u32::MAX);
    assert_eq!(rt; store.state(), State::InDoubt);
    assert_eq!(rt;
        store.receive(said(Kind::Commit)?, &mut log, &mut outbox),
        Ok(0)
    );
    assert_eq!(rt; store.settle(&mut log, &mut outbox), Ok(1));
    let store = store.restart(&mut log, 0);
    assert_eq!(rt; store.state(), State::Kept);
    assert_eq!(rt; log.count(), 2);
    Ok(())
}

// In a journal a record counts once its 22 bytes had reached the disk.
#[test]
fn a_cut_inside_a_record(rt: HostRuntime) -> Result<(), Fail> {
    for (reached, wanted) in [(21, State::InDoubt), (22, State::Undone)] {
        let bytes = vec![in rt.alloc(); 0; 2 * RECORD_BYTES]?;
        let mut log = Journal::create(bytes);
        let mut outbox = OUTBOX;
        let mut store = doubting(&rt, &mut log)?;
        assert_eq!(rt;
            store.receive(said(Kind::Rollback)?, &mut log, &mut outbox),
            Ok(0)
        );
        let store = store.restart(&mut log, reached);
        assert_eq!(rt; store.state(), wanted);
    }
    Ok(())
}

// Fault 8 names the seat and the state before the call.
#[test]
fn a_peer_is_named(rt: HostRuntime) -> Result<(), Fail> {
    let mut log = Tray::new();
    let mut outbox = OUTBOX;
    let mut store = Participant::join(9, seat(3)?);
    assert_eq!(rt;
        store.receive(said(Kind::Commit)?, &mut log, &mut outbox),
        Err(Fault::InvalidPeer {
            seat: seat(3)?,
            state: State::Working,
            sent: 0,
        })
    );
    Ok(())
}

// Fault 10 carries the log's own fault whole, and at a vote the spare count.
#[test]
fn a_full_log_is_told(rt: HostRuntime) -> Result<(), Fail> {
    let mut log = Tray::new();
    let mut outbox = OUTBOX;
    let mut store = doubting(&rt, &mut log)?;
    for _ in 0..31 {
        let _ = log.add(Record::new(8, Entry::Decision(SeatSet::empty())));
    }
    assert_eq!(rt;
        store.receive(said(Kind::Commit)?, &mut log, &mut outbox),
        Err(Fault::LogFull {
            full: Full { capacity: 32 },
            sent: 0,
        })
    );
    assert_eq!(rt; store.state(), State::InDoubt);
    let mut late = Participant::join(9, seat(3)?);
    assert_eq!(rt;
        late.receive(said(Kind::Prepare)?, &mut log, &mut outbox),
        Ok(0)
    );
    assert_eq!(rt;
        late.vote(Ballot::Prepared, &mut log, &mut outbox),
        Err(Fault::NoPlace { spare: 0, sent: 1 })
    );
    assert_eq!(rt; late.state(), State::Undone);
    assert_eq!(rt; outbox[0], Row::from(said(Kind::Aborted)?));
    Ok(())
}
