// The coordinator's calls, one after another. A closing right has to be spent on every path, so these examples expect where others use `?`.
use coordinator::{
    ClosingRight, Coordinator, Durability, OUTBOX_PLACES, Outcome, Registered, Returned, State,
    Told,
};
use journals::journal::Journal;
use logs::log::Log;
use logs::tray::Tray;
use records::codec::RECORD_BYTES;
use records::record::{Entry, Record};
use seats::seat::{SEATS, Seat};
use seats::set::SeatSet;
use std::process::Abort;
use std::test::Fail;
use words::fault::Fault;
use words::kind::Kind;
use words::notification::Notification;
use words::row::Row;

// A row that is no notification's.
const FILL: Row = Row {
    transaction: 1,
    seat: 99,
    kind: 1,
};

const OUTBOX: [Row; OUTBOX_PLACES] = [FILL; OUTBOX_PLACES];

// What transaction 9 says to a seat, or from there.
fn said(rt: &impl Abort, seat: u8, kind: Kind) -> Notification {
    Notification {
        transaction: 9,
        seat: Seat::new(seat).expect(rt, "a seat"),
        kind,
    }
}

// Registers a participant.
fn register(rt: &impl Abort, coordinator: &mut Coordinator, durability: Durability) -> Registered {
    let mut outbox = OUTBOX;
    coordinator
        .register(durability, &mut outbox)
        .expect(rt, "a seat is free")
}

// Asks to commit, and leaves the notifications aside.
fn commit(rt: &impl Abort, coordinator: &mut Coordinator, right: ClosingRight) -> Told {
    let mut outbox = OUTBOX;
    coordinator
        .ask_commit(right, &mut outbox)
        .expect(rt, "its right")
}

// A coordinator of transaction 9 with no seat, that was asked to commit.
fn alone(rt: &impl Abort) -> Coordinator {
    let (mut coordinator, right) = Coordinator::open(9);
    let told = commit(rt, &mut coordinator, right);
    assert_eq!(rt; told.sent, 0);
    assert_eq!(rt; told.outcome, Outcome::Open);
    assert_eq!(rt; coordinator.state(), State::Ready);
    coordinator
}

// With no seat there is no vote to wait for, and nobody to answer Commit. The outcome may be asked twice, and a coordinator may be let go.
#[test]
fn a_coordinator_without_seats(rt: HostRuntime) {
    let mut log = Tray::new();
    let mut outbox = OUTBOX;
    let mut coordinator = alone(&rt);
    for (state, outcome) in [
        (State::Noted, Outcome::Open),
        (State::Done, Outcome::Committed),
    ] {
        let sent = coordinator
            .settle(&mut log, &mut outbox)
            .expect(&rt, "room");
        assert_eq!(rt; sent, 0);
        assert_eq!(rt; coordinator.state(), state);
        assert_eq!(rt; coordinator.outcome(), outcome);
        assert_eq!(rt; coordinator.outcome(), outcome);
    }
    assert_eq!(rt; log.count(), 1);
}

// Its time may be up in Ready, and no more once the Decision is written.
#[test]
fn expiry_is_before_the_decision(rt: HostRuntime) {
    let mut log = Tray::new();
    let mut outbox = OUTBOX;
    let mut ready = alone(&rt);
    assert_eq!(rt; ready.expire(&mut outbox).expect(&rt, "room"), 0);
    assert_eq!(rt; ready.state(), State::Rolled);
    assert_eq!(rt; ready.outcome(), Outcome::Aborted);
    let mut noted = alone(&rt);
    assert_eq!(rt; noted.settle(&mut log, &mut outbox).expect(&rt, "room"), 0);
    assert_eq!(rt; noted.expire(&mut outbox).expect(&rt, "room"), 0);
    assert_eq!(rt; noted.state(), State::Noted);
}

// Participants register while volatile seats vote, and no more once durable ones do.
#[test]
fn registering_ends_with_the_volatile_votes(rt: HostRuntime) {
    let mut outbox = OUTBOX;
    let (mut coordinator, right) = Coordinator::open(9);
    assert_eq!(rt;
        register(&rt, &mut coordinator, Durability::Volatile).sent,
        0
    );
    assert_eq!(rt; commit(&rt, &mut coordinator, right).sent, 1);
    assert_eq!(rt; coordinator.state(), State::VolatileVoting);
    let durable = register(&rt, &mut coordinator, Durability::Durable);
    assert_eq!(rt; (durable.seat.number(), durable.sent), (1, 0));
    let volatile = register(&rt, &mut coordinator, Durability::Volatile);
    assert_eq!(rt; (volatile.seat.number(), volatile.sent), (2, 1));
    for (seat, sent) in [(0, 0), (2, 1)] {
        let vote = said(&rt, seat, Kind::Prepared);
        assert_eq!(rt;
            coordinator.receive(vote, &mut outbox).expect(&rt, "a vote"),
            sent
        );
    }
    assert_eq!(rt; coordinator.state(), State::DurableVoting);
    assert_eq!(rt; outbox[0], Row::from(said(&rt, 1, Kind::Prepare)));
    let late = coordinator.register(Durability::Durable, &mut outbox);
    assert_eq!(rt; late.expect_err(&rt, "late").number(), 3);
}

// Seats are given from 0 to 15. Each of them is told of the roll-back, which fills the outbox.
#[test]
fn sixteen_seats(rt: HostRuntime) {
    let mut outbox = OUTBOX;
    let (mut coordinator, right) = Coordinator::open(9);
    for number in 0..SEATS {
        let registered = register(&rt, &mut coordinator, Durability::Durable);
        assert_eq!(rt; registered.seat.number(), number);
    }
    let more = coordinator.register(Durability::Durable, &mut outbox);
    assert_eq!(rt; more.expect_err(&rt, "one too many").number(), 4);
    let told = coordinator
        .ask_rollback(right, &mut outbox)
        .expect(&rt, "its right");
    assert_eq!(rt; told.sent, 16);
    assert_eq!(rt; told.outcome, Outcome::Aborted);
    assert_eq!(rt; outbox[15], Row::from(said(&rt, 15, Kind::Rollback)));
}

// Whoever says Prepared of a transaction that is rolled back is told so, registered or not; the rest of the outbox is kept.
#[test]
fn a_stranger_is_told_of_the_roll_back(rt: HostRuntime) {
    let mut outbox = OUTBOX;
    let mut coordinator = alone(&rt);
    assert_eq!(rt; coordinator.expire(&mut outbox).expect(&rt, "room"), 0);
    let vote = said(&rt, 9, Kind::Prepared);
    assert_eq!(rt;
        coordinator.receive(vote, &mut outbox).expect(&rt, "a vote"),
        1
    );
    assert_eq!(rt; outbox[0], Row::from(said(&rt, 9, Kind::Rollback)));
    for row in &outbox[1..] {
        assert_eq!(rt; *row, FILL);
    }
}

// A right comes back with fault 1 and fault 2, and is good for its own coordinator afterwards.
#[test]
fn a_refused_right_comes_back(rt: HostRuntime) {
    let mut outbox = OUTBOX;
    let (mut nine, right) = Coordinator::open(9);
    let Returned { right, fault } = nine
        .ask_commit(right, &mut outbox[1..])
        .expect_err(&rt, "too short");
    assert_eq!(rt; fault.number(), 1);
    let (mut other, own) = Coordinator::open(8);
    let Returned { right, fault } = other
        .ask_rollback(right, &mut outbox)
        .expect_err(&rt, "of another");
    assert_eq!(rt; fault.number(), 2);
    assert_eq!(rt; right.transaction(), 9);
    assert_eq!(rt; commit(&rt, &mut nine, right).sent, 0);
    assert_eq!(rt; commit(&rt, &mut other, own).sent, 0);
}

// A Decision that the log refuses rolls back, and fault 10 carries the log's own fault and how many were told.
#[test]
fn a_decision_over_a_full_journal(rt: HostRuntime) -> Result<(), Fail> {
    let bytes = vec![in rt.alloc(); 0; RECORD_BYTES]?;
    let mut log = Journal::create(bytes);
    let _ = log.add(Record::new(8, Entry::Decision(SeatSet::empty())));
    let mut outbox = OUTBOX;
    let (mut coordinator, right) = Coordinator::open(9);
    let durable = register(&rt, &mut coordinator, Durability::Durable);
    assert_eq!(rt; durable.seat.number(), 0);
    assert_eq!(rt; commit(&rt, &mut coordinator, right).sent, 1);
    let vote = said(&rt, 0, Kind::Prepared);
    assert_eq!(rt;
        coordinator.receive(vote, &mut outbox).expect(&rt, "a vote"),
        0
    );
    match coordinator.settle(&mut log, &mut outbox) {
        Err(Fault::LogFull { full, sent }) => {
            assert_eq!(rt; full.capacity, 1);
            assert_eq!(rt; sent, 1);
        }
        _ => return Err(Fail::new("fault 10 was due")),
    }
    assert_eq!(rt; coordinator.state(), State::Rolled);
    assert_eq!(rt; outbox[0], Row::from(said(&rt, 0, Kind::Rollback)));
    Ok(())
}
