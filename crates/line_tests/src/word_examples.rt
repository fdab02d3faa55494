// Kinds, rows and faults.
use logs::log::Full;
use seats::seat::Seat;
use std::test::Fail;
use words::fault::Fault;
use words::kind::{Kind, UnknownKind};
use words::notification::Notification;
use words::row::{NoNotification, Row};

// A notification of transaction 7.
pub(crate) fn seven(seat: u8, kind: Kind) -> Result<Notification, Fail> {
    let seat = Seat::new(seat).ok_or_else(|| Fail::new("no such seat"))?;
    Ok(Notification {
        transaction: 7,
        seat,
        kind,
    })
}

// The row of numbers.
fn row(transaction: u32, seat: u8, kind: u8) -> Row {
    Row {
        transaction,
        seat,
        kind,
    }
}

#[test]
fn kinds_by_number_and_name(rt: HostRuntime) -> Result<(), Fail> {
    for number in 1..8u8 {
        let kind = Kind::try_from(number)?;
        assert_eq!(rt; u8::from(kind), number);
        assert_eq!(rt; kind.goes_up(), number >= 4);
        assert_eq!(rt; kind.name().parse(), Ok(kind));
    }
    assert_eq!(rt; Kind::try_from(0), Err(UnknownKind));
    assert_eq!(rt; Kind::try_from(8), Err(UnknownKind));
    assert_eq!(rt; Kind::try_from(255), Err(UnknownKind));
    assert_eq!(rt; "prepare".parse::<Kind>(), Err(UnknownKind));
    assert_eq!(rt; "".parse::<Kind>(), Err(UnknownKind));
    Ok(())
}

#[test]
fn rows_are_read_back_with_a_check(rt: HostRuntime) -> Result<(), Fail> {
    let committed = seven(15, Kind::Committed)?;
    assert_eq!(rt; Row::from(committed), row(7, 15, 7));
    assert_eq!(rt; row(7, 15, 7).try_into(), Ok(committed));
    assert_eq!(rt; row(7, 0, 1).try_into(), Ok(seven(0, Kind::Prepare)?));
    assert_eq!(rt; Notification::try_from(row(7, 16, 7)), Err(NoNotification));
    assert_eq!(rt; Notification::try_from(row(7, 255, 1)), Err(NoNotification));
    assert_eq!(rt; Notification::try_from(row(7, 15, 0)), Err(NoNotification));
    assert_eq!(rt; Notification::try_from(row(7, 15, 8)), Err(NoNotification));
    Ok(())
}

#[test]
fn a_notification_prints_its_parts(rt: HostRuntime) -> Result<(), Fail> {
    let prepared = seven(3, Kind::Prepared)?;
    assert_eq!(rt;
        prepared.to_string(rt.alloc())?.as_str(),
        "transaction 7, seat 3, Prepared"
    );
    Ok(())
}

#[test]
fn names_and_seats_are_filled_up(rt: HostRuntime) -> Result<(), Fail> {
    let Notification { seat, kind, .. } = seven(3, Kind::Commit)?;
    let line = format!(in rt.alloc();
        "[{kind:>8}] [{kind:-<8}] [{kind:.3}] [{seat:>3}] [{seat:03}]"
    )?;
    assert_eq!(rt; line.as_str(), "[  Commit] [Commit--] [Com] [  3] [003]");
    Ok(())
}

#[test]
fn faults_say_what_they_mean(rt: HostRuntime) -> Result<(), Fail> {
    let heap = rt.alloc();
    let seat = seven(3, Kind::Prepare)?.seat;
    let peer = Fault::InvalidPeer {
        seat,
        state: 4u8,
        sent: 2,
    };
    assert_eq!(rt; peer.number(), 8);
    assert_eq!(rt; peer.sent(), 2);
    assert_eq!(rt;
        format!(in heap; "{peer}")?.as_str(),
        "fault 8, Invalid State: a peer said what it cannot say now (seat 3, in 4)"
    );
    let full: Fault<u8> = Fault::LogFull {
        full: Full { capacity: 32 },
        sent: 0,
    };
    assert_eq!(rt; full.number(), 10);
    assert_eq!(rt;
        format!(in heap; "{full}")?.as_str(),
        "fault 10, the log is full (capacity 32)"
    );
    let place: Fault<u8> = Fault::NoPlace { spare: 1, sent: 1 };
    assert_eq!(rt; place.number(), 10);
    assert_eq!(rt; place.sent(), 1);
    let short: Fault<u8> = Fault::ShortOutbox;
    assert_eq!(rt; short.number(), 1);
    assert_eq!(rt; short.sent(), 0);
    assert_eq!(rt;
        format!(in heap; "{short}")?.as_str(),
        "fault 1, the outbox is too short"
    );
    Ok(())
}
