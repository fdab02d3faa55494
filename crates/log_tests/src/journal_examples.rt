// Journals and trays: capacities, refusals and what a restart keeps.
use crate::bytes::{decided, seat};
use journals::journal::Journal;
use logs::listing::Records;
use logs::log::{Full, Log};
use logs::tray::Tray;
use records::codec::RECORD_BYTES;
use records::record::{Entry, Record};
use std::alloc::Global;
use std::process::Abort;
use std::test::Fail;

// A vote of the seat for a transaction.
pub(crate) fn vote(transaction: u32) -> Result<Record, Fail> {
    Ok(Record::new(transaction, Entry::Vote(seat(3)?)))
}

// A journal over so many bytes of 0xee.
pub(crate) fn journal(heap: Global, bytes: usize) -> Result<Journal, Fail> {
    Ok(Journal::create(vec![in heap; 0xee; bytes]?))
}

// Adds votes for the transactions from 0 on to a log, as many as there are asked for.
pub(crate) fn fill<L: Log>(log: &mut L, count: u32) -> Result<(), Fail> {
    for t in 0..count {
        let _ = log.add(vote(t)?);
    }
    Ok(())
}

// Whether a log holds the votes for the transactions from 0 on, so many and no more.
pub(crate) fn holds<L: Log>(rt: &impl Abort, log: &L, count: u32) -> Result<(), Fail> {
    assert_eq!(rt; log.count(), count as usize);
    for t in 0..count {
        assert_eq!(rt; log.read(t as usize), Some(vote(t)?));
    }
    assert!(rt; log.read(count as usize).is_none());
    Ok(())
}

#[test]
fn capacities_round_down(rt: HostRuntime) -> Result<(), Fail> {
    for (bytes, capacity) in [(0, 0), (21, 0), (22, 1), (43, 1), (44, 2)] {
        let empty = journal(rt.alloc(), bytes)?;
        assert_eq!(rt; empty.capacity(), capacity);
        assert_eq!(rt; empty.spare(), capacity);
        assert_eq!(rt; empty.count(), 0);
        assert!(rt; empty.read(0).is_none());
    }
    Ok(())
}

#[test]
fn a_full_journal_refuses(rt: HostRuntime) -> Result<(), Fail> {
    let mut none = journal(rt.alloc(), 21)?;
    assert_eq!(rt; none.add(vote(0)?), Err(Full { capacity: 0 }));
    let mut one = journal(rt.alloc(), 43)?;
    assert_eq!(rt; one.add(vote(0)?), Ok(()));
    assert_eq!(rt; one.add(vote(1)?), Err(Full { capacity: 1 }));
    holds(&rt, &one, 1)
}

#[test]
fn adding_writes_its_record_and_no_other_byte(rt: HostRuntime) -> Result<(), Fail> {
    let mut two = journal(rt.alloc(), 50)?;
    fill(&mut two, 1)?;
    let bytes = two.into_bytes();
    assert!(rt; bytes.len() == 50);
    assert!(rt;
        bytes.as_slice().starts_with(&[
            0, 0, 0, 0, 2, 1, 3, 1, 0, 0, 0, 0, 0, 0, 0, 0, 0, 0, 0, 0, 0, 0, 0xee, 0xee,
        ],)
    );
    assert!(rt; bytes.as_slice().ends_with(&[0xee; 28]));
    Ok(())
}

#[test]
fn opening_checks_each_record(rt: HostRuntime) -> Result<(), Fail> {
    let mut bytes = vec![in rt.alloc(); 0; 44]?;
    assert!(rt; bytes.len() == 44);
    bytes[0..RECORD_BYTES].copy_from_slice(&decided());
    let opened = Journal::open(bytes, 1).map_err(Fail::new)?;
    assert_eq!(rt; opened.count(), 1);
    assert_eq!(rt; opened.spare(), 1);
    let Err(refusal) = Journal::open(opened.into_bytes(), 2) else {
        return Err(Fail::new("the second record is malformed"));
    };
    assert_eq!(rt; refusal.record, 1);
    assert!(rt; refusal.bytes.as_slice().starts_with(&decided()));
    assert_eq!(rt; refusal.bytes.len(), 44);
    Ok(())
}

#[test]
fn a_count_past_the_buffer_is_refused(rt: HostRuntime) -> Result<(), Fail> {
    let mut bytes = vec![in rt.alloc(); 0; 43]?;
    assert!(rt; bytes.len() == 43);
    bytes[0..RECORD_BYTES].copy_from_slice(&decided());
    let Err(refusal) = Journal::open(bytes, usize::MAX) else {
        return Err(Fail::new("so many records do not fit"));
    };
    assert_eq!(rt; refusal.record, 1);
    Ok(())
}

#[test]
fn refusals_say_what_is_wrong(rt: HostRuntime) -> Result<(), Fail> {
    let full = Full { capacity: 32 };
    assert_eq!(rt; full.number(), 10);
    let said = full.to_string(rt.alloc())?;
    assert!(rt; said.as_str() == "the log is full: its capacity is 32");
    for (length, outside, text) in [
        (22, false, "record 0 is malformed"),
        (21, true, "record 0 leaves the buffer"),
    ] {
        let Err(refusal) = Journal::open(vec![in rt.alloc(); 0; length]?, 1) else {
            return Err(Fail::new("kind 0, or no record"));
        };
        assert_eq!(rt; refusal.number(), 11);
        assert_eq!(rt; refusal.is_outside(), outside);
        let said = refusal.to_string(rt.alloc())?;
        assert!(rt; said.as_str() == text);
    }
    Ok(())
}

#[test]
fn the_records_of_a_log_come_in_order(rt: HostRuntime) -> Result<(), Fail> {
    let mut tray = Tray::new();
    fill(&mut tray, 2)?;
    tray.secure();
    let _ = tray.add(vote(2)?);
    let mut records = Records::over(&tray);
    for t in 0..3 {
        assert_eq!(rt; records.next(), Some(vote(t)?));
    }
    assert!(rt; records.next().is_none());
    assert!(rt; records.next().is_none());
    Ok(())
}

#[test]
fn a_journal_keeps_what_reached_the_disk(rt: HostRuntime) -> Result<(), Fail> {
    for (n, kept) in [
        (0, 1),
        (21, 1),
        (22, 2),
        (43, 2),
        (44, 3),
        (65, 3),
        (66, 4),
        (u32::MAX, 4),
    ] {
        let mut log = journal(rt.alloc(), 88)?;
        fill(&mut log, 1)?;
        log.secure();
        for t in 1..4 {
            let _ = log.add(vote(t)?);
        }
        log.restart(n);
        holds(&rt, &log, kept)?;
    }
    Ok(())
}

#[test]
fn a_tray_holds_thirty_two(rt: HostRuntime) -> Result<(), Fail> {
    let mut tray = Tray::new();
    fill(&mut tray, 32)?;
    assert_eq!(rt; tray.spare(), 0);
    assert_eq!(rt; tray.add(vote(32)?), Err(Full { capacity: 32 }));
    holds(&rt, &tray, 32)
}

#[test]
fn a_tray_keeps_the_first_loose_records(rt: HostRuntime) -> Result<(), Fail> {
    for n in 0..6u32 {
        let mut tray = Tray::new();
        fill(&mut tray, 4)?;
        tray.restart(n);
        holds(&rt, &tray, n.min(4))?;
        tray.restart(u32::MAX);
        holds(&rt, &tray, n.min(4))?;
    }
    Ok(())
}

#[test]
fn secured_records_outlast_a_restart(rt: HostRuntime) -> Result<(), Fail> {
    let mut tray = Tray::new();
    fill(&mut tray, 3)?;
    tray.secure();
    tray.secure();
    tray.restart(0);
    holds(&rt, &tray, 3)
}
