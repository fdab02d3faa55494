// How a play tells what there is to see.
use crate::coding::put_record;
use crate::sink::Sink;
use agreement::coordinator::{Durability, Outcome, Place, Standing};
use coordinator::Coordinator;
use logs::log::Log;
use seats::seat::{SEATS, Seat};
use words::fault::Fault;
use words::row::Row;

// How much of a log is filled and safe.
pub(crate) fn tell_counts<L: Log>(sink: &mut Sink<'_>, log: &L) {
    sink.put_short(log.count());
    sink.put_short(log.secured());
}

// A log's capacity, counts and records.
pub(crate) fn tell_log<L: Log>(sink: &mut Sink<'_>, log: &L) {
    sink.put_short(log.capacity());
    sink.put_short(log.spare());
    tell_counts(sink, log);
    for i in 0..log.count() {
        tell_read(sink, log, i);
    }
}

// What reading record i answers.
pub(crate) fn tell_read<L: Log>(sink: &mut Sink<'_>, log: &L, i: usize) {
    match log.read(i) {
        Some(record) => put_record(sink, &record),
        None => sink.put(0),
    }
}

// An answer: 0 and how many were sent, or the fault's number and what it carries.
pub(crate) fn tell_answer<S: Copy + Into<u8>>(
    sink: &mut Sink<'_>,
    answer: Result<usize, Fault<S>>,
) {
    match answer {
        Ok(sent) => {
            sink.put(0);
            sink.put_short(sent);
        }
        Err(fault) => tell_fault(sink, fault),
    }
}

// The number of a fault and what it carries. The two that have the number 10 are told apart by a byte.
pub(crate) fn tell_fault<S: Copy + Into<u8>>(sink: &mut Sink<'_>, fault: Fault<S>) {
    sink.put(fault.number());
    match fault {
        Fault::InvalidPeer { seat, state, sent } => {
            sink.put(seat.number());
            sink.put(state.into());
            sink.put_short(sent);
        }
        Fault::LogFull { full, sent } => {
            sink.put(1);
            sink.put_short(full.capacity);
            sink.put_short(sent);
        }
        Fault::NoPlace { spare, sent } => {
            sink.put(2);
            sink.put_short(spare);
            sink.put_short(sent);
        }
        _ => {}
    }
}

// Every place of an outbox, whether the call wrote it or not.
pub(crate) fn tell_rows(sink: &mut Sink<'_>, outbox: &[Row]) {
    sink.put_short(outbox.len());
    for row in outbox {
        sink.put_word(row.transaction);
        sink.put(row.seat);
        sink.put(row.kind);
    }
}

// A coordinator's state, outcome and table.
pub(crate) fn tell_coordinator(sink: &mut Sink<'_>, coordinator: &Coordinator) {
    sink.put(coordinator.state().into());
    sink.put(outcome_number(coordinator.outcome()));
    for number in 0..SEATS {
        if let Some(seat) = Seat::new(number) {
            sink.put(place_number(coordinator.place(seat)));
        }
    }
}

pub(crate) fn outcome_number(outcome: Outcome) -> u8 {
    match outcome {
        Outcome::Open => 0,
        Outcome::Committed => 1,
        Outcome::Aborted => 2,
    }
}

// 0 where it is vacant, from 1 on for a volatile participant, and from 11 on for a durable one.
fn place_number(place: Place) -> u8 {
    let Some((durability, standing)) = place else {
        return 0;
    };
    let first = match durability {
        Durability::Volatile => 1,
        Durability::Durable => 11,
    };
    let stands = match standing {
        Standing::Idle => 0,
        Standing::Asked => 1,
        Standing::Voted => 2,
        Standing::Gone => 3,
        Standing::Heard => 4,
    };
    first + stands
}
