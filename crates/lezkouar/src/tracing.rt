// Prints the trace of a rehearsal, a line for each move, and how it ended.
use crate::calling::{Extra, outcome_name};
use crate::codes::Codes;
use agreement::coordinator::State;
use agreement::participant;
use desks::desk::{Desk, Party};
use lines::line::Line;
use lines::trace::TraceEntry;
use logs::listing::Records;
use logs::log::Log;
use rehearsals::moves::{Call, Move};
use rehearsals::trace::{Entry, Event};
use seats::seat::{SEATS, Seat};
use std::io;
use words::notification::Notification;
use words::row::Row;

// Prints what each move did. Its state code and fault number are what the queue gives next.
pub(crate) fn print_trace<C: Log, P: Log + Drop, N: Line>(
    rt: &HostRuntime,
    moves: &[Move],
    trace: &[Entry],
    codes: &mut Codes<'_>,
    desk: &Desk<C, P, N>,
) -> io::Result<()> {
    let mut before = 0;
    for (next, entry) in moves.iter().zip(trace) {
        let Some(code) = codes.pop() else {
            break;
        };
        print_mover(rt, *next)?;
        match entry.event {
            Event::Posted => print_notification(rt, said(*next, desk))?,
            Event::Took(notification) => print_notification(rt, notification)?,
            Event::Impossible => match *next {
                Move::Post(_) | Move::Say(_, _) => println!(rt; "nothing")?,
                _ => println!(rt; "not possible")?,
            },
            _ => {
                print_call(rt, entry, code)?;
                print_given(rt, desk.given(), before, entry.given)?;
            }
        }
        before = entry.given;
    }
    Ok(())
}

// Prints who moves, and by which call.
fn print_mover(rt: &HostRuntime, next: Move) -> io::Result<()> {
    match next {
        Move::Post(_) => print!(rt; "line post: "),
        Move::Take => print!(rt; "line take: "),
        Move::Register(_) => print!(rt; "coordinator register: "),
        Move::AskCommit => print!(rt; "coordinator commit: "),
        Move::AskRollback => print!(rt; "coordinator rollback: "),
        Move::AskOutcome => print!(rt; "coordinator outcome: "),
        Move::Coordinator(call) => {
            let word = word_of(call);
            print!(rt; "coordinator {word}: ")
        }
        Move::Join(seat) => print!(rt; "seat {seat} join: "),
        Move::Vote(seat, _) => print!(rt; "seat {seat} vote: "),
        Move::Say(seat, _) => print!(rt; "seat {seat} say: "),
        Move::Participant(seat, call) => {
            let word = word_of(call);
            print!(rt; "seat {seat} {word}: ")
        }
    }
}

// The word of a script for a call.
fn word_of(call: Call) -> &'static str {
    match call {
        Call::Expire => "expire",
        Call::Settle => "settle",
        Call::Resend => "resend",
        Call::Receive(_) => "receive",
        Call::Restart(_) => "cut",
    }
}

// The notification that a move posted.
fn said<C: Log, P: Log + Drop, N: Line>(next: Move, desk: &Desk<C, P, N>) -> Option<Notification> {
    match next {
        Move::Post(number) => Notification::try_from(*desk.given().get(number)?).ok(),
        Move::Say(seat, kind) => Some(Notification {
            transaction: desk.transaction(),
            seat,
            kind,
        }),
        _ => None,
    }
}

// Prints a notification, or that there is none.
fn print_notification(rt: &HostRuntime, notification: Option<Notification>) -> io::Result<()> {
    match notification {
        Some(notification) => println!(rt; "{notification}"),
        None => println!(rt; "nothing"),
    }
}

// Prints the state behind a call and its code, the number of its fault, and the seat or the outcome that it answered.
fn print_call(rt: &HostRuntime, entry: &Entry, code: TraceEntry) -> io::Result<()> {
    match (entry.event, entry.participant) {
        (Event::Participant(_) | Event::Joined, Some(state)) => print!(rt; "{state}")?,
        _ => {
            let state = entry.coordinator;
            print!(rt; "{state}")?;
        }
    }
    let TraceEntry { state, fault } = code;
    print!(rt; " {state}, fault {fault}")?;
    match extra_of(entry.event) {
        Some(extra) => print!(rt; ", {extra}"),
        None => Ok(()),
    }
}

// What a call answered beside what it gave.
fn extra_of(event: Event) -> Option<Extra> {
    match event {
        Event::Registered(Ok(registered)) => Some(Extra::Seat(registered.seat)),
        Event::Told(told) => Some(Extra::Outcome(told.outcome)),
        Event::Asked(outcome) => Some(Extra::Outcome(outcome)),
        _ => None,
    }
}

// Prints the kinds and the seats of what a call gave, in its order.
fn print_given(rt: &HostRuntime, given: &[Row], from: usize, to: usize) -> io::Result<()> {
    print!(rt; ", gave")?;
    if from >= to {
        return println!(rt; " nothing");
    }
    for (number, row) in given.iter().enumerate().take(to).skip(from) {
        if let Ok(notification) = Notification::try_from(*row) {
            let Notification { seat, kind, .. } = notification;
            let comma = if number == from { "" } else { "," };
            print!(rt; "{comma} {kind} {seat}")?;
        }
    }
    println!(rt; "")
}

// Prints how each party stands, what its log holds, what the initiator was told, and whether all that ended ended alike.
pub(crate) fn print_summary<C: Log, P: Log + Drop, N: Line>(
    rt: &HostRuntime,
    desk: &Desk<C, P, N>,
) -> io::Result<()> {
    let state = desk.state();
    let code = u8::from(state);
    println!(rt; "coordinator: {state} {code}")?;
    print_log(rt, desk.log())?;
    for number in 0..SEATS {
        if let Some(seat) = Seat::new(number) {
            print_party(rt, seat, desk.party_at(seat))?;
        }
    }
    print!(rt; "told:")?;
    if desk.told().is_empty() {
        print!(rt; " nothing")?;
    }
    for (number, outcome) in desk.told().iter().enumerate() {
        let comma = if number == 0 { "" } else { "," };
        let word = outcome_name(*outcome);
        print!(rt; "{comma} {word}")?;
    }
    println!(rt; "")?;
    let verdict = how_ended(desk).verdict();
    println!(rt; "ended alike: {verdict}")
}

// Prints who sits at a seat, if anyone does.
fn print_party<P: Log>(rt: &HostRuntime, seat: Seat, party: &Party<P>) -> io::Result<()> {
    match party {
        Party::Nobody => Ok(()),
        Party::Volatile => println!(rt; "seat {seat}: volatile"),
        Party::Awaited => println!(rt; "seat {seat}: durable, not joined"),
        Party::Joined(store) => {
            let state = store.state();
            let code = u8::from(state);
            println!(rt; "seat {seat}: {state} {code}")?;
            print_log(rt, store.log())
        }
    }
}

// Prints the records of a log, the safe ones first.
fn print_log<L: Log>(rt: &HostRuntime, log: &L) -> io::Result<()> {
    let secured = log.secured();
    for (number, record) in Records::over(log).enumerate() {
        let word = if number < secured { "safe" } else { "loose" };
        println!(rt; "  {word} record {number}: {record}")?;
    }
    Ok(())
}

// How those ended that did.
#[derive(Clone, Copy, PartialEq, Eq)]
pub(crate) enum Ending {
    Nobody,
    Committed,
    RolledBack,
    Differently,
}

impl Ending {
    // With another that ended so.
    pub(crate) fn and(self, other: Ending) -> Ending {
        match (self, other) {
            (Ending::Nobody, ending) | (ending, Ending::Nobody) => ending,
            (Ending::Committed, Ending::Committed) => Ending::Committed,
            (Ending::RolledBack, Ending::RolledBack) => Ending::RolledBack,
            _ => Ending::Differently,
        }
    }

    fn verdict(self) -> &'static str {
        match self {
            Ending::Nobody => "yes, nobody ended",
            Ending::Committed => "yes, committed",
            Ending::RolledBack => "yes, rolled back",
            Ending::Differently => "no",
        }
    }

    // How a coordinator in this state ended.
    pub(crate) fn of_coordinator(state: State) -> Ending {
        match state {
            State::Committing | State::Done => Ending::Committed,
            State::Rolled => Ending::RolledBack,
            _ => Ending::Nobody,
        }
    }

    // How a participant in this state ended.
    pub(crate) fn of_participant(state: participant::State) -> Ending {
        match state {
            participant::State::Kept => Ending::Committed,
            participant::State::Undone => Ending::RolledBack,
            _ => Ending::Nobody,
        }
    }
}

// How the parties at a desk ended.
pub(crate) fn how_ended<C: Log, P: Log + Drop, N: Line>(desk: &Desk<C, P, N>) -> Ending {
    let mut ending = Ending::of_coordinator(desk.state());
    for number in 0..SEATS {
        if let Some(state) = Seat::new(number).and_then(|seat| desk.state_at(seat)) {
            ending = ending.and(Ending::of_participant(state));
        }
    }
    ending
}
