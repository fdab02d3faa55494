// The table of a store: each state, and whatever may come to it.
use crate::refusal::Refusal;
use crate::scene::carrier::Carrier;
use crate::scene::steps::Step;
use crate::scene::{Party, Scene, TRANSACTION};
use crate::script::Opening;
use crate::staging::AnyLog;
use crate::tables::Form;
use crate::tables::cell::{Cell, Event, Heading, added_to};
use agreement::coordinator::Durability;
use agreement::participant::{Ballot, State};
use logs::log::Log;
use seats::seat::Seat;
use std::alloc::{AllocError, Global};
use std::io;
use words::kind::Kind;

// What may be received.
const NOTIFICATIONS: [Event; 3] = [PREPARE, COMMIT, ROLLBACK];

// What the host may ask, and what a power cut does.
const CALLS: [Event; 8] = [
    PREPARED,
    READ_ONLY,
    Event::Vote(Ballot::Aborted),
    SETTLE,
    Event::Expire,
    Event::Resend,
    Event::LoseLoose,
    Event::KeepLoose,
];

// The rows.
const STATES: [State; 10] = [
    State::Working,
    State::Voting,
    State::Noted,
    State::InDoubt,
    State::Keeping,
    State::Undoing,
    State::Kept,
    State::Undone,
    State::Viewed,
    State::Unknown,
];

const PREPARE: Event = Event::Receive(Kind::Prepare);

const COMMIT: Event = Event::Receive(Kind::Commit);

const ROLLBACK: Event = Event::Receive(Kind::Rollback);

const PREPARED: Event = Event::Vote(Ballot::Prepared);

const READ_ONLY: Event = Event::Vote(Ballot::ReadOnly);

const SETTLE: Event = Event::Settle;

// What brings a store that has just joined to a state.
fn events_to(state: State) -> &'static [Event] {
    match state {
        State::Working => &[],
        State::Voting => &[PREPARE],
        State::Noted => &[PREPARE, PREPARED],
        State::InDoubt => &[PREPARE, PREPARED, SETTLE],
        State::Keeping => &[PREPARE, PREPARED, SETTLE, COMMIT],
        State::Undoing => &[PREPARE, PREPARED, SETTLE, ROLLBACK],
        State::Kept => &[PREPARE, PREPARED, SETTLE, COMMIT, SETTLE],
        State::Undone => &[ROLLBACK],
        State::Viewed => &[PREPARE, READ_ONLY],
        State::Unknown => &[Event::LoseLoose],
    }
}

// Prints the table, as Markdown in two parts.
pub(super) fn print_table(rt: &HostRuntime, form: Form) -> Result<(), Refusal<'static>> {
    print_part(rt, form, &NOTIFICATIONS)?;
    if form == Form::Markdown {
        println!(rt; "")?;
    }
    print_part(rt, form, &CALLS)
}

// Prints these columns of it.
fn print_part(rt: &HostRuntime, form: Form, events: &[Event]) -> Result<(), Refusal<'static>> {
    if form == Form::Markdown {
        print_head(rt, events)?;
    }
    for state in STATES {
        let heading = Heading {
            party: "store",
            state: reached(state, rt.alloc())?,
            seat: seat(),
            stands: None,
            with_seats: false,
        };
        if form == Form::Markdown {
            let Heading { state, .. } = heading;
            print!(rt; "| {state} |")?;
        }
        for event in events {
            cell_of(state, *event, rt.alloc())?.print(rt, form, heading, *event)?;
        }
        if form == Form::Markdown {
            println!(rt; "")?;
        }
    }
    Ok(())
}

fn print_head(rt: &HostRuntime, events: &[Event]) -> io::Result<()> {
    print!(rt; "| Store |")?;
    for event in events {
        print!(rt; " {event} |")?;
    }
    println!(rt; "")?;
    print!(rt; "|---|")?;
    for _ in events {
        print!(rt; "---|")?;
    }
    println!(rt; "")
}

// The state that a store comes to which is brought to this one.
fn reached(state: State, alloc: Global) -> Result<&'static str, AllocError> {
    let mut scene = open(alloc)?;
    let brought = scene.bring_store(state);
    let name = scene.store_state().map_or("", State::name);
    scene.end();
    brought?;
    Ok(name)
}

// What an event comes to in a state: a store is brought there, and the event comes.
fn cell_of(state: State, event: Event, alloc: Global) -> Result<Cell, AllocError> {
    let mut scene = open(alloc)?;
    let cell = scene.try_store(state, event);
    scene.end();
    cell
}

fn open(alloc: Global) -> Result<Scene<'static, AnyLog>, AllocError> {
    let logs = Opening::of(TRANSACTION).logs(1, alloc)?;
    Ok(Scene::open(logs, Carrier::Free, alloc))
}

// The seat of the store.
fn seat() -> Seat {
    let Some(seat) = Seat::new(0) else {
        unreachable()
    };
    seat
}

impl<L: Log + Drop> Scene<'_, L> {
    // Brings a store of a transaction that was just opened to a state.
    fn bring_store(&mut self, state: State) -> Result<(), AllocError> {
        self.take(Step::Register(Durability::Durable))?;
        self.take(Step::Join(seat()))?;
        for event in events_to(state) {
            self.take(event.at_store(seat()))?;
        }
        Ok(())
    }

    // The same, and then an event comes.
    fn try_store(&mut self, state: State, event: Event) -> Result<Cell, AllocError> {
        self.bring_store(state)?;
        let before = self.store_state();
        let (records, safe) = self.store_records();
        self.take(event.at_store(seat()))?;
        let after = self.store_state();
        let (_, safe_after) = self.store_records();
        Ok(Cell {
            secured: event.is_call() && safe_after > safe,
            sent: self.outbox,
            added: match self.parties.first() {
                Some(Party::Joined(store)) => added_to(&store.log, records),
                _ => None,
            },
            entered: after.filter(|_| after != before).map(State::name),
            stands: None,
            fault: self.fault,
        })
    }

    // The state of the store, if it has joined.
    fn store_state(&self) -> Option<State> {
        match self.parties.first() {
            Some(Party::Joined(store)) => Some(store.participant.state()),
            _ => None,
        }
    }

    // How many records its log has, and how many of them are safe.
    fn store_records(&self) -> (usize, usize) {
        match self.parties.first() {
            Some(Party::Joined(store)) => (store.log.count(), store.log.secured()),
            _ => (0, 0),
        }
    }
}
