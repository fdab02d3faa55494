// The table of the coordinator: each state and each way a seat stands, and whatever may come from there.
use crate::refusal::Refusal;
use crate::scene::carrier::Carrier;
use crate::scene::steps::{Act, Closing, Step};
use crate::scene::{Scene, TRANSACTION};
use crate::script::Opening;
use crate::staging::AnyLog;
use crate::tables::Form;
use crate::tables::cell::{Cell, Event, Heading, Stands, added_to, note};
use agreement::coordinator::Durability::{self, Durable, Volatile};
use logs::log::Log;
use seats::seat::Seat;
use std::alloc::{AllocError, Global};
use std::io;
use words::kind::Kind::{self, Aborted, Committed, Prepared, ReadOnly};

// The columns.
const KINDS: [Kind; 4] = [Prepared, ReadOnly, Aborted, Committed];

// A seat that nobody has.
const UNREGISTERED: u8 = 9;

// What brings a coordinator that was just opened to a state.
#[derive(Clone, Copy)]
enum Deed {
    Register(Durability),
    Receive(u8, Kind),
    Commit,
    Settle,
    Expire,
}

// A state, by the deeds that come to it, and the seats from which something comes there.
#[derive(Clone, Copy)]
struct Stage {
    deeds: &'static [&'static [Deed]],
    seats: &'static [u8],
}

// Seats 0 and 1 Idle, 2 and 3 Gone; the even ones volatile.
const SEATED: &[Deed] = &[
    Deed::Register(Volatile),
    Deed::Register(Durable),
    Deed::Register(Volatile),
    Deed::Register(Durable),
    Deed::Receive(2, ReadOnly),
    Deed::Receive(3, ReadOnly),
];

// Volatile seats 0 and 5 Asked, 1 Voted, 2 Gone; durable seats 3 Idle, 4 Gone.
const VOLATILE_ASKED: &[Deed] = &[
    Deed::Register(Volatile),
    Deed::Register(Volatile),
    Deed::Register(Volatile),
    Deed::Register(Durable),
    Deed::Register(Durable),
    Deed::Register(Volatile),
    Deed::Receive(4, ReadOnly),
    Deed::Commit,
    Deed::Receive(1, Prepared),
    Deed::Receive(2, ReadOnly),
];

// Volatile seats 0 Voted, 1 Gone; durable seats 2 to 5 Asked.
const DURABLE_ASKED: &[Deed] = &[
    Deed::Register(Volatile),
    Deed::Register(Volatile),
    Deed::Register(Durable),
    Deed::Register(Durable),
    Deed::Register(Durable),
    Deed::Register(Durable),
    Deed::Commit,
    Deed::Receive(0, Prepared),
    Deed::Receive(1, ReadOnly),
];

// Of these, 3 Voted and 4 Gone.
const SOME_VOTED: &[Deed] = &[Deed::Receive(3, Prepared), Deed::Receive(4, ReadOnly)];

// Of these, 2, 4 and 5 Voted and 3 Gone.
const ALL_VOTED: &[Deed] = &[
    Deed::Receive(2, Prepared),
    Deed::Receive(3, ReadOnly),
    Deed::Receive(4, Prepared),
    Deed::Receive(5, Prepared),
];

const SETTLED: &[Deed] = &[Deed::Settle];

const ONE_HEARD: &[Deed] = &[Deed::Receive(4, Committed)];

const ALL_HEARD: &[Deed] = &[Deed::Receive(2, Committed), Deed::Receive(5, Committed)];

const EXPIRED: &[Deed] = &[Deed::Expire];

const STAGES: [Stage; 8] = [
    Stage {
        deeds: &[SEATED],
        seats: &[0, 1, 2, 3, UNREGISTERED],
    },
    Stage {
        deeds: &[VOLATILE_ASKED],
        seats: &[0, 1, 2, 3, 4, UNREGISTERED],
    },
    Stage {
        deeds: &[DURABLE_ASKED, SOME_VOTED],
        seats: &[0, 1, 2, 3, 4, UNREGISTERED],
    },
    Stage {
        deeds: &[DURABLE_ASKED, ALL_VOTED],
        seats: &[0, 1, 2, 3, UNREGISTERED],
    },
    Stage {
        deeds: &[DURABLE_ASKED, ALL_VOTED, SETTLED],
        seats: &[0, 1, 2, 3, UNREGISTERED],
    },
    Stage {
        deeds: &[DURABLE_ASKED, ALL_VOTED, SETTLED, SETTLED, ONE_HEARD],
        seats: &[0, 1, 2, 3, 4, UNREGISTERED],
    },
    Stage {
        deeds: &[
            DURABLE_ASKED,
            ALL_VOTED,
            SETTLED,
            SETTLED,
            ONE_HEARD,
            ALL_HEARD,
        ],
        seats: &[0, 1, 2, 3, UNREGISTERED],
    },
    Stage {
        deeds: &[SEATED, EXPIRED],
        seats: &[0, 1, 2, 3, UNREGISTERED],
    },
];

impl Deed {
    fn step(self) -> Option<Step> {
        Some(match self {
            Deed::Register(durability) => Step::Register(durability),
            Deed::Receive(seat, kind) => {
                Step::Coordinator(Act::Receive(note(Seat::new(seat)?, kind)))
            }
            Deed::Commit => Step::Close(Closing::Commit),
            Deed::Settle => Step::Coordinator(Act::Settle),
            Deed::Expire => Step::Coordinator(Act::Expire),
        })
    }
}

// Prints the table.
pub(super) fn print_table(rt: &HostRuntime, form: Form) -> Result<(), Refusal<'static>> {
    if form == Form::Markdown {
        print_head(rt)?;
    }
    for stage in &STAGES {
        for number in stage.seats {
            if let Some(seat) = Seat::new(*number) {
                print_row(rt, form, stage, seat)?;
            }
        }
    }
    Ok(())
}

fn print_head(rt: &HostRuntime) -> io::Result<()> {
    print!(rt; "| Coordinator | Seat |")?;
    for kind in KINDS {
        print!(rt; " {kind} |")?;
    }
    println!(rt; "")?;
    println!(rt; "|---|---|---|---|---|---|")
}

// Prints what comes of each kind from a seat in a state.
fn print_row(
    rt: &HostRuntime,
    form: Form,
    stage: &Stage,
    seat: Seat,
) -> Result<(), Refusal<'static>> {
    let heading = heading_of(stage, seat, rt.alloc())?;
    if form == Form::Markdown {
        let Heading { state, .. } = heading;
        print!(rt; "| {state} | {seat}")?;
        if let Some(stands) = heading.stands {
            print!(rt; " {stands}")?;
        }
        print!(rt; " |")?;
    }
    for kind in KINDS {
        let cell = cell_of(stage, seat, kind, rt.alloc())?;
        cell.print(rt, form, heading, Event::Receive(kind))?;
    }
    if form == Form::Markdown {
        println!(rt; "")?;
    }
    Ok(())
}

// The state that the coordinator comes to, and how the seat stands there.
fn heading_of(stage: &Stage, seat: Seat, alloc: Global) -> Result<Heading, AllocError> {
    let mut scene = open(alloc)?;
    let reached = scene.reach(stage);
    let heading = Heading {
        party: "coordinator",
        state: scene.head.coordinator.state().name(),
        seat,
        stands: Some(Stands(scene.head.coordinator.place(seat))),
        with_seats: true,
    };
    scene.end();
    reached?;
    Ok(heading)
}

// What a notification comes to: a coordinator is brought to the state, and it comes.
fn cell_of(stage: &Stage, seat: Seat, kind: Kind, alloc: Global) -> Result<Cell, AllocError> {
    let mut scene = open(alloc)?;
    let cell = scene.try_coordinator(stage, seat, kind);
    scene.end();
    cell
}

fn open(alloc: Global) -> Result<Scene<'static, AnyLog>, AllocError> {
    let logs = Opening::of(TRANSACTION).logs(0, alloc)?;
    Ok(Scene::open(logs, Carrier::Free, alloc))
}

impl<L: Log + Drop> Scene<'_, L> {
    // Brings a coordinator that was just opened to a state.
    fn reach(&mut self, stage: &Stage) -> Result<(), AllocError> {
        for deeds in stage.deeds {
            for deed in *deeds {
                if let Some(step) = deed.step() {
                    self.take(step)?;
                }
            }
        }
        Ok(())
    }

    // The same, and then a notification comes.
    fn try_coordinator(
        &mut self,
        stage: &Stage,
        seat: Seat,
        kind: Kind,
    ) -> Result<Cell, AllocError> {
        self.reach(stage)?;
        let state = self.head.coordinator.state();
        let stood = Stands(self.head.coordinator.place(seat));
        let records = self.head.log.count();
        let safe = self.head.log.secured();
        self.take(Step::Coordinator(Act::Receive(note(seat, kind))))?;
        let coordinator = &self.head.coordinator;
        let entered = coordinator.state();
        let stands = Stands(coordinator.place(seat));
        Ok(Cell {
            secured: self.head.log.secured() > safe,
            sent: self.outbox,
            added: added_to(&self.head.log, records),
            entered: (entered != state).then_some(entered.name()),
            stands: (stands != stood).then_some(stands),
            fault: self.fault,
        })
    }
}
