// A cell of a state table: what an event comes to.
use crate::scene::steps::{Act, Step};
use crate::scene::{Scene, TRANSACTION};
use crate::tables::Form;
use agreement::coordinator::{Durability, Place, Standing};
use agreement::participant::Ballot;
use coordinator::OUTBOX_PLACES;
use logs::log::Log;
use records::record::Entry;
use seats::seat::Seat;
use std::{fmt, io};
use words::kind::Kind;
use words::notification::Notification;
use words::row::Row;

// The head of the comma-separated form.
pub(super) const CSV_HEAD: &str =
    "party,state,seat,stands,event,secured,sent,added,entered,becomes,fault";

// What may come to a party.
#[derive(Clone, Copy)]
pub(super) enum Event {
    Receive(Kind),
    Vote(Ballot),
    Settle,
    Expire,
    Resend,
    // The power goes and comes back: loose records are all lost, or all kept.
    LoseLoose,
    KeepLoose,
}

impl Event {
    // Whether the log is secured by it, and not only found so.
    pub(super) fn is_call(self) -> bool {
        !matches!(self, Event::LoseLoose | Event::KeepLoose)
    }

    // The step in which it comes to the store at a seat.
    pub(super) fn at_store(self, seat: Seat) -> Step {
        match self {
            Event::Receive(kind) => Step::Store(seat, Act::Receive(note(seat, kind))),
            Event::Vote(ballot) => Step::Vote(seat, ballot),
            Event::Settle => Step::Store(seat, Act::Settle),
            Event::Expire => Step::Store(seat, Act::Expire),
            Event::Resend => Step::Store(seat, Act::Resend),
            Event::LoseLoose => Step::Store(seat, Act::Cut(0)),
            Event::KeepLoose => Step::Store(seat, Act::Cut(u32::MAX)),
        }
    }
}

impl fmt::Display for Event {
    fn fmt<W: fmt::Write>(&self, f: &mut fmt::Formatter<W>) -> fmt::Result {
        match self {
            Event::Receive(kind) => write!(f, "{kind}"),
            Event::Vote(Ballot::Prepared) => f.write_str("vote Prepared"),
            Event::Vote(Ballot::ReadOnly) => f.write_str("vote ReadOnly"),
            Event::Vote(Ballot::Aborted) => f.write_str("vote Aborted"),
            Event::Settle => f.write_str("settle"),
            Event::Expire => f.write_str("expire"),
            Event::Resend => f.write_str("resend"),
            Event::LoseLoose => f.write_str("restart without loose records"),
            Event::KeepLoose => f.write_str("restart with loose records"),
        }
    }
}

// A notification of the transaction that is played.
pub(super) fn note(seat: Seat, kind: Kind) -> Notification {
    Notification {
        transaction: TRANSACTION,
        seat,
        kind,
    }
}

// How a seat stands with the coordinator, in words.
#[derive(Clone, Copy, PartialEq, Eq)]
pub(super) struct Stands(pub(super) Place);

impl fmt::Display for Stands {
    fn fmt<W: fmt::Write>(&self, f: &mut fmt::Formatter<W>) -> fmt::Result {
        let Some((durability, standing)) = self.0 else {
            return f.write_str("unregistered");
        };
        f.write_str(match durability {
            Durability::Volatile => "volatile ",
            Durability::Durable => "durable ",
        })?;
        f.write_str(match standing {
            Standing::Idle => "Idle",
            Standing::Asked => "Asked",
            Standing::Voted => "Voted",
            Standing::Gone => "Gone",
            Standing::Heard => "Heard",
        })
    }
}

// Notifications: their kinds, and their seats where these are told.
#[derive(Clone, Copy)]
struct Sent<'a> {
    rows: &'a [Row],
    with_seats: bool,
}

impl fmt::Display for Sent<'_> {
    fn fmt<W: fmt::Write>(&self, f: &mut fmt::Formatter<W>) -> fmt::Result {
        let mut is_first = true;
        for row in self.rows {
            if let Ok(Notification { seat, kind, .. }) = Notification::try_from(*row) {
                f.write_str(if is_first { "" } else { " " })?;
                write!(f, "{kind}")?;
                if self.with_seats {
                    write!(f, " {seat}")?;
                }
                is_first = false;
            }
        }
        Ok(())
    }
}

// What an event came to: whether the log was secured, what was sent and added, the state that was entered if it is another, how the seat stands with the coordinator if it stands otherwise, and the fault.
#[derive(Clone, Copy)]
pub(super) struct Cell {
    pub(super) secured: bool,
    pub(super) sent: [Row; OUTBOX_PLACES],
    pub(super) added: Option<Entry>,
    pub(super) entered: Option<&'static str>,
    pub(super) stands: Option<Stands>,
    pub(super) fault: Option<u8>,
}

impl Cell {
    // Prints it in its place of a row of the table.
    pub(super) fn print(
        &self,
        rt: &HostRuntime,
        form: Form,
        heading: Heading,
        event: Event,
    ) -> io::Result<()> {
        match form {
            Form::Markdown => {
                print!(rt; " ")?;
                self.print_words(rt, heading.with_seats)?;
                print!(rt; " |")
            }
            Form::Csv => self.print_values(rt, heading, event),
        }
    }

    // Prints it in words, as a cell of Markdown.
    fn print_words(&self, rt: &HostRuntime, with_seats: bool) -> io::Result<()> {
        let mut words = Words { is_first: true };
        if let Some(fault) = self.fault {
            words.begin(rt)?;
            print!(rt; "fault {fault}")?;
        }
        if self.secured {
            words.begin(rt)?;
            print!(rt; "secures the log")?;
        }
        if self.has_sent() {
            let sent = self.sent_with(with_seats);
            words.begin(rt)?;
            print!(rt; "sends {sent}")?;
        }
        if let Some(added) = self.added {
            let name = added.name();
            words.begin(rt)?;
            print!(rt; "adds {name}")?;
        }
        if let Some(stands) = self.stands {
            words.begin(rt)?;
            print!(rt; "becomes {stands}")?;
        }
        if let Some(entered) = self.entered {
            words.begin(rt)?;
            print!(rt; "enters {entered}")?;
        }
        if words.is_first {
            print!(rt; "–")?;
        }
        Ok(())
    }

    // Prints it as a line of comma-separated values.
    fn print_values(&self, rt: &HostRuntime, heading: Heading, event: Event) -> io::Result<()> {
        let Heading {
            party,
            state,
            seat,
            ..
        } = heading;
        print!(rt; "{party},{state},{seat},")?;
        if let Some(stands) = heading.stands {
            print!(rt; "{stands}")?;
        }
        let sent = self.sent_with(heading.with_seats);
        let secured = if self.secured { "yes" } else { "" };
        print!(rt; ",{event},{secured},{sent},")?;
        if let Some(added) = self.added {
            let name = added.name();
            print!(rt; "{name}")?;
        }
        let entered = self.entered.unwrap_or("");
        print!(rt; ",{entered},")?;
        if let Some(stands) = self.stands {
            print!(rt; "{stands}")?;
        }
        let fault = self.fault.unwrap_or(0);
        println!(rt; ",{fault}")
    }

    fn has_sent(&self) -> bool {
        self.sent
            .iter()
            .any(|row| Notification::try_from(*row).is_ok())
    }

    fn sent_with(&self, with_seats: bool) -> Sent<'_> {
        Sent {
            rows: &self.sent,
            with_seats,
        }
    }
}

// Whose row it is.
#[derive(Clone, Copy)]
pub(super) struct Heading {
    pub(super) party: &'static str,
    pub(super) state: &'static str,
    // its own seat, or the one from which something comes
    pub(super) seat: Seat,
    // how that stands with the coordinator, where it matters
    pub(super) stands: Option<Stands>,
    // whether the seats of what is sent are told
    pub(super) with_seats: bool,
}

// The words of a cell, parted by commas.
#[derive(Drop)]
struct Words {
    is_first: bool,
}

impl Words {
    fn begin(&mut self, rt: &HostRuntime) -> io::Result<()> {
        if !self.is_first {
            print!(rt; ", ")?;
        }
        self.is_first = false;
        Ok(())
    }
}

// The newest record of a log that had so many before, if there is one more.
pub(super) fn added_to<L: Log>(log: &L, before: usize) -> Option<Entry> {
    Some(log.read(before)?.entry)
}
