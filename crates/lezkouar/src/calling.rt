// What the plays of both parties share: how a line of input is read, the log and the outbox that calls are lent, and how it is told what a call did.
use crate::codes::Codes;
use crate::reading::read_notification;
use crate::refusal::Slip;
use crate::showing::print_records;
use agreement::coordinator::Outcome;
use arrayvec::ArrayVec;
use lines::trace::TraceEntry;
use logs::log::Log;
use records::record::{Entry, Record};
use seats::seat::Seat;
use seats::set::SeatSet;
use std::{fmt, io};
use words::fault::Fault;
use words::notification::Notification;
use words::row::Row;

// The transaction that is played, and that of the records that fill its log.
pub(crate) const TRANSACTION: u32 = 7;

const OTHER_TRANSACTION: u32 = 8;

// How many places the outbox has at most.
pub(crate) const PLACES: usize = 16;

// One word more than the longest call has.
const WORDS: usize = 5;

// What a line of input asks for. `O` is what only one of the parties is asked.
#[derive(Clone, Copy)]
pub(crate) enum Act<O> {
    Own(O),
    Receive(Notification),
    Settle,
    Expire,
    Resend,
    // The power goes and comes back, with this number.
    Cut(u32),
    // No call of the party.
    Aside(Aside),
}

// What is done to the log and the outbox between calls.
#[derive(Clone, Copy)]
pub(crate) enum Aside {
    // The outbox has so many places from now on.
    Outbox(usize),
    // Another party adds so many records to the log.
    Fill(u32),
    // The log is printed.
    Log,
}

// The words of a line of input, as many as tell whether it is a call; `#` begins a comment.
pub(crate) fn words_of(line: &str) -> ArrayVec<&str, WORDS> {
    let text = line.split('#').next().unwrap_or("");
    let mut words = ArrayVec::new();
    for word in text.split_whitespace().take(WORDS) {
        let _ = words.try_push(word);
    }
    words
}

// What words ask for that ask the same of either party, or else this slip.
pub(crate) fn read_act<O>(words: &[&str], other: Slip) -> Result<Act<O>, Slip> {
    match words {
        ["receive", transaction, seat, kind] => {
            Ok(Act::Receive(read_notification(transaction, seat, kind)?))
        }
        ["settle"] => Ok(Act::Settle),
        ["expire"] => Ok(Act::Expire),
        ["resend"] => Ok(Act::Resend),
        ["cut", n] => Ok(Act::Cut(n.parse().map_err(|_| Slip::Cut)?)),
        ["cut", ..] => Err(Slip::Cut),
        ["outbox", places] => match places.parse() {
            Ok(places) if places <= PLACES => Ok(Act::Aside(Aside::Outbox(places))),
            _ => Err(Slip::Outbox),
        },
        ["outbox", ..] => Err(Slip::Outbox),
        ["fill", count] => {
            let count = count.parse().map_err(|_| Slip::Fill)?;
            Ok(Act::Aside(Aside::Fill(count)))
        }
        ["fill", ..] => Err(Slip::Fill),
        ["log"] => Ok(Act::Aside(Aside::Log)),
        _ => Err(other),
    }
}

// What a call answers beside the number of what it sent.
#[derive(Clone, Copy)]
pub(crate) enum Extra {
    Seat(Seat),
    Outcome(Outcome),
}

impl fmt::Display for Extra {
    fn fmt<W: fmt::Write>(&self, f: &mut fmt::Formatter<W>) -> fmt::Result {
        match *self {
            Extra::Seat(seat) => write!(f, "seat {seat}"),
            Extra::Outcome(outcome) => {
                let name = outcome_name(outcome);
                write!(f, "outcome {name}")
            }
        }
    }
}

// The name of an outcome.
pub(crate) fn outcome_name(outcome: Outcome) -> &'static str {
    match outcome {
        Outcome::Open => "Open",
        Outcome::Committed => "Committed",
        Outcome::Aborted => "Aborted",
    }
}

// What the calls of a party are lent.
#[derive(Drop)]
pub(crate) struct Lent<L> {
    pub(crate) log: L,
    pub(crate) outbox: ArrayVec<Row, PLACES>,
}

impl<L: Log> Lent<L> {
    // A log, and an outbox of so many places.
    pub(crate) fn new(log: L, places: usize) -> Lent<L> {
        let mut lent = Lent {
            log,
            outbox: ArrayVec::new(),
        };
        lent.set_places(places);
        lent
    }

    // Gives the outbox so many places.
    fn set_places(&mut self, places: usize) {
        self.outbox.clear();
        for _ in 0..places {
            let _ = self.outbox.try_push(Row::BLANK);
        }
    }

    // Adds records of another transaction to the log, until it is full.
    fn fill(&mut self, count: u32) {
        let record = Record::new(OTHER_TRANSACTION, Entry::Decision(SeatSet::empty()));
        for _ in 0..count {
            if self.log.add(record).is_err() {
                return;
            }
        }
    }

    // Does what is asked between calls.
    pub(crate) fn put(&mut self, rt: &HostRuntime, aside: Aside) -> io::Result<()> {
        match aside {
            Aside::Outbox(places) => self.set_places(places),
            Aside::Fill(count) => self.fill(count),
            Aside::Log => print_records(rt, &self.log)?,
        }
        Ok(())
    }

    // Prints what a call did: the state's name and code, the number of the fault, what else was answered, and what was sent; the code and the number come out of the queue.
    pub(crate) fn tell<S: Copy + fmt::Display + Into<u8>>(
        &self,
        rt: &HostRuntime,
        codes: &mut Codes<'_>,
        state: S,
        extra: Option<Extra>,
        answer: Result<usize, Fault<S>>,
    ) -> io::Result<()> {
        let sent = match &answer {
            Ok(count) => *count,
            Err(fault) => fault.sent(),
        };
        codes.push(TraceEntry::of(state, answer.err()));
        if let Some(entry) = codes.pop() {
            let (code, number) = (entry.state, entry.fault);
            print!(rt; "{state} {code}, fault {number}, ")?;
        }
        if let Some(extra) = extra {
            print!(rt; "{extra}, ")?;
        }
        self.tell_sent(rt, sent)?;
        if let Err(fault) = &answer {
            println!(rt; "  {fault}")?;
        }
        Ok(())
    }

    // Prints the first rows of the outbox.
    fn tell_sent(&self, rt: &HostRuntime, count: usize) -> io::Result<()> {
        let sent = Sent {
            rows: self.outbox.as_slice(),
            count,
        };
        println!(rt; "sent {sent}")
    }
}

// What a call sent, the first rows of its outbox: it prints in one piece, since each piece is a write of its own.
#[derive(Clone, Copy)]
struct Sent<'a> {
    rows: &'a [Row],
    count: usize,
}

// Its notifications, parted by semicolons.
impl<'a> fmt::Display for Sent<'a> {
    fn fmt<W: fmt::Write>(&self, f: &mut fmt::Formatter<W>) -> fmt::Result {
        if self.count == 0 {
            return f.write_str("nothing");
        }
        for (i, row) in self.rows.iter().take(self.count).enumerate() {
            if i > 0 {
                f.write_str("; ")?;
            }
            if let Ok(notification) = Notification::try_from(*row) {
                write!(f, "{notification}")?;
            }
        }
        Ok(())
    }
}
