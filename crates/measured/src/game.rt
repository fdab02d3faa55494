// One coordinator, four stores and the line between them, played call by call.
use crate::asking::{Asked, STORES, coordinator_asked, store_asked, store_places};
use crate::closing::Opened;
use crate::coding::made;
use crate::committing::post;
use crate::keeping::Kept;
use crate::playing::{Said, Setting};
use crate::reopening::fill;
use crate::sink::Sink;
use crate::store::Store;
use crate::telling::{tell_answer, tell_coordinator, tell_counts, tell_log, tell_read, tell_rows};
use lines::line::Line;
use lines::queue::Queue;
use logs::log::Log;
use participant::Participant;
use seats::seat::Seat;
use std::alloc::{AllocError, Global};
use words::fault::Fault;
use words::row::Row;

// An outbox before a call: rows that are no notification's.
const OUTBOX: [Row; 20] = [Row {
    transaction: 1,
    seat: 99,
    kind: 9,
}; 20];

pub(crate) struct Game<'a, L> {
    transaction: u32,
    opened: Opened,
    log: L,
    stores: Vec<Store<L>>,
    line: Queue<'a, Row>,
}

impl<'a, L: Kept> Game<'a, L> {
    // Everything as it is before the first call.
    pub(crate) fn set(
        alloc: Global,
        setting: Setting,
        line: Queue<'a, Row>,
    ) -> Result<Game<'a, L>, AllocError> {
        let mut stores = Vec::new(alloc);
        for number in 0..STORES {
            if let Some(seat) = Seat::new(number) {
                let mut log = L::made(alloc, setting.places)?;
                fill(&mut log, setting.held);
                stores.push(Store {
                    participant: Participant::join(setting.transaction, seat),
                    log,
                })?;
            }
        }
        let mut log = L::made(alloc, setting.places)?;
        fill(&mut log, setting.held);
        Ok(Game {
            transaction: setting.transaction,
            opened: Opened::new(setting.transaction),
            log,
            stores,
            line,
        })
    }

    // Makes a call, and tells what there is to see.
    pub(crate) fn play(mut self, said: Said, sink: &mut Sink<'_>) -> Game<'a, L> {
        let call = said.call % 32;
        sink.put(call);
        match call {
            0..=9 => self = self.deliver(said, sink),
            12 => self = self.close(said, sink),
            19 => self = self.begin(said, sink),
            20 => self.join(said),
            21..=29 => {
                let asked = store_asked(said, self.transaction);
                self.take_part(said.who % STORES, said.number, asked, sink);
            }
            30 => self.keep(said, sink),
            31 => self = self.refuse(said, sink),
            _ => {
                let asked = coordinator_asked(said, self.transaction);
                self = self.coordinate(said.number, asked, sink);
            }
        }
        sink.put_short(self.line.len());
        sink.put_short(self.line.room());
        sink.put_short((self.line.posts() % 65536) as usize);
        self
    }

    // Takes what the line gives, and gives it to its receiver.
    fn deliver(mut self, said: Said, sink: &mut Sink<'_>) -> Game<'a, L> {
        match self.line.take() {
            None => self,
            Some(heard) if heard.kind.goes_up() => {
                self.coordinate(said.number, Asked::Hear(heard), sink)
            }
            Some(heard) => {
                self.take_part(heard.seat.number(), said.number, Asked::Hear(heard), sink);
                self
            }
        }
    }

    // One store joins the transaction, or all do.
    fn join(&mut self, said: Said) {
        for (number, store) in (0u8..).zip(self.stores.iter_mut()) {
            let chosen = said.what % 4 != 0 || number == said.who % STORES;
            if let (true, Some(seat)) = (chosen, Seat::new(number)) {
                store.participant = Participant::join(self.transaction, seat);
            }
        }
    }

    // Asks a store, if there is one, and tells what it did.
    fn take_part(&mut self, who: u8, number: u8, asked: Asked, sink: &mut Sink<'_>) {
        let mut rows = OUTBOX;
        let outbox = &mut rows[..store_places(number)];
        let Some(store) = self.stores.get_mut(usize::from(who)) else {
            return;
        };
        let participant = &mut store.participant;
        let answer = match asked {
            Asked::Vote(ballot) => participant.vote(ballot, &mut store.log, outbox),
            Asked::Hear(heard) => participant.receive(heard, &mut store.log, outbox),
            Asked::Settle => participant.settle(&mut store.log, outbox),
            Asked::Expire => participant.expire(outbox),
            Asked::Resend => participant.resend(outbox),
            Asked::Restart(n) => {
                store.cut(n);
                Ok(0)
            }
            Asked::Register(_) | Asked::Look => Ok(0),
        };
        let sent = sent_by(&answer);
        tell_answer(sink, answer);
        sink.put(store.participant.state().into());
        tell_counts(sink, &store.log);
        tell_rows(sink, outbox);
        post(outbox, sent, &mut self.line);
    }

    // Asks a log.
    fn keep(&mut self, said: Said, sink: &mut Sink<'_>) {
        let transaction = self.transaction.wrapping_add(u32::from(said.number % 2));
        match self.stores.get_mut(usize::from(said.who % 5)) {
            Some(store) => keep_in(&mut store.log, transaction, said, sink),
            None => keep_in(&mut self.log, transaction, said, sink),
        }
    }

    // Tells every log, and spends the right.
    pub(crate) fn end(self, sink: &mut Sink<'_>) {
        let Game {
            transaction: _,
            opened,
            log,
            stores,
            line: _,
        } = self;
        tell_coordinator(sink, &opened.end());
        tell_log(sink, &log);
        log.show(sink);
        for store in &stores {
            tell_log(sink, &store.log);
            store.log.show(sink);
        }
    }
}

// What a log is asked by a call.
fn keep_in<L: Log>(log: &mut L, transaction: u32, said: Said, sink: &mut Sink<'_>) {
    match said.what % 4 {
        0 => {
            let bits = u16::from(said.number) * 257;
            match log.add(made(said.what / 4 % 4 + 1, transaction, bits)) {
                Ok(()) => sink.put(0),
                Err(full) => sink.put_short(full.capacity),
            }
        }
        1 => log.secure(),
        2 => tell_read(sink, log, usize::from(said.number)),
        _ => log.restart(u32::from(said.number)),
    }
    tell_counts(sink, log);
}

// How many notifications a call wrote, in answering or refusing.
fn sent_by<S: Copy>(answer: &Result<usize, Fault<S>>) -> usize {
    match answer {
        Ok(sent) => *sent,
        Err(fault) => fault.sent(),
    }
}

mod coordinating;
