// What a play asks the coordinator.
use super::{Game, OUTBOX, sent_by};
use crate::asking::{Asked, coordinator_places};
use crate::closing::{Closing, Opened};
use crate::committing::post;
use crate::keeping::Kept;
use crate::playing::Said;
use crate::sink::Sink;
use crate::telling::{
    outcome_number, tell_answer, tell_coordinator, tell_counts, tell_fault, tell_rows,
};
use agreement::coordinator::{Durability, State};
use words::fault::Fault;
use words::row::Row;

impl<'a, L: Kept> Game<'a, L> {
    // Asks the coordinator, and tells what it did.
    pub(super) fn coordinate(self, number: u8, asked: Asked, sink: &mut Sink<'_>) -> Game<'a, L> {
        if let Asked::Restart(n) = asked {
            return self.restart(n, sink);
        }
        let Game {
            transaction,
            mut opened,
            mut log,
            stores,
            mut line,
        } = self;
        let mut rows = OUTBOX;
        let outbox = &mut rows[..coordinator_places(number)];
        let answer = match asked {
            Asked::Register(durability) => register(&mut opened, durability, outbox, sink),
            Asked::Hear(heard) => opened.receive(heard, outbox),
            Asked::Settle => opened.settle(&mut log, outbox),
            Asked::Expire => opened.expire(outbox),
            Asked::Resend => opened.resend(outbox),
            _ => Ok(0),
        };
        let sent = sent_by(&answer);
        tell_answer(sink, answer);
        tell_rows(sink, outbox);
        post(outbox, sent, &mut line);
        tell_coordinator(sink, opened.coordinator());
        tell_counts(sink, &log);
        Game {
            transaction,
            opened,
            log,
            stores,
            line,
        }
    }

    // The power goes and comes back at the coordinator.
    fn restart(self, n: u32, sink: &mut Sink<'_>) -> Game<'a, L> {
        let Game {
            transaction,
            opened,
            mut log,
            stores,
            line,
        } = self;
        let opened = opened.cut(&mut log, n);
        tell_coordinator(sink, opened.coordinator());
        tell_counts(sink, &log);
        Game {
            transaction,
            opened,
            log,
            stores,
            line,
        }
    }

    // Asks with the closing right, if it is still there.
    pub(super) fn close(self, said: Said, sink: &mut Sink<'_>) -> Game<'a, L> {
        let Game {
            transaction,
            opened,
            log,
            stores,
            mut line,
        } = self;
        let closing = if said.what % 8 == 0 {
            Closing::Rollback
        } else {
            Closing::Commit
        };
        let mut rows = OUTBOX;
        let outbox = &mut rows[..coordinator_places(said.number)];
        let (opened, answer) = opened.close(closing, outbox);
        match answer {
            None => sink.put(255),
            Some(Ok(told)) => {
                sink.put(0);
                sink.put_short(told.sent);
                sink.put(outcome_number(told.outcome));
                post(outbox, told.sent, &mut line);
            }
            Some(Err(fault)) => tell_fault(sink, fault),
        }
        tell_rows(sink, outbox);
        tell_coordinator(sink, opened.coordinator());
        Game {
            transaction,
            opened,
            log,
            stores,
            line,
        }
    }

    // Ends the transaction and opens the next, one time in four.
    pub(super) fn begin(self, said: Said, sink: &mut Sink<'_>) -> Game<'a, L> {
        if said.what % 4 != 0 {
            return self;
        }
        let Game {
            transaction,
            opened,
            log,
            stores,
            line,
        } = self;
        let old = opened.end();
        tell_coordinator(sink, &old);
        let transaction = transaction.wrapping_add(1);
        Game {
            transaction,
            opened: Opened::new(transaction),
            log,
            stores,
            line,
        }
    }

    // Asks with another transaction's right.
    pub(super) fn refuse(mut self, said: Said, sink: &mut Sink<'_>) -> Game<'a, L> {
        let mut rows = OUTBOX;
        let outbox = &mut rows[..coordinator_places(said.number)];
        match self.opened.refuse(outbox) {
            Some(fault) => tell_fault(sink, fault),
            None => sink.put(0),
        }
        tell_rows(sink, outbox);
        tell_coordinator(sink, self.opened.coordinator());
        self
    }
}

// Registers a participant, and tells its seat.
fn register(
    opened: &mut Opened,
    durability: Durability,
    outbox: &mut [Row],
    sink: &mut Sink<'_>,
) -> Result<usize, Fault<State>> {
    let registered = opened.register(durability, outbox)?;
    sink.put(registered.seat.number());
    Ok(registered.sent)
}
