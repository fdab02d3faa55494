// A coordinator and the right to close its transaction.
ghost use Rattle.measured.specs.Own.{RightOwn};

use agreement::coordinator::{Durability, State};
use coordinator::{ClosingRight, Coordinator, OUTBOX_PLACES, Registered, Returned, Told};
use logs::log::Log;
use words::fault::Fault;
use words::notification::Notification;
use words::row::Row;

// How a transaction is closed.
#[derive(Clone, Copy, Drop)]
pub(crate) enum Closing {
    Commit,
    Rollback,
}

// A coordinator, and its right until that is spent.
pub(crate) struct Opened {
    coordinator: Coordinator,
    right: Option<ClosingRight>,
    ghost own: { RightOwn coordinator.transaction right },
}

impl Opened {
    pub(crate) fn new(transaction: u32) -> Opened {
        let (coordinator, right) = Coordinator::open(transaction);
        Opened {
            coordinator,
            right: Some(right),
        }
    }

    // Registers a participant.
    pub(crate) fn register(
        &mut self,
        durability: Durability,
        outbox: &mut [Row],
    ) -> Result<Registered, Fault<State>> {
        self.coordinator.register(durability, outbox)
    }

    // The coordinator, to be looked at.
    pub(crate) fn coordinator(&self) -> &Coordinator {
        &self.coordinator
    }

    pub(crate) fn receive(
        &mut self,
        heard: Notification,
        outbox: &mut [Row],
    ) -> Result<usize, Fault<State>> {
        self.coordinator.receive(heard, outbox)
    }

    pub(crate) fn settle<L: Log>(
        &mut self,
        log: &mut L,
        outbox: &mut [Row],
    ) -> Result<usize, Fault<State>> {
        self.coordinator.settle(log, outbox)
    }

    pub(crate) fn expire(&mut self, outbox: &mut [Row]) -> Result<usize, Fault<State>> {
        self.coordinator.expire(outbox)
    }

    pub(crate) fn resend(&mut self, outbox: &mut [Row]) -> Result<usize, Fault<State>> {
        self.coordinator.resend(outbox)
    }

    // Asks with the right, which it keeps where the call hands it back; none where it is spent.
    pub(crate) fn close(
        self,
        closing: Closing,
        outbox: &mut [Row],
    ) -> (Opened, Option<Result<Told, Fault<State>>>) {
        let Opened {
            mut coordinator,
            right,
        } = self;
        let asked = match (right, closing) {
            (None, _) => None,
            (Some(right), Closing::Commit) => Some(coordinator.ask_commit(right, outbox)),
            (Some(right), Closing::Rollback) => Some(coordinator.ask_rollback(right, outbox)),
        };
        let (right, answer) = match asked {
            None => (None, None),
            Some(Ok(told)) => (None, Some(Ok(told))),
            Some(Err(Returned { right, fault })) => (Some(right), Some(Err(fault))),
        };
        (Opened { coordinator, right }, answer)
    }

    // Asks to commit with the right of the next transaction, which is spent afterwards.
    pub(crate) fn refuse(&mut self, outbox: &mut [Row]) -> Option<Fault<State>> {
        let other = self.coordinator.transaction().wrapping_add(1);
        let (coordinator, right) = Coordinator::open(other);
        match self.coordinator.ask_commit(right, outbox) {
            Ok(_) => None,
            Err(Returned { right, fault }) => {
                let back = Opened {
                    coordinator,
                    right: Some(right),
                };
                let _ = back.end();
                Some(fault)
            }
        }
    }

    // The power goes and comes back.
    pub(crate) fn cut<L: Log>(self, log: &mut L, n: u32) -> Opened {
        let Opened { coordinator, right } = self;
        Opened {
            coordinator: coordinator.restart(log, n),
            right,
        }
    }

    // Spends a right that is still there, and nobody hears of it.
    pub(crate) fn end(self) -> Coordinator {
        let Opened {
            mut coordinator,
            right,
        } = self;
        if let Some(right) = right {
            let mut outbox = [Row::BLANK; OUTBOX_PLACES];
            match coordinator.ask_rollback(right, &mut outbox) {
                Ok(_) => {}
                Err(returned) => unreachable(),
            }
        }
        coordinator
    }
}
