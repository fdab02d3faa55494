// The play of a coordinator: each line of input is a call, and what it did is told.
ghost use Rattle.desks.specs.Own.{RightOwn};

use crate::calling::{Act, Extra, Lent, PLACES, TRANSACTION, read_act, words_of};
use crate::codes::Codes;
use crate::playing::{Play, play_all};
use crate::reading::{read_durability, read_kind, read_seat};
use crate::refusal::{Refusal, Slip};
use crate::scene::steps::Closing;
use agreement::coordinator::{Durability, State};
use coordinator::{ClosingRight, Coordinator, Returned, Told};
use core::mem::replace_with;
use logs::log::Log;
use words::fault::Fault;
use words::notification::Notification;
use words::row::Row;

// What only a coordinator is asked.
#[derive(Clone, Copy)]
enum Asking {
    Register(Durability),
    Close(Closing),
    Outcome,
}

// What a call answered: what it says beside what it sent, and how many notifications these are, or its fault.
type Answer = (Option<Extra>, Result<usize, Fault<State>>);

// A coordinator that is played, the right to close its transaction until that is spent, and what its calls are lent.
struct Coordinating<L> {
    coordinator: Coordinator,
    right: Option<ClosingRight>,
    lent: Lent<L>,
    ghost own: { RightOwn coordinator.transaction right },
}

impl<L: Log> Coordinating<L> {
    // Does what only a coordinator is asked.
    fn ask(&mut self, asking: Asking) -> Result<Answer, Slip> {
        match asking {
            Asking::Register(durability) => Ok(self.register(durability)),
            Asking::Close(closing) => replace_with(self, closing, Coordinating::closed),
            Asking::Outcome => Ok((Some(Extra::Outcome(self.coordinator.outcome())), Ok(0))),
        }
    }

    fn register(&mut self, durability: Durability) -> Answer {
        let outbox = self.lent.outbox.as_mut_slice();
        match self.coordinator.register(durability, outbox) {
            Ok(registered) => (Some(Extra::Seat(registered.seat)), Ok(registered.sent)),
            Err(fault) => (None, Err(fault)),
        }
    }

    // Asks with the closing right, which it keeps where the call hands it back.
    fn closed(self, closing: Closing) -> (Coordinating<L>, Result<Answer, Slip>) {
        let Coordinating {
            mut coordinator,
            right,
            mut lent,
        } = self;
        let outbox = lent.outbox.as_mut_slice();
        let asked = match (right, closing) {
            (None, _) => None,
            (Some(right), Closing::Commit) => Some(coordinator.ask_commit(right, outbox)),
            (Some(right), Closing::Rollback) => Some(coordinator.ask_rollback(right, outbox)),
        };
        let (right, answer) = match asked {
            None => (None, Err(Slip::Spent)),
            Some(Ok(told)) => (
                None,
                Ok((Some(Extra::Outcome(told.outcome)), Ok(told.sent))),
            ),
            Some(Err(Returned { right, fault })) => (Some(right), Ok((None, Err(fault)))),
        };
        let game = Coordinating {
            coordinator,
            right,
            lent,
        };
        (game, answer)
    }

    // The power goes and comes back: another coordinator takes the old one's place, by the log.
    fn restarted(self, n: u32) -> (Coordinating<L>, ()) {
        let Coordinating {
            coordinator,
            right,
            mut lent,
        } = self;
        let game = Coordinating {
            coordinator: coordinator.restart(&mut lent.log, n),
            right,
            lent,
        };
        (game, ())
    }
}

impl<L: Log + Drop> Coordinating<L> {
    // Ends the play. A closing right that is still there is spent, and nobody hears of it.
    fn end(self) {
        let Coordinating {
            mut coordinator,
            right,
            lent: _,
        } = self;
        if let Some(right) = right {
            let mut outbox = [Row::BLANK; PLACES];
            match coordinator.ask_rollback(right, &mut outbox) {
                Ok(_) => {}
                Err(returned) => unreachable(),
            }
        }
    }
}

impl<L: Log> Play for Coordinating<L> {
    type Step = Act<Asking>;

    fn read(&self, line: &str) -> Result<Option<Act<Asking>>, Slip> {
        let words = words_of(line);
        let act = match words.as_slice() {
            [] => return Ok(None),
            ["register", durability] => Act::Own(Asking::Register(read_durability(durability)?)),
            ["register", ..] => return Err(Slip::Durability),
            ["commit"] => Act::Own(Asking::Close(Closing::Commit)),
            ["rollback"] => Act::Own(Asking::Close(Closing::Rollback)),
            ["outcome"] => Act::Own(Asking::Outcome),
            ["receive", seat, kind] => Act::Receive(Notification {
                transaction: TRANSACTION,
                seat: read_seat(seat)?,
                kind: read_kind(kind)?,
            }),
            ["receive", ..] => read_act(words.as_slice(), Slip::ReceiveSeatParts)?,
            _ => read_act(words.as_slice(), Slip::CoordinatorCall)?,
        };
        Ok(Some(act))
    }

    fn take(
        &mut self,
        rt: &HostRuntime,
        codes: &mut Codes<'_>,
        act: Act<Asking>,
    ) -> Result<(), Refusal<'static>> {
        let Lent { log, outbox } = &mut self.lent;
        let outbox = outbox.as_mut_slice();
        // a match: each act is another call with other arguments
        let (extra, answer) = match act {
            Act::Own(asking) => self.ask(asking)?,
            Act::Receive(notification) => (None, self.coordinator.receive(notification, outbox)),
            Act::Settle => (None, self.coordinator.settle(log, outbox)),
            Act::Expire => (None, self.coordinator.expire(outbox)),
            Act::Resend => (None, self.coordinator.resend(outbox)),
            Act::Cut(n) => {
                replace_with(self, n, Coordinating::restarted);
                (None, Ok(0))
            }
            Act::Aside(aside) => {
                self.lent.put(rt, aside)?;
                return Ok(());
            }
        };
        let state = self.coordinator.state();
        self.lent.tell(rt, codes, state, extra, answer)?;
        Ok(())
    }
}

// Plays a coordinator over a log.
pub(crate) fn play_coordinator<L: Log + Drop>(
    rt: &HostRuntime,
    log: L,
) -> Result<(), Refusal<'static>> {
    let (coordinator, right) = Coordinator::open(TRANSACTION);
    let mut game = Coordinating {
        coordinator,
        right: Some(right),
        lent: Lent::new(log, PLACES),
    };
    let played = play_all(rt, &mut game);
    game.end();
    played
}
