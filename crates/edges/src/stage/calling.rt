ghost use Rattle.std.specs.Prelude.{◌≡◌, replicate};
ghost use Rattle.agreement.specs.Turns.{reply_of};
ghost use Rattle.coordinator.specs.Calls.{registered_reply};
ghost use Rattle.edges.specs.Stages.{Makes, Shows, Views, head_of, opening, reply_in, mark, told_of};
ghost use Rattle.words.specs.Rows.{blank_row};
ghost use Rattle.edges.specs.declared.stage.Call.TheVariants.{Register, AskCommit, Hear, Expire, Settle, Restart};

use super::{Answer, Call, Shown, Stage, View};
use crate::TRANSACTION;
use agreement::coordinator::{Place, State};
use coordinator::{ClosingRight, Coordinator, Durability, OUTBOX_PLACES, Registered, Told};
use logs::log::Log;
use logs::tray::Tray;
use seats::seat::{SEATS, Seat};
use words::fault::Fault;
use words::kind::Kind;
use words::notification::Notification;
use words::row::Row;

// A row that no call writes: no kind has the number 9.
const MARK: Row = Row {
    transaction: 9,
    seat: 9,
    kind: 9,
};

impl Stage {
    // The transaction just opened.
    pub(crate) fn open() -> (Stage, ClosingRight)
        ensures head { head_of result.0 ≡ opening }
        ensures outbox { result.0.outbox ≡ replicate 16 blank_row }
        ensures right { result.1.transaction ≡ 7 }
    {
        let (coordinator, right) = Coordinator::open(TRANSACTION);
        let stage = Stage {
            coordinator,
            log: Tray::new(),
            outbox: [Row::BLANK; OUTBOX_PLACES],
        };
        (stage, right)
    }

    // Writes a mark at each place of the outbox.
    pub(crate) fn mark(&mut self)
        ensures head { head_of self.new ≡ head_of self.old }
        ensures outbox { self.new.outbox ≡ replicate 16 mark }
    {
        self.outbox = [MARK; OUTBOX_PLACES];
    }

    // What is to be seen.
    fn view(&self) -> View
        ensures head { Views (head_of self.now) result }
        ensures outbox { result.outbox ≡ self.now.outbox }
    {
        let safe = self.log.secured();
        View {
            state: self.coordinator.state(),
            table: table_of(&self.coordinator),
            safe,
            loose: self.log.count() - safe,
            outbox: self.outbox,
        }
    }

    // A participant registers.
    pub(crate) fn register(&mut self, durability: Durability) -> Shown
        ensures { Makes (Register durability) self.old self.new result }
    {
        let before = self.view();
        let answer = seated(self.coordinator.register(durability, &mut self.outbox));
        self.shown(Call::Register(durability), before, answer)
    }

    // The initiator asks to commit.
    pub(crate) fn ask_commit(&mut self, right: ClosingRight) -> Shown
        requires { right.transaction ≡ 7 }
        ensures { Makes AskCommit self.old self.new result }
    {
        let before = self.view();
        match self.coordinator.ask_commit(right, &mut self.outbox) {
            Ok(Told { outcome, sent }) => {
                self.shown(Call::AskCommit, before, Answer::Told { outcome, sent })
            }
            Err(returned) => unreachable(),
        }
    }

    // A notification of a seat comes.
    pub(crate) fn hear(&mut self, seat: Seat, kind: Kind) -> Shown
        ensures { Makes (Hear seat.value kind) self.old self.new result }
    {
        let before = self.view();
        let notification = Notification {
            transaction: TRANSACTION,
            seat,
            kind,
        };
        let answer = sent(self.coordinator.receive(notification, &mut self.outbox));
        self.shown(Call::Hear(seat.number(), kind), before, answer)
    }

    // Its time is up.
    pub(crate) fn expire(&mut self) -> Shown
        ensures { Makes Expire self.old self.new result }
    {
        let before = self.view();
        let answer = sent(self.coordinator.expire(&mut self.outbox));
        self.shown(Call::Expire, before, answer)
    }

    // It settles.
    pub(crate) fn settle(&mut self) -> Shown
        ensures { Makes Settle self.old self.new result }
    {
        let before = self.view();
        let answer = sent(self.coordinator.settle(&mut self.log, &mut self.outbox));
        self.shown(Call::Settle, before, answer)
    }

    // The power goes and comes back.
    pub(crate) fn restart(self, n: u32) -> Shown
        ensures { Shows (Restart n) (head_of self) result }
    {
        let before = self.view();
        let Stage {
            coordinator,
            mut log,
            outbox,
        } = self;
        let coordinator = coordinator.restart(&mut log, n);
        let stage = Stage {
            coordinator,
            log,
            outbox,
        };
        stage.shown(Call::Restart(n), before, Answer::Sent(0))
    }

    // The call that was made.
    fn shown(&self, call: Call, before: View, answer: Answer) -> Shown
        ensures call { result.call ≡ call }
        ensures before { result.before ≡ before }
        ensures answer { result.answer ≡ answer }
        ensures after { Views (head_of self.now) result.after }
        ensures outbox { result.after.outbox ≡ self.now.outbox }
    {
        Shown {
            call,
            before,
            answer,
            after: self.view(),
        }
    }
}

// The table of a coordinator, seat by seat.
fn table_of(coordinator: &Coordinator) -> [Place; OUTBOX_PLACES]
    ensures { result ≡ told_of coordinator.now.table }
{
    let mut table = [None; OUTBOX_PLACES];
    for number in 0..SEATS {
        table[usize::from(number)] = coordinator.place(Seat::new(number).unwrap());
    }
    table
}

// The answer to registering.
fn seated(answer: Result<Registered, Fault<State>>) -> Answer
    ensures { reply_in result ≡ registered_reply answer }
{
    match answer {
        Ok(Registered { seat, sent }) => Answer::Seated {
            seat: seat.number(),
            sent,
        },
        Err(fault) => Answer::Refused(fault),
    }
}

// The answer to most calls.
fn sent(answer: Result<usize, Fault<State>>) -> Answer
    ensures { reply_in result ≡ reply_of answer }
{
    match answer {
        Ok(sent) => Answer::Sent(sent),
        Err(fault) => Answer::Refused(fault),
    }
}
