// The logs and the line that a script chooses, and the moves that its commands come to.
use crate::limits::MOST_MOVES;
use crate::refusal::{Refusal, Slip};
use crate::script::{Bottom, Command, Gatherers, LogChoice, Opening, Order, Script};
use choices::either::Either;
use journals::journal::Journal;
use lines::line::Line;
use logs::gatherer::Gatherer;
use logs::log::Log;
use logs::tray::Tray;
use rehearsals::moves::{Call, Move};
use rehearsals::rehearsal::Rehearsal;
use rehearsals::trace::Event;
use seats::seat::{SEATS, Seat};
use std::alloc::{AllocError, Global};
use words::notification::Notification;

// A log of a kind that a script chooses.
type BottomLog = Either<Tray, Journal>;

pub(crate) type AnyLog = Either<
    BottomLog,
    Either<Gatherer<BottomLog>, Gatherer<Gatherer<BottomLog>>>,
>;

impl LogChoice {
    // A log of this kind, without records.
    fn make(self, alloc: Global) -> Result<AnyLog, AllocError> {
        let bottom = match self.bottom {
            Bottom::Tray => Either::First(Tray::new()),
            Bottom::Journal(bytes) => Either::Second(Journal::create(vec![in alloc; 0; bytes]?)),
        };
        Ok(match self.gatherers {
            Gatherers::Zero => Either::First(bottom),
            Gatherers::One => Either::Second(Either::First(Gatherer::over(bottom))),
            Gatherers::Two => {
                Either::Second(Either::Second(Gatherer::over(Gatherer::over(bottom))))
            }
        })
    }

    // So many of them.
    fn make_all(self, count: usize, alloc: Global) -> Result<Vec<AnyLog>, AllocError> {
        let mut logs = Vec::new(alloc);
        for _ in 0..count {
            logs.push(self.make(alloc)?)?;
        }
        Ok(logs)
    }
}

// The logs of a rehearsal: the coordinator's, and those with which stores join.
#[derive(Drop)]
pub(crate) struct Logs<L> {
    pub(crate) coordinators: L,
    pub(crate) stores: Vec<L>,
}

impl Opening {
    // The logs that it chooses, for so many stores.
    pub(crate) fn logs(&self, stores: usize, alloc: Global) -> Result<Logs<AnyLog>, AllocError> {
        Ok(Logs {
            coordinators: self.log.make(alloc)?,
            stores: self.stores.make_all(stores, alloc)?,
        })
    }
}

// Why the commands of a script come to no more moves.
#[derive(Clone, Copy)]
enum Halt {
    Memory,
    // there are as many as a rehearsal may have
    Moves,
}

impl From<AllocError> for Halt {
    fn from(_why: AllocError) -> Halt {
        Halt::Memory
    }
}

impl Halt {
    // The refusal of the command at which it came, on the line with this number.
    fn refusal(self, number: u64, command: Command) -> Refusal<'static> {
        let slip = match (self, command) {
            (Halt::Memory, _) => return Refusal::Unplayed,
            (Halt::Moves, Command::Run(_)) => Slip::RunMoves,
            (Halt::Moves, _) => Slip::Moves,
        };
        Refusal::Line { number, slip }
    }
}

// A rehearsal in which it is found out to which moves the commands of a script come: those that post what a call gave, deliver or run go by what happened.
pub(crate) struct Staging<L, N> {
    rehearsal: Rehearsal<L, L, N>,
    moves: Vec<Move>,
    // which notifications the last call gave
    from: usize,
    to: usize,
}

impl<L: Log + Drop, N: Line> Staging<L, N> {
    // A staging of a rehearsal that was just opened.
    pub(crate) fn of(rehearsal: Rehearsal<L, L, N>, alloc: Global) -> Staging<L, N> {
        Staging {
            rehearsal,
            moves: Vec::new(alloc),
            from: 0,
            to: 0,
        }
    }

    // The moves, in their order.
    pub(crate) fn end(self) -> Vec<Move>
    where
        N: Drop,
    {
        let Staging {
            rehearsal,
            moves,
            from: _,
            to: _,
        } = self;
        rehearsal.close();
        moves
    }

    // Does what the commands of a script ask for.
    pub(crate) fn follow(&mut self, script: &Script) -> Result<(), Refusal<'static>> {
        for Order { number, command } in &script.orders {
            self.obey(*command)
                .map_err(|halt| halt.refusal(*number, *command))?;
        }
        Ok(())
    }

    // Does what a command asks for.
    fn obey(&mut self, command: Command) -> Result<(), Halt> {
        match command {
            Command::Move(next) => {
                self.make(next)?;
                Ok(())
            }
            Command::PostLast => self.post_asked(),
            Command::Deliver => {
                self.deliver()?;
                Ok(())
            }
            Command::Run(times) => self.run(times),
        }
    }

    // Makes a move, and tells whether anything changed.
    fn make(&mut self, next: Move) -> Result<bool, Halt> {
        if self.moves.len() >= MOST_MOVES {
            return Err(Halt::Moves);
        }
        let desk = self.rehearsal.desk();
        let coordinator = desk.state();
        let participant = next.seat().and_then(|seat| desk.state_at(seat));
        let given = desk.given().len();
        self.moves.push(next).map_err(|_| Halt::Memory)?;
        self.rehearsal.play_one(next)?;
        let Some(entry) = self.rehearsal.trace().last() else {
            return Ok(false);
        };
        match entry.event {
            Event::Posted | Event::Took(_) | Event::Impossible => {}
            _ => {
                self.from = given;
                self.to = entry.given;
            }
        }
        let taken = matches!(entry.event, Event::Took(Some(_)));
        Ok(
            taken
                || entry.coordinator != coordinator
                || entry.participant != participant
                || entry.given != given,
        )
    }

    // Posts all that the last call gave; where it gave nothing, a notification is posted that there is not, so that the trace says so.
    fn post_asked(&mut self) -> Result<(), Halt> {
        if self.from == self.to {
            self.make(Move::Post(self.to))?;
        }
        self.post_last()
    }

    // Posts all that the last call gave, in its order.
    fn post_last(&mut self) -> Result<(), Halt> {
        for number in self.from..self.to {
            self.make(Move::Post(number))?;
        }
        Ok(())
    }

    // Takes a notification, hands it to whom it is for, if it has joined, posts what that gives, and tells whether anything changed.
    fn deliver(&mut self) -> Result<bool, Halt> {
        self.make(Move::Take)?;
        let Some(entry) = self.rehearsal.trace().last() else {
            return Ok(false);
        };
        let Event::Took(Some(notification)) = entry.event else {
            return Ok(false);
        };
        self.hand(notification)?;
        Ok(true)
    }

    // Hands the notification that was taken last to whom it is for.
    fn hand(&mut self, notification: Notification) -> Result<(), Halt> {
        let desk = self.rehearsal.desk();
        let number = desk.taken().len().saturating_sub(1);
        let call = Call::Receive(number);
        let seat = notification.seat;
        if notification.kind.goes_up() {
            self.make(Move::Coordinator(call))?;
        } else if desk.state_at(seat).is_some() {
            self.make(Move::Participant(seat, call))?;
        } else {
            return Ok(());
        }
        self.post_last()
    }

    // Every party settles and posts, and one notification is delivered, so many times at most, until nothing changes.
    fn run(&mut self, times: u32) -> Result<(), Halt> {
        for _ in 0..times {
            let settled = self.settle_all()?;
            let delivered = self.deliver()?;
            if !settled && !delivered {
                return Ok(());
            }
        }
        Ok(())
    }

    // Every party settles and posts what that gives; tells whether anything changed.
    fn settle_all(&mut self) -> Result<bool, Halt> {
        let mut changed = self.make(Move::Coordinator(Call::Settle))?;
        self.post_last()?;
        for number in 0..SEATS {
            if let Some(seat) = Seat::new(number)
                && self.rehearsal.desk().state_at(seat).is_some()
            {
                changed |= self.make(Move::Participant(seat, Call::Settle))?;
                self.post_last()?;
            }
        }
        Ok(changed)
    }
}
