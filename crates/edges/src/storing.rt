ghost use Rattle.std.specs.Prelude.{◌≡◌, ◌-◌, ◌≤◌, [], replicate};
ghost use Rattle.logs.specs.Trays.{safe_in, loose_in};
ghost use Rattle.logs.specs.Sizes.{tray_length};
ghost use Rattle.edges.specs.Votes.{Casts, filler};

use crate::TRANSACTION;
use logs::log::Log;
use logs::tray::{TRAY_ROWS, Tray};
use participant::{Ballot, OUTBOX_PLACES, Participant, State};
use records::record::{Entry, Record};
use seats::seat::Seat;
use seats::set::SeatSet;
use words::fault::Fault;
use words::kind::Kind;
use words::notification::Notification;
use words::row::Row;

// A transaction that is not the one of the cases.
const OTHER_TRANSACTION: u32 = 8;

// What is to be seen of a participant: its state, its outbox, and how many places its log has left.
#[derive(Clone, Copy, PartialEq, Eq, Debug)]
pub struct StoreView {
    pub state: State,
    pub outbox: [Row; OUTBOX_PLACES],
    pub spare: usize,
}

// A vote that was cast: only `vote` makes one.
#[derive(Clone, Copy, PartialEq, Eq, Debug)]
pub struct Cast {
    ballot: Ballot,
    before: StoreView,
    answer: Result<usize, Fault<State>>,
    after: StoreView,
}

impl Cast {
    // What was voted.
    pub fn ballot(&self) -> Ballot
        ensures { result ≡ self.now.ballot }
    {
        self.ballot
    }

    // What was to be seen before.
    pub fn before(&self) -> StoreView
        ensures { result ≡ self.now.before }
    {
        self.before
    }

    // What was answered.
    pub fn answer(&self) -> Result<usize, Fault<State>>
        ensures { result ≡ self.now.answer }
    {
        self.answer
    }

    // What is to be seen behind it.
    pub fn after(&self) -> StoreView
        ensures { result ≡ self.now.after }
    {
        self.after
    }
}

// A tray with so many places to spare: records of another transaction fill the rest.
fn tray_with(spare: usize) -> Tray
    requires { spare ≤ tray_length }
    ensures safe { safe_in result ≡ [] }
    ensures loose { loose_in result ≡ replicate (tray_length - spare) filler }
{
    let filler = Record::new(OTHER_TRANSACTION, Entry::Decision(SeatSet::from_bits(0)));
    let mut log = Tray::new();
    for _ in 0..TRAY_ROWS - spare {
        let _ = log.add(filler);
    }
    log
}

// A participant that was asked to prepare votes, with so many places to spare in its log.
pub(crate) fn vote(ballot: Ballot, spare: usize) -> Cast
    requires { spare ≤ tray_length }
    ensures { Casts ballot spare result }
{
    let seat = Seat::new(0).unwrap();
    let mut log = tray_with(spare);
    let mut outbox = [Row::BLANK; OUTBOX_PLACES];
    let mut participant = Participant::join(TRANSACTION, seat);
    let prepare = Notification {
        transaction: TRANSACTION,
        seat,
        kind: Kind::Prepare,
    };
    let _ = participant.receive(prepare, &mut log, &mut outbox);
    let before = StoreView {
        state: participant.state(),
        outbox,
        spare: log.spare(),
    };
    let answer = participant.vote(ballot, &mut log, &mut outbox);
    let after = StoreView {
        state: participant.state(),
        outbox,
        spare: log.spare(),
    };
    Cast {
        ballot,
        before,
        answer,
        after,
    }
}
