// The coordinator: it gathers the votes of a transaction's participants, and decides it.
#![tactic(auto)]

ghost use Rattle.std.specs.Prelude.{◌≡◌, slice_index_or};
ghost use Rattle.agreement.specs.CoordinatorRules.{opened, outcome_of};

pub use agreement::coordinator::{Durability, Outcome, Place, Standing, State};
use seats::seat::{SEATS, Seat};

mod advancing;
mod answers;
mod calls;
mod giving;
mod group;
mod receiving;
mod restarting;
mod right;
mod settling;
mod table;

pub use answers::{Registered, Returned, Told};
pub use right::ClosingRight;

// How many places the table has: one for each seat.
const PLACES: usize = SEATS as usize;

// How many places the outbox of a call has at least: a call gives each seat at most one notification.
pub const OUTBOX_PLACES: usize = PLACES;

const _: () = prove!(OUTBOX_PLACES == 16);

// The coordinator of a transaction.
#[derive(Drop)]
pub struct Coordinator {
    transaction: u32,
    state: State,
    table: [Place; PLACES],
}

impl Coordinator {
    // The coordinator of a transaction that just opened, with no seat taken, and the right to close the transaction.
    pub fn open(transaction: u32) -> (Coordinator, ClosingRight)
        ensures number { result.0.transaction ≡ transaction }
        ensures state { result.0.state ≡ opened.state }
        ensures table { result.0.table ≡ opened.table }
        ensures right { result.1.transaction ≡ transaction }
    {
        let coordinator = Coordinator {
            transaction,
            state: State::Active,
            table: [None; PLACES],
        };
        (coordinator, ClosingRight::new(transaction))
    }

    // Its transaction.
    pub fn transaction(&self) -> u32
        ensures { result ≡ self.now.transaction }
    {
        self.transaction
    }

    // Its state.
    pub fn state(&self) -> State
        ensures { result ≡ self.now.state }
    {
        self.state
    }

    // The place of a seat in its table.
    pub fn place(&self, seat: Seat) -> Place
        ensures { result ≡ slice_index_or self.now.table seat.value None }
    {
        self.table[usize::from(seat.number())]
    }

    // What the initiator is told now.
    pub fn outcome(&self) -> Outcome
        ensures { result ≡ outcome_of self.now.state }
    {
        match self.state {
            State::Committing | State::Done => Outcome::Committed,
            State::Rolled => Outcome::Aborted,
            _ => Outcome::Open,
        }
    }
}
