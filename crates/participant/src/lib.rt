// The durable participant: a store's side of a transaction.
#![tactic(auto)]

ghost use Rattle.std.specs.Prelude.{◌≡◌, ◌<◌, ◌≤◌, MatchResult};
ghost use Rattle.agreement.specs.declared.participant.State.TheVariants.{Working};

pub use agreement::participant::{Ballot, State};
use seats::seat::Seat;
use words::fault::Fault;

// How many places the outbox of a call has at least.
pub const OUTBOX_PLACES: usize = 1;

const _: () = prove!(OUTBOX_PLACES == 1);

// A durable participant in a transaction, at a seat. Its log is lent to the calls that need it, and has to be the same one each time.
#[derive(Drop)]
pub struct Participant {
    transaction: u32,
    seat: Seat,
    state: State,
}

impl Participant {
    // A participant that joins a transaction at a seat, and works.
    pub fn join(transaction: u32, seat: Seat) -> Participant
        ensures number { result.transaction ≡ transaction }
        ensures seat { result.seat ≡ seat }
        ensures state { result.state ≡ Working }
    {
        Participant {
            transaction,
            seat,
            state: State::Working,
        }
    }

    // Its transaction.
    pub fn transaction(&self) -> u32
        ensures { result ≡ self.now.transaction }
    {
        self.transaction
    }

    // Its seat.
    pub fn seat(&self) -> Seat
        ensures { result ≡ self.now.seat }
    {
        self.seat
    }

    // Its state.
    pub fn state(&self) -> State
        ensures { result ≡ self.now.state }
    {
        self.state
    }
}

// Refuses an outbox of fewer places than a call may need.
fn check_room(places: usize) -> Result<(), Fault<State>>
    ensures { MatchResult result (λ _. 1 ≤ places) (λ e. (places < 1) × (e ≡ Fault.ShortOutbox)) }
{
    if places < OUTBOX_PLACES {
        Err(Fault::ShortOutbox)
    } else {
        Ok(())
    }
}

mod calls;
mod receiving;
mod restarting;
mod writing;
