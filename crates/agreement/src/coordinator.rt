ghost use Rattle.std.specs.Prelude.{◌≡◌, Some};
ghost use Rattle.std.specs.Fmt.{padded};
ghost use Rattle.agreement.specs.States.{state_code, state_name};

use std::fmt;

// What a coordinator is doing with its transaction.
#[derive(Clone, Copy, PartialEq, Eq, Debug)]
pub enum State {
    // It takes participants.
    Active,
    // Volatile participants are asked, and more of both kinds may register.
    VolatileVoting,
    // Durable participants are asked.
    DurableVoting,
    // All have voted, and none against.
    Ready,
    // The decision to commit is written and not yet secured.
    Noted,
    // It is secured, and some durable participants have not answered Commit.
    Committing,
    // It is secured, and all have answered.
    Done,
    // The transaction is rolled back.
    Rolled,
}

// Whether a participant outlasts a power cut. A volatile one is asked first, and has no log.
#[derive(Clone, Copy, PartialEq, Eq, Debug)]
pub enum Durability {
    Volatile,
    Durable,
}

// How the participant at a seat stands with its coordinator.
#[derive(Clone, Copy, PartialEq, Eq, Debug)]
pub enum Standing {
    // Not asked yet.
    Idle,
    // Asked to prepare.
    Asked,
    // It said Prepared.
    Voted,
    // It said ReadOnly or Aborted, and takes no part any more.
    Gone,
    // It said Committed.
    Heard,
}

// A place of the coordinator's table, which has one for each seat: vacant, or whose participant and how it stands.
pub type Place = Option<(Durability, Standing)>;

// What the initiator is told of the transaction. Not an Option of two outcomes: an open one is an answer like the others.
#[derive(Clone, Copy, PartialEq, Eq, Debug)]
pub enum Outcome {
    Open,
    Committed,
    Aborted,
}

// Its code in a trace.
impl From<State> for u8 {
    ghost from_gives = { λ state code. code ≡ state_code state };

    fn from(state: State) -> u8 {
        state as u8
    }
}

impl State {
    // Its name. No derive of the library's writes names.
    pub fn name(self) -> &'static str
        ensures { result.now ≡ state_name self }
    {
        match self {
            State::Active => "Active",
            State::VolatileVoting => "VolatileVoting",
            State::DurableVoting => "DurableVoting",
            State::Ready => "Ready",
            State::Noted => "Noted",
            State::Committing => "Committing",
            State::Done => "Done",
            State::Rolled => "Rolled",
        }
    }
}

// Its name, filled up and cut as a text is.
impl fmt::Display for State {
    ghost output = { λ state. Some (state_name state) };

    ghost styled_output = { λ state options. Some (padded options (state_name state)) };

    fn fmt<W: fmt::Write>(&self, f: &mut fmt::Formatter<W>) -> fmt::Result {
        f.pad(self.name())
    }
}
