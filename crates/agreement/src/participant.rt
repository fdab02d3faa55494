ghost use Rattle.std.specs.Prelude.{◌≡◌, Some, codes};
ghost use Rattle.std.specs.Result.{result_ok};
ghost use Rattle.seats.specs.Exactly.{Exactly};
ghost use Rattle.std.specs.Fmt.{padded};
ghost use Rattle.agreement.specs.States.{part_code, part_name, ballot_name};

use std::error::Error;
use std::fmt;
use std::str::FromStr;

// What a durable participant is doing with its transaction.
#[derive(Clone, Copy, PartialEq, Eq, Debug)]
pub enum State {
    // It works on the step.
    Working,
    // It is asked to prepare, and has not voted.
    Voting,
    // Its vote for the step is written and not yet secured.
    Noted,
    // It voted for the step, and waits for the outcome.
    InDoubt,
    // That it keeps the step is written and not yet secured.
    Keeping,
    // That it undoes the step is written and not yet secured.
    Undoing,
    // It kept the step.
    Kept,
    // It undid the step.
    Undone,
    // It only read, and takes no part any more.
    Viewed,
    // It was restarted and finds no record of the transaction.
    Unknown,
}

// How a participant votes.
#[derive(Clone, Copy, PartialEq, Eq, Debug)]
pub enum Ballot {
    Prepared,
    ReadOnly,
    Aborted,
}

// Its code in a trace.
impl From<State> for u8 {
    ghost from_gives = { λ state code. code ≡ part_code state };

    fn from(state: State) -> u8 {
        state as u8
    }
}

impl State {
    // Its name. No derive of the library's writes names.
    pub fn name(self) -> &'static str
        ensures { result.now ≡ part_name self }
    {
        match self {
            State::Working => "Working",
            State::Voting => "Voting",
            State::Noted => "Noted",
            State::InDoubt => "InDoubt",
            State::Keeping => "Keeping",
            State::Undoing => "Undoing",
            State::Kept => "Kept",
            State::Undone => "Undone",
            State::Viewed => "Viewed",
            State::Unknown => "Unknown",
        }
    }
}

// Its name, filled up and cut as a text is.
impl fmt::Display for State {
    ghost output = { λ x. Some (part_name x) };

    ghost styled_output = { λ x options. Some (padded options (part_name x)) };

    fn fmt<W: fmt::Write>(&self, f: &mut fmt::Formatter<W>) -> fmt::Result {
        f.pad(self.name())
    }
}

// The ballot of a name, if there is one.
impl FromStr for Ballot {
    type Err = UnknownBallot;

    ghost from_str_gives = { λ name r. Exactly (λ b. name ≡ ballot_name b) (result_ok r) };

    fn from_str(name: &str) -> Result<Ballot, UnknownBallot> {
        match name {
            "prepared" => Ok(Ballot::Prepared),
            "readonly" => Ok(Ballot::ReadOnly),
            "aborted" => Ok(Ballot::Aborted),
            _ => Err(UnknownBallot),
        }
    }
}

// A name that is no ballot's.
#[derive(Clone, Copy, PartialEq, Eq, Debug)]
pub struct UnknownBallot;

impl fmt::Display for UnknownBallot {
    ghost output = { λ _. Some (codes "a vote is prepared, readonly or aborted") };

    ghost styled_output = { λ _ options. Some (padded options (codes "a vote is prepared, readonly or aborted")) };

    fn fmt<W: fmt::Write>(&self, f: &mut fmt::Formatter<W>) -> fmt::Result {
        f.pad("a vote is prepared, readonly or aborted")
    }
}

impl Error for UnknownBallot {}
