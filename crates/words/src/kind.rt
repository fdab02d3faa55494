ghost use Rattle.std.specs.Prelude.{◌≡◌, Some, codes};
ghost use Rattle.std.specs.Fmt.{padded};
ghost use Rattle.std.specs.Result.{result_ok};
ghost use Rattle.seats.specs.Exactly.{Exactly};
ghost use Rattle.words.specs.Kinds.{kind_number, kind_at, goes_up, kind_name};

use std::error::Error;
use std::fmt;
use std::str::FromStr;

// What a notification says. The first three go to a participant, the others to the coordinator.
#[derive(Clone, Copy, PartialEq, Eq, Debug)]
pub enum Kind {
    Prepare = 1,
    Commit = 2,
    Rollback = 3,
    Prepared = 4,
    ReadOnly = 5,
    Aborted = 6,
    Committed = 7,
}

impl Kind {
    // Whether it goes to the coordinator.
    pub fn goes_up(self) -> bool
        ensures { result ≡ goes_up self }
    {
        match self {
            Kind::Prepare | Kind::Commit | Kind::Rollback => false,
            Kind::Prepared | Kind::ReadOnly | Kind::Aborted | Kind::Committed => true,
        }
    }

    // Its name. No derive of the library's writes names.
    pub fn name(self) -> &'static str
        ensures { result.now ≡ kind_name self }
    {
        match self {
            Kind::Prepare => "Prepare",
            Kind::Commit => "Commit",
            Kind::Rollback => "Rollback",
            Kind::Prepared => "Prepared",
            Kind::ReadOnly => "ReadOnly",
            Kind::Aborted => "Aborted",
            Kind::Committed => "Committed",
        }
    }
}

// Its number.
impl From<Kind> for u8 {
    ghost from_gives = { λ k n. n ≡ kind_number k };

    fn from(kind: Kind) -> u8 {
        kind as u8
    }
}

// The kind of a number, if there is one.
impl TryFrom<u8> for Kind {
    type Error = UnknownKind;

    ghost try_from_gives = { λ n r. result_ok r ≡ kind_at n };

    fn try_from(number: u8) -> Result<Kind, UnknownKind> {
        match number {
            1 => Ok(Kind::Prepare),
            2 => Ok(Kind::Commit),
            3 => Ok(Kind::Rollback),
            4 => Ok(Kind::Prepared),
            5 => Ok(Kind::ReadOnly),
            6 => Ok(Kind::Aborted),
            7 => Ok(Kind::Committed),
            _ => Err(UnknownKind),
        }
    }
}

// The kind of a name, if there is one.
impl FromStr for Kind {
    type Err = UnknownKind;

    ghost from_str_gives = { λ text r. Exactly (λ k. text ≡ kind_name k) (result_ok r) };

    fn from_str(name: &str) -> Result<Kind, UnknownKind> {
        match name {
            "Prepare" => Ok(Kind::Prepare),
            "Commit" => Ok(Kind::Commit),
            "Rollback" => Ok(Kind::Rollback),
            "Prepared" => Ok(Kind::Prepared),
            "ReadOnly" => Ok(Kind::ReadOnly),
            "Aborted" => Ok(Kind::Aborted),
            "Committed" => Ok(Kind::Committed),
            _ => Err(UnknownKind),
        }
    }
}

// It prints as its name, filled up and cut as a text is.
impl fmt::Display for Kind {
    ghost output = { λ k. Some (kind_name k) };

    ghost styled_output = { λ k options. Some (padded options (kind_name k)) };

    fn fmt<W: fmt::Write>(&self, f: &mut fmt::Formatter<W>) -> fmt::Result {
        f.pad(self.name())
    }
}

// A number or a name that is no kind's.
#[derive(Clone, Copy, PartialEq, Eq, Debug)]
pub struct UnknownKind;

impl fmt::Display for UnknownKind {
    ghost output = { λ _. Some (codes "no such kind") };

    ghost styled_output = { λ _ options. Some (padded options (codes "no such kind")) };

    fn fmt<W: fmt::Write>(&self, f: &mut fmt::Formatter<W>) -> fmt::Result {
        f.pad("no such kind")
    }
}

impl Error for UnknownKind {}
