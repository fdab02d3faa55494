ghost use Rattle.std.specs.Prelude.{◌≡◌};
ghost use Rattle.rehearsals.specs.Moves.{seat_of};

use agreement::coordinator::Durability;
use agreement::participant::Ballot;
use seats::seat::Seat;
use words::kind::Kind;

// A call that the coordinator and a durable participant both have.
#[derive(Clone, Copy, PartialEq, Eq, Debug)]
pub enum Call {
    Expire,
    Settle,
    Resend,
    // It receives the notification that was taken with this number, counted from 0.
    Receive(usize),
    // Its power went and came back: it restarts with the number that the world chose.
    Restart(u32),
}

// What may happen at a desk.
#[derive(Clone, Copy, PartialEq, Eq, Debug)]
pub enum Move {
    Register(Durability),
    // A durable participant joins at its seat, with the last of the logs that lie ready.
    Join(Seat),
    AskCommit,
    AskRollback,
    AskOutcome,
    Coordinator(Call),
    Vote(Seat, Ballot),
    Participant(Seat, Call),
    // The notification that calls gave with this number, counted from 0, is posted, for the first time or again.
    Post(usize),
    // A volatile participant posts a notification of its own.
    Say(Seat, Kind),
    Take,
}

impl Move {
    // The seat of the participant that moves, or none where another does.
    pub fn seat(self) -> Option<Seat>
        ensures { result ≡ seat_of self }
    {
        match self {
            Move::Join(seat)
            | Move::Vote(seat, _)
            | Move::Participant(seat, _)
            | Move::Say(seat, _) => Some(seat),
            Move::Register(_)
            | Move::AskCommit
            | Move::AskRollback
            | Move::AskOutcome
            | Move::Coordinator(_)
            | Move::Post(_)
            | Move::Take => None,
        }
    }
}
