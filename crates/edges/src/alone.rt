ghost use Rattle.std.specs.Prelude.{◌≡◌, [], ◌∷◌, replicate};
ghost use Rattle.agreement.specs.declared.coordinator.Outcome.TheVariants.{Open};
ghost use Rattle.agreement.specs.declared.coordinator.State.TheVariants.{Ready, Noted, Done, Rolled};
ghost use Rattle.edges.specs.Expected.{Case, stranger_told};
ghost use Rattle.edges.specs.Stages.{head_of, played};
ghost use Rattle.words.specs.Rows.{blank_row};
ghost use Rattle.edges.specs.declared.stage.Answer.TheVariants.{Told, Sent};
ghost use Rattle.edges.specs.declared.stage.Call.TheVariants.{AskCommit, Hear, Expire, Settle};
ghost use Rattle.words.specs.declared.kind.Kind.TheVariants.{Prepared};

use crate::cases::NoSeats;
use crate::stage::{Shown, Stage};
use seats::seat::Seat;
use words::kind::Kind;

// The seat of nobody.
const STRANGER: u8 = 9;

// A coordinator without seats is asked to commit.
fn asked() -> (Stage, Shown)
    ensures case { Case [] AskCommit (Told Open 0) Ready result.1 }
    ensures head { head_of result.0 ≡ played (AskCommit ∷ []) }
    ensures outbox { result.0.outbox ≡ replicate 16 blank_row }
{
    let (mut stage, right) = Stage::open();
    let shown = stage.ask_commit(right);
    (stage, shown)
}

// Asks to commit and settles twice.
pub(crate) fn settle_twice() -> NoSeats
    ensures asked { Case [] AskCommit (Told Open 0) Ready result.asked }
    ensures settled { Case (AskCommit ∷ []) Settle (Sent 0) Noted result.settled }
    ensures again { Case (AskCommit ∷ Settle ∷ []) Settle (Sent 0) Done result.settled_again }
{
    let (mut stage, asked) = asked();
    let settled = stage.settle();
    let settled_again = stage.settle();
    NoSeats {
        asked,
        settled,
        settled_again,
    }
}

// Its time is up in Ready.
pub(crate) fn expire_in_ready() -> Shown
    ensures { Case (AskCommit ∷ []) Expire (Sent 0) Rolled result }
{
    let (mut stage, _) = asked();
    stage.expire()
}

// Hears Prepared from the seat of nobody, once rolled back.
pub(crate) fn hear_stranger() -> Shown
    ensures case { Case (AskCommit ∷ Expire ∷ []) (Hear 9 Prepared) (Sent 1) Rolled result }
    ensures outbox { result.after.outbox ≡ stranger_told }
{
    let (mut stage, _) = asked();
    let _ = stage.expire();
    stage.hear(Seat::new(STRANGER).unwrap(), Kind::Prepared)
}
