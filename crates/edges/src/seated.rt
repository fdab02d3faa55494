ghost use Rattle.std.specs.Prelude.{◌≡◌, ◌<◌, Some, None};
ghost use Rattle.agreement.specs.declared.coordinator.Durability.TheVariants.{Durable};
ghost use Rattle.agreement.specs.declared.coordinator.Standing.TheVariants.{Voted as VotedFor};
ghost use Rattle.agreement.specs.declared.coordinator.State.TheVariants.{Active, VolatileVoting, DurableVoting, Noted, Committing, Rolled};
ghost use Rattle.words.specs.declared.fault.Fault.TheVariants.{InvalidState, CannotRegister};
ghost use Rattle.words.specs.declared.kind.Kind.TheVariants.{Prepared};
ghost use Rattle.edges.specs.Expected.{Case, Woken, both_voted, both_seats, marked, volatile_votes, durable_votes, decided, registering};
ghost use Rattle.edges.specs.Stages.{Makes, Stands};
ghost use Rattle.edges.specs.declared.stage.Answer.TheVariants.{Seated, Sent, Refused};
ghost use Rattle.edges.specs.declared.stage.Call.TheVariants.{Register, Hear, Expire, Restart};

use crate::cases::{AllSeats, DurableSeats};
use crate::stage::{Shown, Stage};
use agreement::coordinator::Durability;
use seats::seat::{SEATS, Seat};
use words::kind::Kind;

// The last seat.
const LAST: u8 = SEATS - 1;

// Prepared comes from a seat.
fn hear_vote(stage: &mut Stage, seat: u8) -> Shown
    requires { seat < 16 }
    ensures { Makes (Hear seat Prepared) stage.old stage.new result }
{
    stage.hear(Seat::new(seat).unwrap(), Kind::Prepared)
}

// A durable participant registers while a volatile one votes, and another while that one votes.
pub(crate) fn register_durable() -> DurableSeats
    ensures early { Case volatile_votes (Register Durable) (Seated 1 0) VolatileVoting result.early }
    ensures late { Case durable_votes (Register Durable) (Refused InvalidState) DurableVoting result.late }
{
    let (mut stage, right) = Stage::open();
    let _ = stage.register(Durability::Volatile);
    let _ = stage.ask_commit(right);
    let early = stage.register(Durability::Durable);
    let _ = hear_vote(&mut stage, 0);
    let late = stage.register(Durability::Durable);
    DurableSeats { early, late }
}

// A durable and a volatile participant voted, and it settled.
fn both_voted() -> Stage
    ensures { Stands both_voted result }
{
    let (mut stage, right) = Stage::open();
    let _ = stage.register(Durability::Durable);
    let _ = stage.register(Durability::Volatile);
    let _ = stage.ask_commit(right);
    let _ = hear_vote(&mut stage, 1);
    let _ = hear_vote(&mut stage, 0);
    let _ = stage.settle();
    stage
}

// Its time is up in Noted, with two participants that voted, and a mark at each place of the outbox.
pub(crate) fn expire_in_noted() -> Shown
    ensures case { Case both_voted Expire (Sent 0) Noted result }
    ensures table { result.before.table ≡ both_seats }
    ensures outbox { result.before.outbox ≡ marked }
    ensures unchanged { result.after ≡ result.before }
{
    let mut stage = both_voted();
    stage.mark();
    stage.expire()
}

// Registers until no seat is vacant, and once more.
pub(crate) fn register_all() -> AllSeats
    ensures last { Case (registering 15) (Register Durable) (Seated 15 0) Active result.last }
    ensures more { Case (registering 16) (Register Durable) (Refused CannotRegister) Active result.more }
{
    let (mut stage, right) = Stage::open();
    for _ in 0..LAST {
        let _ = stage.register(Durability::Durable);
    }
    let last = stage.register(Durability::Durable);
    let more = stage.register(Durability::Durable);
    let _ = stage.ask_commit(right);
    AllSeats { last, more }
}

// The Decision of a durable participant is written, and loose.
fn decided() -> Stage
    ensures { Stands decided result }
{
    let (mut stage, right) = Stage::open();
    let _ = stage.register(Durability::Durable);
    let _ = stage.ask_commit(right);
    let _ = hear_vote(&mut stage, 0);
    let _ = stage.settle();
    stage
}

// The power goes and comes back behind a loose Decision with seat 0, and the world chooses n.
pub(crate) fn restart(n: u32) -> Shown
    ensures lost { n ≡ 0 → Case decided (Restart 0) (Sent 0) Rolled result }
    ensures lost_seat { n ≡ 0 → Woken None 0 result }
    ensures kept { n ≡ 1 → Case decided (Restart 1) (Sent 0) Committing result }
    ensures kept_seat { n ≡ 1 → Woken (Some (Durable, VotedFor)) 1 result }
{
    decided().restart(n)
}
