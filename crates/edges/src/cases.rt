ghost use Rattle.std.specs.Prelude.{◌≡◌, [], ◌∷◌, Ok, Err, Some, None, slice_index_or};
ghost use Rattle.agreement.specs.declared.participant.Ballot.TheVariants.{Prepared as VotePrepared};
ghost use Rattle.agreement.specs.declared.participant.State.TheVariants.{Noted as VoteNoted, Undone};
ghost use Rattle.agreement.specs.declared.coordinator.Durability.TheVariants.{Durable};
ghost use Rattle.agreement.specs.declared.coordinator.Outcome.TheVariants.{Open};
ghost use Rattle.agreement.specs.declared.coordinator.Standing.TheVariants.{Idle, Voted as VotedFor};
ghost use Rattle.agreement.specs.declared.coordinator.State.TheVariants.{Active, VolatileVoting, DurableVoting, Ready, Noted, Committing, Done, Rolled};
ghost use Rattle.records.specs.Bytes.{rec_bytes};
ghost use Rattle.records.specs.Recs.{model_of};
ghost use Rattle.words.specs.declared.fault.Fault.TheVariants.{InvalidState, CannotRegister, NoPlace};
ghost use Rattle.words.specs.declared.kind.Kind.TheVariants.{Prepared};
ghost use Rattle.edges.specs.Expected.{Case, Voted, Woken, both_voted, both_seats, marked, volatile_votes, durable_votes, decided, registering, stranger_told, row, decision, decision_bytes};
ghost use Rattle.words.specs.Rows.{blank_row};
ghost use Rattle.edges.specs.Votes.{Casts};
ghost use Rattle.edges.specs.declared.stage.Answer.TheVariants.{Seated, Told, Sent, Refused};
ghost use Rattle.edges.specs.declared.stage.Call.TheVariants.{Register, AskCommit, Hear, Expire, Settle, Restart};

use crate::stage::Shown;
use crate::storing::Cast;
use crate::written::Written;
use crate::{alone, seated, storing, written};
use participant::Ballot;

// A coordinator without seats: asked to commit, and settled twice.
#[derive(Clone, Copy, PartialEq, Eq, Debug)]
pub struct NoSeats {
    pub asked: Shown,
    pub settled: Shown,
    pub settled_again: Shown,
}

// A coordinator whose time is up: without seats in Ready, and with two in Noted.
#[derive(Clone, Copy, PartialEq, Eq, Debug)]
pub struct Expiries {
    pub in_ready: Shown,
    pub in_noted: Shown,
}

// A durable participant that registers while the volatile ones vote, and one while the durable ones do.
#[derive(Clone, Copy, PartialEq, Eq, Debug)]
pub struct DurableSeats {
    pub early: Shown,
    pub late: Shown,
}

// Registering at the last vacant seat, and once more.
#[derive(Clone, Copy, PartialEq, Eq, Debug)]
pub struct AllSeats {
    pub last: Shown,
    pub more: Shown,
}

// The cases at the edge of the rules: what was seen of each.
#[derive(Clone, Copy, PartialEq, Eq, Debug)]
pub struct EdgeCases {
    pub no_seats: NoSeats,
    pub expiries: Expiries,
    pub durable_seats: DurableSeats,
    pub all_seats: AllSeats,
    // Prepared from a seat that is not registered, to a coordinator that is rolled back
    pub stranger: Shown,
    // with so many places to spare in the log
    pub vote_with_one: Cast,
    pub vote_with_two: Cast,
    // whether the loose Decision with seat 0 outlasts the power cut
    pub decision_lost: Shown,
    pub decision_kept: Shown,
    // the Decision of transaction 7 with seats 0, 1, 2 and 5
    pub decision: Written,
}

// Runs the cases at the edge of the rules, and tells what was seen.
pub fn edge_cases() -> EdgeCases
    ensures asked { Case [] AskCommit (Told Open 0) Ready result.no_seats.asked }
    ensures settled { Case (AskCommit ∷ []) Settle (Sent 0) Noted result.no_seats.settled }
    ensures settled_again { Case (AskCommit ∷ Settle ∷ []) Settle (Sent 0) Done result.no_seats.settled_again }
    ensures expiry_in_ready { Case (AskCommit ∷ []) Expire (Sent 0) Rolled result.expiries.in_ready }
    ensures expiry_in_noted { Case both_voted Expire (Sent 0) Noted result.expiries.in_noted }
    ensures noted_seats { result.expiries.in_noted.before.table ≡ both_seats }
    ensures noted_outbox { result.expiries.in_noted.before.outbox ≡ marked }
    ensures noted_unchanged { result.expiries.in_noted.after ≡ result.expiries.in_noted.before }
    ensures early { Case volatile_votes (Register Durable) (Seated 1 0) VolatileVoting result.durable_seats.early }
    ensures early_seat { slice_index_or result.durable_seats.early.after.table 1 None ≡ Some (Durable, Idle) }
    ensures late { Case durable_votes (Register Durable) (Refused InvalidState) DurableVoting result.durable_seats.late }
    ensures last_seat { Case (registering 15) (Register Durable) (Seated 15 0) Active result.all_seats.last }
    ensures one_more { Case (registering 16) (Register Durable) (Refused CannotRegister) Active result.all_seats.more }
    ensures stranger { Case (AskCommit ∷ Expire ∷ []) (Hear 9 Prepared) (Sent 1) Rolled result.stranger }
    ensures stranger_told { result.stranger.after.outbox ≡ stranger_told }
    ensures vote_with_one { Casts VotePrepared 1 result.vote_with_one }
    ensures one_is_too_few { Voted (Err (NoPlace 1 1)) Undone (row 7 0 6) 1 result.vote_with_one }
    ensures vote_with_two { Casts VotePrepared 2 result.vote_with_two }
    ensures two_are_enough { Voted (Ok 0) VoteNoted blank_row 1 result.vote_with_two }
    ensures decision_lost { Case decided (Restart 0) (Sent 0) Rolled result.decision_lost }
    ensures lost_seat { Woken None 0 result.decision_lost }
    ensures decision_kept { Case decided (Restart 1) (Sent 0) Committing result.decision_kept }
    ensures kept_seat { Woken (Some (Durable, VotedFor)) 1 result.decision_kept }
    ensures decision { model_of result.decision.«record» ≡ decision }
    ensures decision_bytes { result.decision.bytes ≡ rec_bytes decision }
    ensures bytes { result.decision.bytes ≡ decision_bytes }
{
    EdgeCases {
        no_seats: alone::settle_twice(),
        expiries: Expiries {
            in_ready: alone::expire_in_ready(),
            in_noted: seated::expire_in_noted(),
        },
        durable_seats: seated::register_durable(),
        all_seats: seated::register_all(),
        stranger: alone::hear_stranger(),
        vote_with_one: storing::vote(Ballot::Prepared, 1),
        vote_with_two: storing::vote(Ballot::Prepared, 2),
        decision_lost: seated::restart(0),
        decision_kept: seated::restart(1),
        decision: written::decision(),
    }
}
