use crate::cases::{EdgeCases, edge_cases};
use crate::stage::{Answer, Call, Shown};
use crate::storing::StoreView;
use agreement::coordinator::State;
use agreement::participant::State as StoreState;
use coordinator::{Durability, Outcome, Standing};
use participant::Ballot;
use words::fault::Fault;
use words::kind::Kind;
use words::row::Row;

// The row of a notification of transaction 7.
fn row(seat: u8, kind: u8) -> Row {
    Row {
        transaction: 7,
        seat,
        kind,
    }
}

// What a call came to: the state before, what was called and answered, and the state behind it.
fn steps(shown: Shown) -> (State, Call, Answer, State) {
    (
        shown.before().state,
        shown.call(),
        shown.answer(),
        shown.after().state,
    )
}

// Without seats nobody is asked and nobody is told.
#[test]
fn nobody_votes(rt: HostRuntime) {
    let cases = edge_cases();
    let told = Answer::Told {
        outcome: Outcome::Open,
        sent: 0,
    };
    let none = Answer::Sent(0);
    assert_eq!(rt;
        steps(cases.no_seats.asked),
        (State::Active, Call::AskCommit, told, State::Ready)
    );
    assert_eq!(rt;
        steps(cases.no_seats.settled),
        (State::Ready, Call::Settle, none, State::Noted)
    );
    assert_eq!(rt;
        steps(cases.no_seats.settled_again),
        (State::Noted, Call::Settle, none, State::Done)
    );
    assert_eq!(rt;
        steps(cases.expiries.in_ready),
        (State::Ready, Call::Expire, none, State::Rolled)
    );
}

// Once the Decision is written, time that is up touches nothing.
#[test]
fn time_is_up_in_noted(rt: HostRuntime) {
    let shown = edge_cases().expiries.in_noted;
    assert_eq!(rt;
        steps(shown),
        (State::Noted, Call::Expire, Answer::Sent(0), State::Noted)
    );
    let before = shown.before();
    assert_eq!(rt; before, shown.after());
    assert_eq!(rt;
        before.table[0],
        Some((Durability::Durable, Standing::Voted))
    );
    assert_eq!(rt;
        before.table[1],
        Some((Durability::Volatile, Standing::Voted))
    );
    assert_eq!(rt; before.table[2], None);
    assert_eq!(rt; (before.safe, before.loose), (0, 1));
    for place in &before.outbox {
        assert!(rt; *place != Row::BLANK);
    }
}

// Registering goes on while volatile participants vote, and up to seat 15.
#[test]
fn registering_ends(rt: HostRuntime) {
    let cases = edge_cases();
    let call = Call::Register(Durability::Durable);
    let (early, late) = (cases.durable_seats.early, cases.durable_seats.late);
    let seated = Answer::Seated { seat: 1, sent: 0 };
    assert_eq!(rt;
        steps(early),
        (State::VolatileVoting, call, seated, State::VolatileVoting)
    );
    assert_eq!(rt;
        early.after().table[1],
        Some((Durability::Durable, Standing::Idle))
    );
    let refused = Answer::Refused(Fault::InvalidState);
    assert_eq!(rt;
        steps(late),
        (State::DurableVoting, call, refused, State::DurableVoting)
    );
    let seated = Answer::Seated { seat: 15, sent: 0 };
    assert_eq!(rt;
        steps(cases.all_seats.last),
        (State::Active, call, seated, State::Active)
    );
    let refused = Answer::Refused(Fault::CannotRegister);
    assert_eq!(rt;
        steps(cases.all_seats.more),
        (State::Active, call, refused, State::Active)
    );
}

// Rollback is kind 3, and the rest of the outbox is kept.
#[test]
fn a_stranger_is_told(rt: HostRuntime) {
    let shown = edge_cases().stranger;
    let call = Call::Hear(9, Kind::Prepared);
    assert_eq!(rt;
        steps(shown),
        (State::Rolled, call, Answer::Sent(1), State::Rolled)
    );
    let outbox = shown.after().outbox;
    assert_eq!(rt; outbox[0], row(9, 3));
    for rest in &outbox[1..] {
        assert_eq!(rt; *rest, Row::BLANK);
    }
}

// Aborted is kind 6.
#[test]
fn a_vote_needs_two_places(rt: HostRuntime) {
    let EdgeCases {
        vote_with_one,
        vote_with_two,
        ..
    } = edge_cases();
    assert_eq!(rt; vote_with_one.ballot(), Ballot::Prepared);
    assert_eq!(rt; vote_with_one.before().spare, 1);
    assert_eq!(rt;
        vote_with_one.answer(),
        Err(Fault::NoPlace { spare: 1, sent: 1 })
    );
    assert_eq!(rt;
        vote_with_one.after(),
        StoreView {
            state: StoreState::Undone,
            outbox: [row(0, 6)],
            spare: 1,
        }
    );
    assert_eq!(rt; vote_with_two.ballot(), Ballot::Prepared);
    assert_eq!(rt; vote_with_two.before().spare, 2);
    assert_eq!(rt; vote_with_two.answer(), Ok(0));
    assert_eq!(rt;
        vote_with_two.after(),
        StoreView {
            state: StoreState::Noted,
            outbox: [Row::BLANK],
            spare: 1,
        }
    );
}

// A transaction is committed exactly if its Decision outlasts the power cut.
#[test]
fn a_loose_decision(rt: HostRuntime) {
    let EdgeCases {
        decision_lost: lost,
        decision_kept: kept,
        decision,
        ..
    } = edge_cases();
    let none = Answer::Sent(0);
    assert_eq!(rt;
        steps(lost),
        (State::Noted, Call::Restart(0), none, State::Rolled)
    );
    assert_eq!(rt; (lost.after().table[0], lost.after().safe), (None, 0));
    assert_eq!(rt;
        steps(kept),
        (State::Noted, Call::Restart(1), none, State::Committing)
    );
    let voted = Some((Durability::Durable, Standing::Voted));
    assert_eq!(rt; (kept.after().table[0], kept.after().safe), (voted, 1));
    assert_eq!(rt;
        decision.bytes(),
        [
            0, 0, 0, 7, 1, 2, 0, 3, 5, 1, 0, 0, 0, 0, 0, 0, 0, 0, 0, 0, 0, 0
        ]
    );
}
