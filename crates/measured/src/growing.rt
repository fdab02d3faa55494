// Both parties' calls over a journal that holds many records already.
use crate::closing::{Closing, Opened};
use crate::reopening::{fill, journal_of};
use agreement::participant::Ballot;
use coordinator::OUTBOX_PLACES;
use journals::journal::Journal;
use logs::log::Log;
use participant::Participant;
use seats::seat::Seat;
use std::alloc::Global;
use words::fault::Fault;
use words::kind::Kind;
use words::notification::Notification;
use words::row::Row;

// The first transaction of those that are played: the records are of those below it.
const FIRST: u32 = 1000000000;

// A number for an answer.
fn number<S: Copy>(answer: Result<usize, Fault<S>>) -> u64 {
    match answer {
        Ok(sent) => sent as u64,
        Err(fault) => u64::from(fault.number()).wrapping_mul(100),
    }
}

// A participant's part of a commit: asked, voting, settling, hearing Commit and settling again.
fn take_part(transaction: u32, seat: Seat, log: &mut Journal) -> u64 {
    let mut outbox = [Row::BLANK; 1];
    let mut participant = Participant::join(transaction, seat);
    let prepare = Notification {
        transaction,
        seat,
        kind: Kind::Prepare,
    };
    let commit = Notification {
        transaction,
        seat,
        kind: Kind::Commit,
    };
    let mut sum = number(participant.receive(prepare, log, &mut outbox));
    sum = sum.wrapping_add(number(participant.vote(Ballot::Prepared, log, &mut outbox)));
    sum = sum.wrapping_add(number(participant.settle(log, &mut outbox)));
    sum = sum.wrapping_add(number(participant.receive(commit, log, &mut outbox)));
    sum = sum.wrapping_add(number(participant.settle(log, &mut outbox)));
    sum.wrapping_add(u64::from(u8::from(participant.state())))
}

// Plays a participant's part so many times over a journal that holds so many records before. Answers a sum over answers.
#[unsafe(no_mangle)]
pub extern "C" fn measured_participant_steps(alloc: Global, held: u32, rounds: u32) -> u64 {
    let places = held.wrapping_add(rounds.wrapping_mul(2));
    let Ok(mut log) = journal_of(alloc, places) else {
        return 0;
    };
    let Some(seat) = Seat::new(3) else {
        return 0;
    };
    fill(&mut log, held);
    let mut sum = 0u64;
    for i in 0..rounds {
        let told = take_part(FIRST.wrapping_add(i), seat, &mut log);
        sum = sum.wrapping_mul(31).wrapping_add(told);
    }
    sum.wrapping_add(log.secured() as u64)
}

// A coordinator without seats is asked to commit, and settles twice.
fn decide(transaction: u32, log: &mut Journal) -> u64 {
    let mut outbox = [Row::BLANK; OUTBOX_PLACES];
    let (opened, _) = Opened::new(transaction).close(Closing::Commit, &mut outbox);
    let mut coordinator = opened.end();
    let sum = number(coordinator.settle(log, &mut outbox));
    sum.wrapping_add(number(coordinator.settle(log, &mut outbox)))
        .wrapping_add(u64::from(u8::from(coordinator.state())))
}

// Decides so many transactions over a journal that holds so many records before. Answers a sum over answers.
#[unsafe(no_mangle)]
pub extern "C" fn measured_coordinator_steps(alloc: Global, held: u32, rounds: u32) -> u64 {
    let Ok(mut log) = journal_of(alloc, held.wrapping_add(rounds)) else {
        return 0;
    };
    fill(&mut log, held);
    let mut sum = 0u64;
    for i in 0..rounds {
        let told = decide(FIRST.wrapping_add(i), &mut log);
        sum = sum.wrapping_mul(31).wrapping_add(told);
    }
    sum.wrapping_add(log.secured() as u64)
}
