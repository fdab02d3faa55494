// Whole commits, one transaction after the other.
use crate::closing::{Closing, Opened};
use crate::store::Store;
use agreement::coordinator::Durability;
use agreement::participant::Ballot;
use coordinator::{Coordinator, OUTBOX_PLACES};
use lines::line::Line;
use lines::queue::Queue;
use logs::log::Log;
use logs::tray::Tray;
use participant::Participant;
use seats::seat::{SEATS, Seat};
use std::alloc::{AllocError, Global};
use words::row::Row;

// How many transactions a tray takes, of two records each at a store.
const ROUNDS_A_TRAY: u32 = 16;

// Commits so many transactions with so many stores, over trays and a queue, each tray made anew for every sixteenth. Answers a sum over states, posts and counts.
#[unsafe(no_mangle)]
pub extern "C" fn measured_commit(alloc: Global, stores: u8, rounds: u32) -> u64 {
    match seated(alloc, stores) {
        Ok(mut stores) => commit_all(stores.as_mut_slice(), rounds),
        Err(_) => 0,
    }
}

// Stores at the seats from 0 on.
fn seated(alloc: Global, count: u8) -> Result<Vec<Store<Tray>>, AllocError> {
    let mut stores = Vec::new(alloc);
    for number in 0..SEATS {
        if number < count {
            if let Some(seat) = Seat::new(number) {
                stores.push(Store {
                    participant: Participant::join(0, seat),
                    log: Tray::new(),
                })?;
            }
        }
    }
    Ok(stores)
}

fn commit_all(stores: &mut [Store<Tray>], rounds: u32) -> u64 {
    let mut sum = 0u64;
    let mut log = Tray::new();
    for transaction in 0..rounds {
        if transaction % ROUNDS_A_TRAY == 0 {
            log = Tray::new();
            for store in stores.iter_mut() {
                store.log = Tray::new();
            }
        }
        sum = sum
            .wrapping_mul(31)
            .wrapping_add(commit(transaction, stores, &mut log));
    }
    sum
}

// Commits one transaction.
fn commit(transaction: u32, stores: &mut [Store<Tray>], log: &mut Tray) -> u64 {
    let mut places = [Row::BLANK; 16];
    let mut line = Queue::new(&mut places);
    let mut outbox = [Row::BLANK; OUTBOX_PLACES];
    let mut coordinator = begin(transaction, stores, &mut outbox, &mut line);
    hand_down(stores, &mut line);
    vote_all(stores, &mut line);
    hand_up(&mut coordinator, &mut line);
    for _ in 0..2 {
        let sent = coordinator.settle(log, &mut outbox).unwrap_or(0);
        post(&outbox, sent, &mut line);
    }
    hand_down(stores, &mut line);
    settle_all(stores, &mut line);
    hand_up(&mut coordinator, &mut line);
    seen(&coordinator, stores, log).wrapping_add(line.posts())
}

// Posts the first rows of the outbox.
pub(crate) fn post(outbox: &[Row], sent: usize, line: &mut Queue<'_, Row>) {
    if let Some(rows) = outbox.get(..sent) {
        line.post_all(rows);
    }
}

// Opens, registers every store and asks to commit.
fn begin(
    transaction: u32,
    stores: &mut [Store<Tray>],
    outbox: &mut [Row],
    line: &mut Queue<'_, Row>,
) -> Coordinator {
    let mut opened = Opened::new(transaction);
    for store in stores.iter_mut() {
        if let Ok(registered) = opened.register(Durability::Durable, outbox) {
            store.participant = Participant::join(transaction, registered.seat);
        }
    }
    let (opened, answer) = opened.close(Closing::Commit, outbox);
    if let Some(Ok(told)) = answer {
        post(outbox, told.sent, line);
    }
    opened.end()
}

// Gives what waits to the stores.
fn hand_down(stores: &mut [Store<Tray>], line: &mut Queue<'_, Row>) {
    let mut outbox = [Row::BLANK; 1];
    for _ in 0..line.len() {
        if let Some(heard) = line.take() {
            if let Some(store) = stores.get_mut(usize::from(heard.seat.number())) {
                let answer = store
                    .participant
                    .receive(heard, &mut store.log, &mut outbox);
                post(&outbox, answer.unwrap_or(0), line);
            }
        }
    }
}

// Gives what waits to the coordinator.
fn hand_up(coordinator: &mut Coordinator, line: &mut Queue<'_, Row>) {
    let mut outbox = [Row::BLANK; OUTBOX_PLACES];
    for _ in 0..line.len() {
        if let Some(heard) = line.take() {
            let sent = coordinator.receive(heard, &mut outbox).unwrap_or(0);
            post(&outbox, sent, line);
        }
    }
}

// Every store votes for the step, and settles.
fn vote_all(stores: &mut [Store<Tray>], line: &mut Queue<'_, Row>) {
    let mut outbox = [Row::BLANK; 1];
    for store in stores.iter_mut() {
        let answer = store
            .participant
            .vote(Ballot::Prepared, &mut store.log, &mut outbox);
        post(&outbox, answer.unwrap_or(0), line);
    }
    settle_all(stores, line);
}

fn settle_all(stores: &mut [Store<Tray>], line: &mut Queue<'_, Row>) {
    let mut outbox = [Row::BLANK; 1];
    for store in stores.iter_mut() {
        let answer = store.participant.settle(&mut store.log, &mut outbox);
        post(&outbox, answer.unwrap_or(0), line);
    }
}

// A sum over the states and the counts.
fn seen(coordinator: &Coordinator, stores: &[Store<Tray>], log: &Tray) -> u64 {
    let mut sum = u64::from(u8::from(coordinator.state())).wrapping_add(log.secured() as u64);
    for store in stores {
        let state = u64::from(u8::from(store.participant.state()));
        sum = sum
            .wrapping_mul(31)
            .wrapping_add(state)
            .wrapping_add(store.log.secured() as u64);
    }
    sum
}
