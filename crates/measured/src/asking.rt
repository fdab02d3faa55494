// What the bytes of a call ask, as bench/README.md says it.
ghost use Rattle.std.specs.Prelude.{◌≤◌};

use crate::playing::Said;
use agreement::coordinator::Durability;
use agreement::participant::Ballot;
use words::notification::Notification;
use words::row::Row;

// How many stores there are, at the seats from 0 on.
pub(crate) const STORES: u8 = 4;

// What a coordinator or a participant is asked; each takes what is for it.
#[derive(Clone, Copy, Drop)]
pub(crate) enum Asked {
    Register(Durability),
    Vote(Ballot),
    Hear(Notification),
    Settle,
    Expire,
    Resend,
    Restart(u32),
    Look,
}

// How many places the outbox of a coordinator's call has: one time in sixteen, too few.
pub(crate) fn coordinator_places(number: u8) -> usize
    ensures { result ≤ 20 }
{
    if number % 16 == 0 {
        usize::from(number / 16)
    } else {
        16 + usize::from(number % 4)
    }
}

// How many the outbox of a participant's has: one time in sixteen, none.
pub(crate) fn store_places(number: u8) -> usize
    ensures { result ≤ 20 }
{
    if number % 16 == 0 {
        0
    } else {
        1 + usize::from(number % 2)
    }
}

// By which number a log restarts.
fn restarts_by(said: Said) -> u32 {
    if said.what == 255 {
        u32::MAX
    } else {
        u32::from(said.number)
    }
}

// What a coordinator is asked by a call.
pub(crate) fn coordinator_asked(said: Said, transaction: u32) -> Asked {
    match said.call % 32 {
        10 => Asked::Register(Durability::Volatile),
        11 => Asked::Register(Durability::Durable),
        13..=15 => Asked::Settle,
        16 if said.what % 8 == 0 => Asked::Expire,
        16 => Asked::Resend,
        17 if said.what % 2 == 1 => Asked::Restart(restarts_by(said)),
        18 => heard(said.who % 16, up(said.what), said, transaction),
        _ => Asked::Look,
    }
}

// What a store is asked by a call.
pub(crate) fn store_asked(said: Said, transaction: u32) -> Asked {
    match said.call % 32 {
        21..=23 => Asked::Vote(ballot(said.what)),
        24..=26 => Asked::Settle,
        27 if said.what % 8 == 0 => Asked::Expire,
        27 => Asked::Resend,
        28 if said.what % 2 == 1 => Asked::Restart(restarts_by(said)),
        29 if said.who / 16 == 0 => heard(said.who / 4, down(said.what), said, transaction),
        29 => heard(said.who % STORES, down(said.what), said, transaction),
        _ => Asked::Look,
    }
}

fn ballot(what: u8) -> Ballot {
    match what % 8 {
        0 => Ballot::ReadOnly,
        1 => Ballot::Aborted,
        _ => Ballot::Prepared,
    }
}

// The number of a kind, mostly of one for the coordinator.
fn up(what: u8) -> u8 {
    if what < 224 {
        4 + what % 4
    } else {
        1 + what % 3
    }
}

// The number of a kind, mostly of one for a participant.
fn down(what: u8) -> u8 {
    if what < 224 {
        1 + what % 3
    } else {
        4 + what % 4
    }
}

// A notification of these numbers, one time in eight of the next transaction.
fn heard(seat: u8, kind: u8, said: Said, transaction: u32) -> Asked {
    let other = u32::from(said.number % 8 == 1);
    let row = Row {
        transaction: transaction.wrapping_add(other),
        seat,
        kind,
    };
    match Notification::try_from(row) {
        Ok(notification) => Asked::Hear(notification),
        Err(_) => Asked::Look,
    }
}
