// Single notifications, received again and again.
use crate::closing::{Closing, Opened};
use agreement::coordinator::Durability;
use coordinator::{Coordinator, OUTBOX_PLACES};
use logs::log::Log;
use logs::tray::Tray;
use participant::Participant;
use records::record::{Entry, Record};
use seats::seat::{SEATS, Seat};
use seats::set::SeatSet;
use words::kind::Kind;
use words::notification::Notification;
use words::row::Row;

const TRANSACTION: u32 = 7;

// Where a party stands that hears notifications.
fn participant_of(kept: bool, seat: Seat, log: &mut Tray) -> Participant {
    let _ = log.add(Record::new(TRANSACTION, Entry::Vote(seat)));
    if kept {
        let _ = log.add(Record::new(TRANSACTION, Entry::Kept(seat)));
    }
    log.secure();
    Participant::join(TRANSACTION, seat).restart(log, 0)
}

// A notification of this kind, none for a number that is no kind's.
fn said(kind: u8, number: u8) -> Option<Notification> {
    let seat = Seat::new(number)?;
    let Ok(kind) = Kind::try_from(kind) else {
        return None;
    };
    Some(Notification {
        transaction: TRANSACTION,
        seat,
        kind,
    })
}

// A participant, in doubt or that kept its step, hears each of these kinds, so many times. Answers a sum over answers.
#[unsafe(no_mangle)]
pub extern "C" fn measured_participant_hears(kept: bool, kinds: &[u8], rounds: u32) -> u64 {
    let mut sum = 0u64;
    let Some(seat) = Seat::new(3) else {
        return 0;
    };
    let mut log = Tray::new();
    let mut outbox = [Row::BLANK; 1];
    let mut participant = participant_of(kept, seat, &mut log);
    for _ in 0..rounds {
        for kind in kinds {
            if let Some(heard) = said(*kind, 3) {
                let answer = match participant.receive(heard, &mut log, &mut outbox) {
                    Ok(sent) => sent as u64,
                    Err(fault) => u64::from(fault.number()),
                };
                sum = sum
                    .wrapping_mul(31)
                    .wrapping_add(answer)
                    .wrapping_add(u64::from(outbox[0].kind));
            }
        }
    }
    sum
}

// A coordinator of sixteen durable participants that have all been asked.
fn asked(outbox: &mut [Row]) -> Coordinator {
    let mut opened = Opened::new(TRANSACTION);
    for _ in 0..SEATS {
        let _ = opened.register(Durability::Durable, outbox);
    }
    let (opened, _) = opened.close(Closing::Commit, outbox);
    opened.end()
}

// A coordinator that decided to commit with sixteen durable participants.
fn decided(log: &mut Tray) -> Coordinator {
    let _ = log.add(Record::new(TRANSACTION, Entry::Decision(SeatSet::from_bits(u16::MAX))));
    log.secure();
    Opened::new(TRANSACTION).cut(log, 0).end()
}

// A coordinator of sixteen durable participants, all asked or committing, hears each of these kinds, so many times, from the seats 0 to 14 in turn. Answers a sum over answers.
#[unsafe(no_mangle)]
pub extern "C" fn measured_coordinator_hears(committing: bool, kinds: &[u8], rounds: u32) -> u64 {
    let mut sum = 0u64;
    let mut outbox = [Row::BLANK; OUTBOX_PLACES];
    let mut log = Tray::new();
    let mut coordinator = if committing {
        decided(&mut log)
    } else {
        asked(&mut outbox)
    };
    for _ in 0..rounds {
        let mut number = 0u8;
        for kind in kinds {
            if let Some(heard) = said(*kind, number) {
                let answer = match coordinator.receive(heard, &mut outbox) {
                    Ok(sent) => sent as u64,
                    Err(fault) => u64::from(fault.number()),
                };
                sum = sum
                    .wrapping_mul(31)
                    .wrapping_add(answer)
                    .wrapping_add(u64::from(outbox[0].seat));
            }
            number = if number < 14 { number + 1 } else { 0 };
        }
    }
    sum
}
