// Reads the words of a line of input.
use crate::limits::{MOST_BYTES, MOST_PLACES};
use crate::refusal::Slip;
use agreement::coordinator::Durability;
use agreement::participant::Ballot;
use seats::seat::Seat;
use words::kind::Kind;
use words::notification::Notification;

// The notification of these words.
pub(crate) fn read_notification(
    transaction: &str,
    seat: &str,
    kind: &str,
) -> Result<Notification, Slip> {
    Ok(Notification {
        transaction: transaction.parse().map_err(|_| Slip::Transaction)?,
        seat: read_seat(seat)?,
        kind: read_kind(kind)?,
    })
}

// The seat of this number.
pub(crate) fn read_seat(number: &str) -> Result<Seat, Slip> {
    let number = number.parse::<u8>().map_err(|_| Slip::Seat)?;
    Seat::new(number).ok_or(Slip::Seat)
}

// The kind of this name.
pub(crate) fn read_kind(name: &str) -> Result<Kind, Slip> {
    name.parse::<Kind>().map_err(|_| Slip::Kind)
}

// The durability of this name.
pub(crate) fn read_durability(name: &str) -> Result<Durability, Slip> {
    match name {
        "volatile" => Ok(Durability::Volatile),
        "durable" => Ok(Durability::Durable),
        _ => Err(Slip::Durability),
    }
}

// The ballot of this name.
pub(crate) fn read_ballot(name: &str) -> Result<Ballot, Slip> {
    name.parse::<Ballot>().map_err(|_| Slip::Ballot)
}

// How many bytes a journal that is played has.
pub(crate) fn read_bytes(word: &str) -> Option<usize> {
    read_up_to(word, MOST_BYTES)
}

// How many places a queue has.
pub(crate) fn read_places(word: &str) -> Option<usize> {
    read_up_to(word, MOST_PLACES)
}

// The number of this word, if it is one and no more than this.
fn read_up_to(word: &str, most: usize) -> Option<usize> {
    match word.parse::<usize>() {
        Ok(number) if number <= most => Some(number),
        _ => None,
    }
}
