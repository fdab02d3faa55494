ghost use Rattle.std.specs.Prelude.{◌≡◌};
ghost use Rattle.edges.specs.Expected.{decision, decision_bytes};
ghost use Rattle.records.specs.Bytes.{bytes_of, rec_bytes};
ghost use Rattle.records.specs.Recs.{model_of};

use crate::TRANSACTION;
use records::codec::{RECORD_BYTES, encode};
use records::record::{Entry, Record};
use seats::set::SeatSet;

// The seats 0, 1, 2 and 5 as bits.
const SEATS: u16 = 0b10_0111;

// A record and its bytes: only `write` makes one.
#[derive(Clone, Copy, PartialEq, Eq, Debug)]
pub struct Written {
    record: Record,
    bytes: [u8; RECORD_BYTES],
}

impl Written {
    // The record.
    pub fn record(&self) -> Record
        ensures { result ≡ self.now.«record» }
    {
        self.record
    }

    // Its bytes.
    pub fn bytes(&self) -> [u8; RECORD_BYTES]
        ensures { result ≡ self.now.bytes }
    {
        self.bytes
    }
}

// Writes a record.
fn write(record: Record) -> Written
    ensures what { result.«record» ≡ «record» }
    ensures bytes { result.bytes ≡ bytes_of «record» }
{
    Written {
        record,
        bytes: encode(&record),
    }
}

// Writes the Decision with these seats.
#[tactic(auto, unfolding(records::specs::Bytes::rec_bytes, records::specs::Pairs::runs))]
pub(crate) fn decision() -> Written
    ensures what { model_of result.«record» ≡ decision }
    ensures by_rule { result.bytes ≡ rec_bytes decision }
    ensures bytes { result.bytes ≡ decision_bytes }
{
    let seats = SeatSet::from_bits(SEATS);
    write(Record::new(TRANSACTION, Entry::Decision(seats)))
}
