ghost use Rattle.std.specs.Prelude.{◌≡◌};
ghost use Rattle.records.specs.Bytes.{bytes_of, rec_bytes, ReadsRow};
ghost use Rattle.seats.specs.Exactly.{Exactly};
ghost use Rattle.records.specs.Rows.{row_means};

use crate::ranges::Ranges;
use crate::record::Record;
use crate::row::Row;
use seats::set::SeatSet;

// How many bytes a record has.
pub const RECORD_BYTES: usize = 22;

// Where its parts lie, behind the transaction: the kind, the number of pairs, and the places of the pairs.
const KIND_AT: usize = 4;

const COUNT_AT: usize = 5;

const CELLS_AT: usize = 6;

// The bytes of a record; `encode` and `decode` are for records what `to_be_bytes` and `from_be_bytes` are for numbers.
pub fn encode(record: &Record) -> [u8; RECORD_BYTES]
    ensures { result ≡ bytes_of «record».now }
{
    row_bytes(Row::from(record))
}

// The record whose bytes these are, or none where they are no record's.
pub fn decode(bytes: &[u8]) -> Option<Record>
    ensures { Exactly (λ x. bytes.now ≡ bytes_of x) result }
{
    Record::try_from(read_row(bytes)?).ok()
}

// The bytes of a row: the transaction in four, the highest first; the kind; the number of pairs; the places of the pairs.
fn row_bytes(row: Row) -> [u8; RECORD_BYTES]
    ensures { result ≡ rec_bytes (row_means row) }
{
    let ranges = Ranges::from(SeatSet::from_bits(row.seats));
    let mut bytes = [0u8; RECORD_BYTES];
    bytes[..KIND_AT].copy_from_slice(&row.transaction.to_be_bytes());
    bytes[KIND_AT] = row.kind;
    // proved to lose nothing
    bytes[COUNT_AT] = ranges.count() as u8;
    bytes[CELLS_AT..].copy_from_slice(&ranges.cells());
    bytes
}

// The row whose bytes these are, or none where their pairs break a rule; whether the row is a record's is not looked at.
fn read_row(bytes: &[u8]) -> Option<Row>
    ensures { ReadsRow bytes.now result }
{
    if bytes.len() != RECORD_BYTES {
        return None;
    }
    let transaction = u32::from_be_bytes([bytes[0], bytes[1], bytes[2], bytes[3]]);
    let seats = Ranges::read_seats(bytes[COUNT_AT], &bytes[CELLS_AT..RECORD_BYTES])?;
    Some(Row {
        transaction,
        kind: bytes[KIND_AT],
        seats: seats.bits(),
    })
}
