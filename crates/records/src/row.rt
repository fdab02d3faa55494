ghost use Rattle.std.specs.Prelude.{◌≡◌, Some, codes};
ghost use Rattle.std.specs.Fmt.{padded};
ghost use Rattle.std.specs.Result.{result_ok};
ghost use Rattle.seats.specs.Exactly.{Exactly};
ghost use Rattle.records.specs.Recs.{model_of};
ghost use Rattle.records.specs.Rows.{row_means};

use crate::record::{Entry, Record};
use seats::set::SeatSet;
use std::error::Error;
use std::fmt;

// A record as a plain row of numbers, which any numbers may fill, so its kind is a number: it is read back with a check.
// Not one type with the row of a notification: other fields, and other checks.
#[derive(Clone, Copy, PartialEq, Eq, Debug, Default)]
pub struct Row {
    pub transaction: u32,
    pub kind: u8,
    pub seats: u16,
}

// The row of a record.
impl<'a> From<&'a Record> for Row {
    ghost from_gives = { λ r row. row_means row ≡ model_of r.now };

    fn from(record: &'a Record) -> Row {
        let entry = record.entry;
        Row {
            transaction: record.transaction,
            kind: entry.kind(),
            seats: entry.seats().bits(),
        }
    }
}

// The record whose row this is, if it is one's.
impl TryFrom<Row> for Record {
    type Error = NoRecord;

    ghost try_from_gives = { λ row r. Exactly (λ x. row_means row ≡ model_of x) (result_ok r) };

    fn try_from(row: Row) -> Result<Record, NoRecord> {
        let Some(entry) = Entry::of(row.kind, SeatSet::from_bits(row.seats)) else {
            return Err(NoRecord);
        };
        Ok(Record::new(row.transaction, entry))
    }
}

// A row that is no record's. Its Display is by hand, as those of all libraries here: a derived one states no output.
#[derive(Clone, Copy, PartialEq, Eq, Debug)]
pub struct NoRecord;

impl fmt::Display for NoRecord {
    ghost output = { λ _. Some (codes "the row is no record's") };

    ghost styled_output = { λ _ options. Some (padded options (codes "the row is no record's")) };

    fn fmt<W: fmt::Write>(&self, f: &mut fmt::Formatter<W>) -> fmt::Result {
        f.pad("the row is no record's")
    }
}

impl Error for NoRecord {}
