ghost use Rattle.std.specs.Prelude.{Some};
ghost use Rattle.records.specs.Texts.{record_text};

use super::Record;
use std::fmt;

// Its transaction, its kind and its seats.
impl fmt::Display for Record {
    ghost output = { λ r. Some (record_text r) };

    fn fmt<W: fmt::Write>(&self, f: &mut fmt::Formatter<W>) -> fmt::Result {
        let transaction = self.transaction;
        let kind = self.entry.name();
        let noun = self.entry.noun();
        let seats = self.entry.seats();
        write!(f, "transaction {transaction}: {kind}, {noun}{seats}")
    }
}
