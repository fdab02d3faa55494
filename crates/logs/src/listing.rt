ghost use Rattle.std.specs.Prelude.{◌≡◌, ◌++◌};
ghost use Rattle.std.specs.Iterator.{YieldsFirstBy, item_count};
ghost use Rattle.logs.specs.Listing.{records_left};
ghost use Rattle.records.specs.Recs.{model_of};

use crate::log::Log;
use records::record::Record;
use std::ops::Range;

// The records of a log, the safe ones and then the loose ones, as an iterator.
#[derive(Drop)]
pub struct Records<'a, L> {
    log: &'a L,
    // the numbers of those that are still to come
    numbers: Range<usize>,
}

impl<'a, L: Log> Records<'a, L> {
    // All records of a log.
    pub fn over(log: &'a L) -> Records<'a, L>
        ensures { records_left L.Log result ≡ L.Log.safe log.now ++ L.Log.loose log.now }
    {
        Records {
            log,
            numbers: 0..log.count(),
        }
    }
}

impl<'a, L: Log> Iterator for Records<'a, L> {
    type Item = Record;

    ghost next_gives = { YieldsFirstBy model_of (records_left L.Log) };

    ghost remaining = { item_count (records_left L.Log) };

    fn next(&mut self) -> Option<Record> {
        let number = self.numbers.next()?;
        self.log.read(number)
    }
}
