// The records of a log, with a record's two plain forms: 22 bytes and a row of numbers.
#![tactic(auto)]

pub mod codec;
mod ranges;
pub mod record;
pub mod row;
