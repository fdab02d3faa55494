// What every log promises, a log in a table, one over any other log, and the records of a log one by one.
#![tactic(auto)]

pub mod gatherer;
pub mod listing;
pub mod log;
pub mod tray;
