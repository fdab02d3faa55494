// A log in a byte buffer.
#![tactic(auto)]

pub mod journal;
