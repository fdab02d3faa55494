// The library's calls in loops, to be timed, and played from bytes, to be compared with a twin (bench/README.md). What `coding` answers is proved, and of the others that they are safe and return.
#![tactic(auto)]

mod asking;
mod closing;
pub mod coding;
pub mod committing;
mod game;
pub mod growing;
pub mod hearing;
mod keeping;
pub mod playing;
pub mod reopening;
mod sink;
mod store;
mod telling;
