// A transaction rehearsed: a list of moves played at a desk, and agreement as the contract of the call that plays them.
#![tactic(auto)]

pub mod moves;
pub mod rehearsal;
pub mod trace;
