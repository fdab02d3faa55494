// Seats and sets of seats.
#![tactic(auto)]

pub mod seat;
pub mod set;
