// A line that keeps the newest notification for each seat and direction.
#![tactic(auto)]

pub mod board;
