// One transaction at a desk: both engines, their logs and a line, and what happened.
#![tactic(auto)]

pub mod desk;
mod fresh;
mod rows;
