// The cases at the edge of the rules, run on both engines.
#![tactic(auto)]

mod alone;
pub mod cases;
mod seated;
pub mod stage;
pub mod storing;
#[cfg(test)]
mod tests;
pub mod written;

// The transaction of all cases.
const TRANSACTION: u32 = 7;
