// The rules of both parties as definitions, the world of one transaction, and the proof that no two parties end it differently.
#![tactic(auto)]

pub mod coordinator;
pub mod participant;
pub mod theorem;
