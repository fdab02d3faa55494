// What every line promises, the queue and the printed trace.
#![tactic(auto)]

pub mod line;
pub mod queue;
pub mod trace;
