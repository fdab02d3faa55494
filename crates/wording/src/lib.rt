// What the program says, and how it reads the words of its call.
#![tactic(auto)]

pub mod call;
pub mod demonstration;
pub mod text;
