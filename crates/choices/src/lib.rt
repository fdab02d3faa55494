// A log of one kind or of another, as it was chosen at run time.
#![tactic(auto)]

pub mod either;
