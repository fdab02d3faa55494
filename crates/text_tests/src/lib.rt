// Examples of the program's texts and of its calls, worked out from docs/PROGRAM.md.
#![tactic(auto)]

#[cfg(test)]
mod texts;
