// Examples of records, bytes and logs, worked out from docs/JOURNAL.md and docs/LOGS.md.
#![tactic(auto)]

#[cfg(test)]
mod bytes;
#[cfg(test)]
mod journal_examples;
#[cfg(test)]
mod piles;
