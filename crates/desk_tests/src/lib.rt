// Examples of rehearsals over queue and board, and logs of several kinds, worked out from docs/PROTOCOL.md.
#![tactic(auto)]

#[cfg(test)]
mod played;
