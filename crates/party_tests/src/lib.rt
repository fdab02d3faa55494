// Examples of both parties over several logs, worked out from docs/PROTOCOL.md. Every cell of the participant's tables is run by tests/cells, and of the coordinator's rules by tests/coordinator_cells.
#![tactic(auto)]

#[cfg(test)]
mod coordinators;
#[cfg(test)]
mod stores;
