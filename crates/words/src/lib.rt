// The words of the protocol: notifications, their plain rows, and faults.
#![tactic(auto)]

pub mod fault;
pub mod kind;
pub mod notification;
pub mod row;
