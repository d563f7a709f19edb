//! Whether the actions of a slice's message go only where the slice may send, and the list that they
//! become. Which actions are allowed is this proxy's own rule.
#![tactic(auto)]

mod action_rules;
mod checking;
mod fault;
mod flood_expansion;
pub mod laws;
mod origin;
mod verdicts;

pub use action_rules::writes_by_some_port;
pub use checking::check;
pub use fault::{BAD_ARGUMENT, BAD_OUT_PORT, CheckFault, NOT_PERMITTED};
pub use origin::Origin;
