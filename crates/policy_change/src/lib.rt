//! What a change of policy takes away from a switch: the flow-mods that delete the entries which a slice may no longer
//! have. This is the proxy's own rule; the standard has nothing of the kind.
#![tactic(auto)]

pub mod laws;
mod messages;
mod planned;
mod planning;

pub use planning::plan;
