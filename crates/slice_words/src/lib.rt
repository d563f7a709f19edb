//! Definitions: what a slice sees, and what follows for it from what it sees. `laws` states what follows
//! from the definitions.
#![tactic(auto)]

pub mod laws;
mod limits;

pub use limits::MOST_NUMBERED;
