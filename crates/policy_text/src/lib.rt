//! The text of a policy: TOML that says its slices, its rules and, in version 2, its swaps of port
//! numbers. All of the form is this proxy's own rule.
#![tactic(auto)]

mod document;
mod fault;
mod known_keys;
mod names;
mod pattern;
mod ports;
mod printing;
mod rules;
mod section;
mod slices;
mod values;

pub use document::{ACCEPTED, read, read_up_to};
pub use fault::{Part, Place, ReadFault};
pub use printing::print;
