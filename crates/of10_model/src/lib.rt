//! What OpenFlow 1.0 means by headers and matches: the definitions that every crate above cites, and
//! the plain data that definitions and code share.
#![tactic(auto)]

mod fields;
pub mod laws;
mod pattern;
pub mod protocol;
pub mod wire;

pub use fields::{has_bit, service_bits, vlan_number, vlan_priority};
pub use pattern::{Pattern, Prefix};
