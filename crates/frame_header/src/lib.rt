//! The header of a packet: its twelve fields as matching sees them (OpenFlow 1.0.0, section 3.4), and
//! the mark of a probe. No call takes memory.
#![tactic(auto)]

mod header;
pub mod laws;
mod link;
mod network;
mod probe;

pub use header::header_of;
pub use probe::{LLDP, probe_slot, probe_trailer};
