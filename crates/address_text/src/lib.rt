//! Identifiers and addresses as texts: datapath ids, hardware addresses, and network addresses with the number of
//! their leading bits that count, read and printed. The forms are this proxy's own rule.
#![tactic(auto)]

pub mod laws;
mod printing;
mod reading;

pub use printing::{datapath_text, hardware_text, prefix_text};
pub use reading::{datapath_id, hardware_address, prefix};
