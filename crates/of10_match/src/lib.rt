//! Headers and matches of OpenFlow 1.0, and their 40 bytes.
#![tactic(auto)]

mod header;
mod matching;
mod normal;
mod reading;
mod same;
mod writing;

pub use header::Header12;
pub use matching::{Match, exact_pattern};
pub use normal::{has_network, has_ports, has_service, has_vlan};
