//! The statistics of OpenFlow 1.0: requests, the parts of replies, and the entries in them.
#![tactic(auto)]

mod entries;
pub mod laws;
pub mod protocol;
mod reply;
mod request;

pub use entries::{entry_port, entry_size, flow_entry};
pub use reply::{StatsPart, part};
pub use request::StatsRequest;
