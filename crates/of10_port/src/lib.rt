//! The ports of a switch, and the two messages of OpenFlow 1.0 that report them: FEATURES_REPLY and
//! PORT_STATUS.
#![tactic(auto)]

mod features;
pub mod laws;
mod port;
pub mod protocol;
mod status;

pub use features::{Features, FeaturesView, has_whole_ports, ports_in};
pub use port::{Port, Ports, put_ports};
pub use status::{PortStatus, PortStatusView};
