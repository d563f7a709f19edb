//! The port numbers of a slice's own: its messages and those that it is sent, with the numbers exchanged that
//! its swaps name.
#![tactic(auto)]

pub mod laws;
mod places;
mod receiving;
mod sending;
mod sorting;
mod values;

pub use receiving::turn_in;
pub use sending::{turn_each_out, turn_out};
pub use values::{turned_flow_mod, turned_packet_out, turned_queues, turned_request};
