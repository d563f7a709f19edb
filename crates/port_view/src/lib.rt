//! The ports of a switch as its messages report them, the part of them that a slice is shown, and the numbers by
//! which it is.
#![tactic(auto)]

pub mod laws;
mod slice_ports;
mod sorted_ports;
mod status_answers;
mod turning;
mod view;

pub use status_answers::Kept;
pub use turning::{turn_in, turn_out};
pub use view::PortView;
