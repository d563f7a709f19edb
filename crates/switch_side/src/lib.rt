//! What follows from a message of a switch that has said what it is: what each slice is sent, what changes in
//! the slices' states, and what the switch is.
#![tactic(auto)]

mod applying;
mod around;
mod audience;
mod change;
mod collecting;
mod dispatch;
mod errors;
mod last_part;
mod packets;
mod ports;
mod reacting;
mod removals;
mod replies;
mod requests;
mod spare;
mod statistics;

pub use applying::{apply, apply_all, reserve};
pub use change::Change;
pub use dispatch::Dispatch;
pub use reacting::{react, react_in};
pub use spare::Spare;
