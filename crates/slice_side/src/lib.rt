//! What is answered to a message of a slice's controller, what is sent on for it, and what it changes in the
//! slice's state.
#![tactic(auto)]

mod applying;
mod around;
mod change;
mod checked_actions;
mod flow_mods;
mod held;
mod local_answers;
mod packet_outs;
mod ports;
mod rated_messages;
mod reacting;
mod reaction;
mod refusals;
mod remembering;
mod requests;
mod reserving;

pub use applying::{apply, come_up, go_down};
pub use change::{Change, Modification};
pub use reacting::react;
pub use reaction::Reaction;
pub use reserving::reserve;
