//! Flow-mods cut to what a slice may write: the pieces of a match, and the messages that are sent for
//! them.
#![tactic(auto)]

mod fault;
pub mod laws;
mod match_pieces;
mod messages;
mod piece_marks;
mod piece_messages;

pub use fault::BuildFault;
pub use match_pieces::pieces;
pub use messages::build;
