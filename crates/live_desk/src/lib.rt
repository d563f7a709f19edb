//! The desk of one switch under a turn lock: each turn is one step of it or one take.
#![tactic(auto)]

pub mod laws;
mod object;
mod waiting;

pub use object::{DeskObject, DeskOp, DeskReply};
pub use proxy_core::{Desk, Dest, Event, Taken, Timed, Verdict};
pub use waiting::{Waiting, bit_at, place_of};
