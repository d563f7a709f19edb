//! A lock whose turns have one legal history: each seat knows a beginning of it, and each call's reply is the
//! object's at its place in it.
#![tactic(auto)]

mod desk;
pub mod laws;
mod object;
mod parts;
mod rule;
mod seats;
mod turn;
mod view;

pub use desk::Spent;
pub use object::Object;
pub use parts::{TurnDesk, TurnSeat};
