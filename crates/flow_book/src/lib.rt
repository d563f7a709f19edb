//! What a slice has asked of a switch's flow table, pair by pair, and one slice's whole state.
#![tactic(auto)]

mod adding;
mod book;
mod booked;
mod entries;
mod entry;
mod finding;
pub mod laws;
mod pairs;
mod state;

pub use book::FlowBook;
pub use booked::Booked;
pub use state::{MISS_SEND_LEN, SliceState};
