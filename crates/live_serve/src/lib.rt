//! The live proxy: the threads of a connection, how groups of them are started, and the call that serves.
#![tactic(auto)]

mod accept;
mod connection;
mod finish;
mod group;
mod program;
mod work;

pub use live_session::{Gate, OpenGate, Side};
pub use program::serve;
pub use work::SessionWork;
