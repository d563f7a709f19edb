//! The messages that wait for one connection, within a limit of bytes.
#![tactic(auto)]

pub mod laws;
mod queue;

pub use queue::Outbox;
