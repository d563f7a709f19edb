//! What one slice asked of a switch: its requests under the transaction ids of this proxy, and the
//! statistics that are collected for it.
#![tactic(auto)]

mod asked;
mod collection;
mod collections;
pub mod laws;
mod map;

pub use asked::{AskKind, Asked, Issued};
pub use collections::Collections;
pub use map::XidMap;
