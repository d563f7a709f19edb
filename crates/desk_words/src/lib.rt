//! What a desk is asked and answers: the desk is where all connections of one switch come together.
//! The definitions of what it must answer are in this crate too; `laws` states what follows from them.
#![tactic(auto)]

mod dest;
mod event;
pub mod laws;
mod phase;
mod recorded;
mod taken;
mod verdict;

pub use dest::Dest;
pub use event::{Event, Timed};
pub use phase::Phase;
pub use recorded::carried;
pub use taken::Taken;
pub use verdict::Verdict;
