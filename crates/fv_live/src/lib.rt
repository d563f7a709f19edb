//! The outside of a live proxy as traits, with their forms in memory: what bytes come from, the time,
//! connections of switches, links to controllers, and threads. Sinks that hold a runtime, for what runs on
//! threads.
#![tactic(auto)]

mod calls;
mod clock;
mod dialer;
mod host;
mod links;
mod shared;
mod source;
mod spawner;
mod wires;

pub use calls::FailingCalls;
pub use clock::{Clock, MemoryClock};
pub use dialer::{Dialer, MemoryDialer};
pub use host::Host;
pub use links::{Link, Links};
pub use shared::{Flag, HeldSink, SharedBytes, SharedSink};
pub use source::{MemorySource, NeverSource, Source};
pub use spawner::{MemorySpawner, Spawner, Work};
pub use wires::{MemoryWires, Wires};
