//! The packets that the switch buffers for one slice.
#![tactic(auto)]

mod held;
pub mod laws;
mod map;
mod physicals;

pub use held::Held;
pub use map::BufferMap;
