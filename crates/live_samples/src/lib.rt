//! Switches and controllers in memory, a desk between them, and what starts threads, for the tests of
//! other crates.
//!
//! Digits that spell no bytes are a mistake in a test. They are answered as out of memory, so that the test fails.
#![tactic(auto)]

mod desks;
pub mod devices;
mod outside;
mod spawner;
mod traffic;

pub use desks::desk;
pub use outside::{ALICE, BOB, FEATURES, HELLO, LANE, POLICY, SWITCH, Still, link, source, words};
pub use spawner::ClosureSpawner;
pub use traffic::{Sent, all_hold, nothing, shares};
