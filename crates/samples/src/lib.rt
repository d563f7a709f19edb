//! Slices, rules and switches for the tests of other crates.
//!
//! What no policy or message may have, as a name of no bytes, is a mistake in a test. It is answered as
//! out of memory, so that the test fails.
#![tactic(auto)]

mod matches;
mod policies;
mod switches;

pub use matches::{ANY, Packets, match_of, packet, tcp};
pub use policies::{plain_rules, policy, rule, slice, switch_policy, two_slices};
pub use switches::{features, three_ports};
pub use wire_samples::{TO_TCP_80, bytes, frame};
