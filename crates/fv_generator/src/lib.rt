//! Recordings that are drawn from a seed, and the policy under which they are played: sessions of a switch and
//! two slices without a network.
#![tactic(auto)]

pub mod laws;
mod messages;
mod opening;
mod packets;
mod policies;
mod rounds;

pub use policies::policy;
pub use rounds::made;
