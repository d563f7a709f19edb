//! Patterns by the fields that they constrain, so that the least place of those that include a match is
//! looked up. This is this proxy's own rule.
#![tactic(auto)]

mod group;
mod header_shape;
mod index;
mod key;
mod shape;

pub use index::PatternIndex;
