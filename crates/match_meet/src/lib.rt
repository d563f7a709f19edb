//! Matches as sets of headers, and what actions make of headers and of matches.
#![tactic(auto)]

mod constraint;
mod cover;
mod rewriting;
mod sets;

pub use cover::rewrite;
pub use rewriting::rewrite_header;
pub use sets::{disjoint, includes, includes_aside, meet};
