//! The rules of a switch by the fields that their matches constrain, so that the rule of a header and the
//! owner of a match are looked up. This is this proxy's own rule.
#![tactic(auto)]

mod index;

pub use index::RuleIndex;
