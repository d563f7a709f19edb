//! Laws of what a policy's text says: which fault is its first and where it stands, and which slices are a
//! rule's readers.
#![tactic(auto)]

pub mod laws;
