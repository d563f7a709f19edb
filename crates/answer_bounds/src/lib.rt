//! What follows from one event always fits the limits of the queues.
#![tactic(auto)]

pub mod laws;
