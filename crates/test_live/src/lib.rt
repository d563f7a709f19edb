//! The outside of a live proxy in memory, at work, and a desk around a counter, asked by one thread and by two. There
//! are tests here alone.
#![tactic(auto)]

#[cfg(test)]
mod connections;
#[cfg(test)]
mod notes;
#[cfg(test)]
mod sources_and_sinks;
#[cfg(test)]
mod turns;
#[cfg(test)]
mod works;
