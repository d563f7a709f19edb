//! The threads of a session where a source or a sink fails, or where something stands still. There are tests here alone.
#![tactic(auto)]

#[cfg(test)]
mod gate;
#[cfg(test)]
mod notes;
#[cfg(test)]
mod session_threads;
#[cfg(test)]
mod sessions;
#[cfg(test)]
mod sinks;
