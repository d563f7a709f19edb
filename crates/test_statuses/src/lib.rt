//! How calls of `serve` end: with which status and line, and after which threads. There are tests here alone.
#![tactic(auto)]

#[cfg(test)]
mod statuses;
#[cfg(test)]
mod threads;
