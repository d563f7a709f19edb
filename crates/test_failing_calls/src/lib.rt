//! Whole calls of `serve` where a controller can't be dialled, or where a switch takes nothing. There are tests here
//! alone.
#![tactic(auto)]

#[cfg(test)]
mod compared_connections;
#[cfg(test)]
mod serve_calls;
