//! Whole calls of `serve` over switches and controllers in memory, on threads: sessions beside each other. There are
//! tests here alone.
#![tactic(auto)]

#[cfg(test)]
mod gate;
#[cfg(test)]
mod many_sessions;
#[cfg(test)]
mod sessions;
