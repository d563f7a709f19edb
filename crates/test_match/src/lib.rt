//! Packets, matches and actions: which header a packet has, which headers a match has, and what matches are as
//! sets of headers. There are tests here alone.
#![tactic(auto)]

#[cfg(test)]
mod tests;
