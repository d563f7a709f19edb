//! What is kept of one switch and of one slice, each beside a plain list of all that was done; and recordings.
//! There are tests here alone.
#![tactic(auto)]

#[cfg(test)]
mod tests;
