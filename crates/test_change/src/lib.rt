//! Which entries a change of policy takes away, in small cases. There are tests here alone.
#![tactic(auto)]

#[cfg(test)]
mod tests;
