//! What of a slice's message is sent to the switch, and what of the switch's answers is sent to the slice.
//! The tests show which actions a slice may send, which pieces of a match it may write, what a flow table
//! makes of them, and which statistics it gets. They also show that an index answers as the policy does.
//! There are tests here alone.
#![tactic(auto)]

#[cfg(test)]
mod tests;
