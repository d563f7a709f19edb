//! What the parts of a slice's state stand for, in words of what the slice sees. The parts are its requests,
//! those for statistics that collect, the timestamps that count for its rate, the pairs that are booked for
//! it, and the packets that it holds.
#![tactic(auto)]

pub mod laws;
