//! The rate of a slice's messages. This is the proxy's own notion; the standard has nothing of the kind.
#![tactic(auto)]

mod bucket;

pub use bucket::{RateBucket, accepted_keep_the_rate, room_is_conformance};
