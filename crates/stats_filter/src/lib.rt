//! The statistics of a switch that are a slice's: what the switch is asked, which of its entries are kept, and
//! the replies that the slice gets of them.
#![tactic(auto)]

mod asking;
mod keeping;
pub mod laws;
mod slice_replies;

pub use asking::{ask, type_sent};
pub use keeping::keep;
pub use slice_replies::{PAGE, aggregate, replies, table_reply};
