//! A switch's flow table as a plain list of entries: what a flow-mod makes of it, and which actions a
//! packet meets in it.
#![tactic(auto)]

mod changing;
mod choosing;
mod table;
mod touching;

pub use table::{Applied, Table};
pub use touching::{outputs_as_asked, touches};
