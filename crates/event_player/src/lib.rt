//! A recording played at the desks of its switches: each event, and each message that comes of it, is
//! reported one after the other to whoever is to hear them, or the desks are handed out at the end.
#![tactic(auto)]

mod accepted_file;
mod all_switches;
mod connection_events;
mod desks;
mod drain;
mod event_lines;
mod fault;
mod player;
mod streams;
mod switch;
mod teller;

pub use desks::{PlayedDesks, played};
pub use fault::ReportFault;
pub use player::Player;
pub use proxy_core::{Desk, Event};
pub use teller::{LinePlace, Said, Teller};
