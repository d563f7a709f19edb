//! The desk of one switch: where its connection and those of its slices' controllers come together.
#![tactic(auto)]

mod desk;
mod desk_events;
mod indexed_policy;
mod known_ports;
mod own_messages;
mod queries;
mod session_events;
mod session_start;
mod slice_events;
mod slice_queues;
mod take;
mod waiting;

pub use desk::Desk;
pub use desk_words::{Dest, Event, Taken, Timed, Verdict, laws};
