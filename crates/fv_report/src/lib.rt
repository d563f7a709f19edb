//! The report of a recording: each message that comes of its events is a line. In a summary the messages are
//! counted.
#![tactic(auto)]

mod counter;
mod digits;
mod line;
mod number;
mod summary;
mod whole_report;

pub use event_player::ReportFault;
pub use summary::summarise;
pub use whole_report::report;
