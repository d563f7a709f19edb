//! The program's calls over files and sinks, without the system.
#![tactic(auto)]

mod ending;
mod flattening;
mod lines;
mod loading;
mod program;

pub use ending::Ending;
pub use fv_base as base;
pub use fv_report::{ReportFault, report};
pub use loading::load_policy;
pub use program::offline;
