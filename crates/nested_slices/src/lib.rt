//! Slices of slices: the policy that comes of one whose slice is divided by its holder. This is the proxy's own notion;
//! the standard has nothing of the kind.
#![tactic(auto)]

mod counting;
mod division;
mod fault;
mod flattening;
pub mod laws;
mod making;
mod normal;
mod shares;

pub use fault::NestFault;
pub use flattening::flatten;
