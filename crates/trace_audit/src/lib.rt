//! Audits of traces: whether a flow-mod or a packet-out of a trace is one that the slice for which it was sent may
//! have sent by a policy. The trace may come from any proxy. All of this is this proxy's own rule.
#![tactic(auto)]

mod actions;
mod auditing;
mod fault;
mod heard;
mod judging;
pub mod laws;
mod messages;
mod session;
mod switch;
mod why;

pub use auditing::audit;
pub use fault::AuditFault;
pub use judging::{flow_mod_why, packet_out_why};
pub use messages::message_why;
pub use session::Session;
pub use why::Why;
