//! The messages of OpenFlow 1.0 as frames of bytes: their headers, their making, and cutting a stream
//! into them.
#![tactic(auto)]

mod body;
mod frame;
mod framer;
mod head;
pub mod kind;
pub mod laws;
mod messages;

pub use body::BodyView;
pub use frame::{Frame, is_frame};
pub use framer::{Framer, Next};
pub use head::Head;
pub use messages::{begin, echo_reply, error_frame, header, message};
