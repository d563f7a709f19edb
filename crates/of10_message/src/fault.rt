//! Why a message isn't read.

use of10_action::WireFault;

/// What is wrong with a controller's message.
#[derive(Clone, Copy, PartialEq, Eq)]
pub enum Unread {
    /// Its length field doesn't count its header (OpenFlow 1.0.0, section 5.1).
    BadLength,
    /// A HELLO of version 0 (OpenFlow 1.0.0, section 4.2).
    NoCommonVersion,
    /// It is no HELLO, and of another version than 1 (OpenFlow 1.0.0, section 5.1).
    BadVersion,
    /// No controller sends messages of its type (OpenFlow 1.0.0, section 5.1).
    BadType,
    /// Its bytes aren't laid out as its type wants it.
    BadForm(WireFault),
}
