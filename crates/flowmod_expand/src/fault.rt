//! Why the messages of a flow-mod were not made.

/// Why the messages of a flow-mod were not made.
#[derive(Clone, Copy, Debug, PartialEq, Eq)]
pub enum BuildFault {
    /// All messages together pass 262,144 bytes, or one passes 65,535.
    TooLarge,
    Memory,
}
