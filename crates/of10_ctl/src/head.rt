/// The header that begins every message (OpenFlow 1.0.0, section 5.1).
#[derive(Clone, Copy, Debug, PartialEq, Eq)]
pub struct Head {
    /// The version of the protocol: 1 for OpenFlow 1.0.
    pub version: u8,
    /// The type of the message.
    pub kind: u8,
    /// Bytes of the message, this header counted, as the message says.
    pub length: u16,
    /// The transaction that the message belongs to; a reply carries its request's.
    pub xid: u32,
}
