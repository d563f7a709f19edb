//! Records, and what their heads may say.

/// The eight bytes that begin a recording.
pub const MAGIC: [u8; 8] = [0x46, 0x56, 0x52, 0x45, 0x43, 0, 0, 1];

/// The eight bytes that begin a trace.
pub const TRACE_MAGIC: [u8; 8] = [0x46, 0x56, 0x54, 0x52, 0x43, 0, 0, 1];

/// How many bytes the head of a record has.
pub const RECORD_HEAD: usize = 16;

/// How many bytes a record may carry.
pub const BYTE_LIMIT: u32 = 16_777_216;

/// How many switches a recording can name.
pub const SWITCHES: usize = 16;

/// A switch connected.
pub const SWITCH_UP: u8 = 0;

/// Bytes came from a switch.
pub const SWITCH_BYTES: u8 = 1;

/// A switch's connection ended; the connections of its slices end with it.
pub const SWITCH_DOWN: u8 = 2;

/// A slice's controller connected for a switch.
pub const SLICE_UP: u8 = 3;

/// Bytes came from a slice's controller for a switch.
pub const SLICE_BYTES: u8 = 4;

/// A slice's connection for a switch ended.
pub const SLICE_DOWN: u8 = 5;

/// A frame was sent to a switch for a slice. A trace alone has such records.
pub const SENT_BYTES: u8 = 6;

/// A record of a recording or of a trace, and where the bytes stand that it carries.
#[derive(Clone, Copy, Debug, PartialEq, Eq)]
pub struct Item {
    /// 0 to 6: the constants of this crate.
    pub kind: u8,
    /// Which connection of a switch it is of, 0 to 15.
    pub switch: u8,
    /// The slice's place in the policy, from 0; 0 where the record is of no slice.
    pub slot: u8,
    /// When it came, in milliseconds.
    pub moment: u64,
    /// The place in the file where the record's bytes begin.
    pub from: usize,
    /// How many bytes the record carries.
    pub size: usize,
}
