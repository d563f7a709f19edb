//! Numbers in these messages.

/// The buffer number of a packet that no buffer of the switch holds (OpenFlow 1.0.0, sections 5.3.3,
/// 5.3.6 and 5.4.1).
pub const NO_BUFFER: u32 = 0xffff_ffff;

/// Commands of a flow-mod (OpenFlow 1.0.0, section 5.3.3). A strict one means the entry of the same match
/// and priority alone.
pub const ADD: u16 = 0;

pub const MODIFY: u16 = 1;

pub const MODIFY_STRICT: u16 = 2;

pub const DELETE: u16 = 3;

pub const DELETE_STRICT: u16 = 4;

/// Flags of a flow-mod, one bit each (OpenFlow 1.0.0, section 5.3.3). This one asks for a flow-removed
/// message when the entry goes.
pub const SEND_FLOW_REM: u16 = 1;

/// An entry that another of its priority overlaps is refused.
pub const CHECK_OVERLAP: u16 = 2;

/// The entry is for a switch that has lost its controller.
pub const EMERG: u16 = 4;

/// Bytes of a flow-mod before its actions (OpenFlow 1.0.0, section 5.3.3).
pub const FLOW_MOD_FIELDS: u64 = 72;

/// The most bytes that a flow-mod's actions take, since its length is below 65,536 (OpenFlow 1.0.0,
/// section 5.1).
pub const MOST_ACTION_BYTES: u64 = 65_535 - FLOW_MOD_FIELDS;
