//! Numbers in the messages of statistics: their types, and a flag (OpenFlow 1.0.0, section 5.3.5).

/// What the switch is, in texts.
pub const DESC: u16 = 0;

/// Flow entries, one by one.
pub const FLOW: u16 = 1;

/// Flow entries summed up.
pub const AGGREGATE: u16 = 2;

/// Flow tables.
pub const TABLE: u16 = 3;

/// Ports.
pub const PORT: u16 = 4;

/// Queues of ports.
pub const QUEUE: u16 = 5;

/// Statistics of a vendor, of which this proxy knows none.
pub const VENDOR: u16 = 0xffff;

/// The flag of a reply after which more parts follow.
pub const MORE: u16 = 1;
