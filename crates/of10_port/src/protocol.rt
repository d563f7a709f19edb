//! Numbers of ports, and the bits of their configuration that count (OpenFlow 1.0.0, section 5.2.1).

/// The greatest number of a physical port.
pub const MAX: u16 = 0xff00;

/// Back out of the port where the packet came in.
pub const IN_PORT: u16 = 0xfff8;

/// Through the flow table; in packet-outs alone.
pub const TABLE: u16 = 0xfff9;

/// As the switch forwards without OpenFlow.
pub const NORMAL: u16 = 0xfffa;

/// Out of all physical ports but the one where the packet came in and those that don't flood.
pub const FLOOD: u16 = 0xfffb;

/// Out of all physical ports but the one where the packet came in.
pub const ALL: u16 = 0xfffc;

/// To the controller.
pub const CONTROLLER: u16 = 0xfffd;

/// The switch's own port.
pub const LOCAL: u16 = 0xfffe;

/// No port.
pub const NONE: u16 = 0xffff;

/// The bit of a port's configuration that keeps it out of a flood.
pub const NO_FLOOD: u32 = 16;
