//! Numbers of the protocols whose fields OpenFlow 1.0 matches (section 3.4, and section 5.2.3 for the
//! VLAN of untagged packets).

/// The VLAN of a packet without a tag.
pub const UNTAGGED: u16 = 0xffff;

/// The greatest VLAN, a number of 12 bits.
pub const LAST_VLAN: u16 = 4095;

/// The greatest VLAN priority, a number of three bits.
pub const LAST_VLAN_PRIORITY: u8 = 7;

/// Ethernet types.
pub const IPV4: u16 = 0x0800;

pub const ARP: u16 = 0x0806;

/// IP protocols.
pub const ICMP: u8 = 1;

pub const TCP: u8 = 6;

pub const UDP: u8 = 17;
