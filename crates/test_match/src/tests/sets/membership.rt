//! Whether a header is in a match, field by field, and headers that distinguish two matches.

use of10_match::Header12;
use of10_model::{Pattern, Prefix};

/// Whether no bit of the prefix's length differs.
fn begins(constraint: Option<Prefix>, address: u32) -> bool {
    match constraint {
        None => true,
        Some(prefix) => {
            let differing = u64::from(prefix.value ^ address);
            differing >> 32_u8.saturating_sub(prefix.bits) == 0
        }
    }
}

fn has_link(m: &Pattern, h: &Header12) -> bool {
    (m.in_port.is_none() || m.in_port == Some(h.in_port))
        && (m.dl_src.is_none() || m.dl_src == Some(h.dl_src))
        && (m.dl_dst.is_none() || m.dl_dst == Some(h.dl_dst))
        && (m.dl_vlan.is_none() || m.dl_vlan == Some(h.dl_vlan))
        && (m.dl_vlan_pcp.is_none() || m.dl_vlan_pcp == Some(h.dl_vlan_pcp))
        && (m.dl_type.is_none() || m.dl_type == Some(h.dl_type))
}

fn has_network(m: &Pattern, h: &Header12) -> bool {
    (m.nw_tos.is_none() || m.nw_tos == Some(h.nw_tos))
        && (m.nw_proto.is_none() || m.nw_proto == Some(h.nw_proto))
        && begins(m.nw_src, h.nw_src)
        && begins(m.nw_dst, h.nw_dst)
        && (m.tp_src.is_none() || m.tp_src == Some(h.tp_src))
        && (m.tp_dst.is_none() || m.tp_dst == Some(h.tp_dst))
}

/// Whether the header meets each of the twelve constraints.
pub fn is_in(m: &Pattern, h: &Header12) -> bool {
    has_link(m, h) && has_network(m, h)
}

/// The address that begins as the longer of two prefixes does.
fn shared_address(a: Option<Prefix>, b: Option<Prefix>) -> u32 {
    match (a, b) {
        (None, None) => 0,
        (Some(p), None) => p.value,
        (None, Some(q)) => q.value,
        (Some(p), Some(q)) => { if p.bits < q.bits { q.value } else { p.value } }
    }
}

/// A header of the values that either match asks for, the first one's before the second one's: it is
/// in both wherever some header is.
pub fn shared_header(a: &Pattern, b: &Pattern) -> Header12 {
    Header12 {
        in_port: a.in_port.or(b.in_port).unwrap_or(0),
        dl_src: a.dl_src.or(b.dl_src).unwrap_or(0) % (1 << 48),
        dl_dst: a.dl_dst.or(b.dl_dst).unwrap_or(0) % (1 << 48),
        dl_vlan: a.dl_vlan.or(b.dl_vlan).unwrap_or(0),
        dl_vlan_pcp: a.dl_vlan_pcp.or(b.dl_vlan_pcp).unwrap_or(0) % 8,
        dl_type: a.dl_type.or(b.dl_type).unwrap_or(0),
        nw_tos: a.nw_tos.or(b.nw_tos).unwrap_or(0) / 4 * 4,
        nw_proto: a.nw_proto.or(b.nw_proto).unwrap_or(0),
        nw_src: shared_address(a.nw_src, b.nw_src),
        nw_dst: shared_address(a.nw_dst, b.nw_dst),
        tp_src: a.tp_src.or(b.tp_src).unwrap_or(0),
        tp_dst: a.tp_dst.or(b.tp_dst).unwrap_or(0),
    }
}

/// The second constraint's value; where it is free, one that the first does not allow.
fn unlike_u8(a: Option<u8>, b: Option<u8>, other: u8) -> u8 {
    match (a, b) {
        (_, Some(y)) => y,
        (Some(0), None) => other,
        (_, None) => 0,
    }
}

fn unlike_u16(a: Option<u16>, b: Option<u16>) -> u16 {
    match (a, b) {
        (_, Some(y)) => y,
        (Some(0), None) => 1,
        (_, None) => 0,
    }
}

fn unlike_u64(a: Option<u64>, b: Option<u64>) -> u64 {
    match (a, b) {
        (_, Some(y)) => y,
        (Some(0), None) => 1,
        (_, None) => 0,
    }
}

/// An address that begins as the second prefix does, with the next bit unlike the first prefix's.
fn unlike_address(a: Option<Prefix>, b: Option<Prefix>) -> u32 {
    let unlike = a.map_or(0, |prefix| !prefix.value);
    match b {
        None => unlike & 0x8000_0000,
        Some(q) => q.value | unlike & 0x8000_0000_u32.checked_shr(u32::from(q.bits)).unwrap_or(0),
    }
}

/// A header of the second match whose other values the first does not allow: it is in the first only
/// where each header of the second is.
pub fn header_aside(a: &Pattern, b: &Pattern) -> Header12 {
    Header12 {
        in_port: unlike_u16(a.in_port, b.in_port),
        dl_src: unlike_u64(a.dl_src, b.dl_src) % (1 << 48),
        dl_dst: unlike_u64(a.dl_dst, b.dl_dst) % (1 << 48),
        dl_vlan: unlike_u16(a.dl_vlan, b.dl_vlan),
        dl_vlan_pcp: unlike_u8(a.dl_vlan_pcp, b.dl_vlan_pcp, 1) % 8,
        dl_type: unlike_u16(a.dl_type, b.dl_type),
        nw_tos: unlike_u8(a.nw_tos, b.nw_tos, 4) / 4 * 4,
        nw_proto: unlike_u8(a.nw_proto, b.nw_proto, 1),
        nw_src: unlike_address(a.nw_src, b.nw_src),
        nw_dst: unlike_address(a.nw_dst, b.nw_dst),
        tp_src: unlike_u16(a.tp_src, b.tp_src),
        tp_dst: unlike_u16(a.tp_dst, b.tp_dst),
    }
}
