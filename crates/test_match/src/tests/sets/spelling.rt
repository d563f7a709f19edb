//! Matches from their constraints.

ghost use Rattle.std.specs.Prelude.{◌<◌, ◌≤◌, ◌+◌};

use of10_match::Match;
use of10_model::{Pattern, Prefix};

fn freed(free: bool, place: u32) -> u32
    requires { place < 32 }
{
    u32::from(free) << place
}

fn ignored(address: Option<Prefix>) -> u32 {
    address.map_or(32, |prefix| u32::from(32_u8.saturating_sub(prefix.bits)))
}

/// The wildcard word: a bit for each field and a count for each address.
fn word(m: &Pattern) -> u32 {
    let link = freed(m.in_port.is_none(), 0)
        | freed(m.dl_vlan.is_none(), 1)
        | freed(m.dl_src.is_none(), 2)
        | freed(m.dl_dst.is_none(), 3)
        | freed(m.dl_type.is_none(), 4)
        | freed(m.dl_vlan_pcp.is_none(), 20);
    let network = freed(m.nw_proto.is_none(), 5)
        | freed(m.nw_tos.is_none(), 21)
        | ignored(m.nw_src) << 8
        | ignored(m.nw_dst) << 14;
    let ports = freed(m.tp_src.is_none(), 6) | freed(m.tp_dst.is_none(), 7);
    link | network | ports
}

fn put_u16(out: &mut [u8; 40], at: usize, value: Option<u16>)
    requires { at + 2 ≤ 40 }
{
    out[at..at + 2].copy_from_slice(&value.unwrap_or(0).to_be_bytes());
}

fn put_u32(out: &mut [u8; 40], at: usize, value: u32)
    requires { at + 4 ≤ 40 }
{
    out[at..at + 4].copy_from_slice(&value.to_be_bytes());
}

fn put_u48(out: &mut [u8; 40], at: usize, value: Option<u64>)
    requires { at + 6 ≤ 40 }
{
    out[at..at + 6].copy_from_slice(&value.unwrap_or(0).to_be_bytes()[2..]);
}

fn address(constraint: Option<Prefix>) -> u32 {
    constraint.map_or(0, |prefix| prefix.value)
}

/// The normal form of the match with these constraints.
pub fn match_of(m: &Pattern) -> Match {
    let mut bytes = [0; 40];
    put_u32(&mut bytes, 0, word(m));
    put_u16(&mut bytes, 4, m.in_port);
    put_u48(&mut bytes, 6, m.dl_src);
    put_u48(&mut bytes, 12, m.dl_dst);
    put_u16(&mut bytes, 18, m.dl_vlan);
    bytes[20] = m.dl_vlan_pcp.unwrap_or(0);
    put_u16(&mut bytes, 22, m.dl_type);
    bytes[24] = m.nw_tos.unwrap_or(0);
    bytes[25] = m.nw_proto.unwrap_or(0);
    put_u32(&mut bytes, 28, address(m.nw_src));
    put_u32(&mut bytes, 32, address(m.nw_dst));
    put_u16(&mut bytes, 36, m.tp_src);
    put_u16(&mut bytes, 38, m.tp_dst);
    Match::decode(&bytes)
}
