//! The one spelling of a normal match in 40 bytes (OpenFlow 1.0.0, section 5.2.3).

ghost use Rattle.std.specs.Prelude.{◌≡◌, ◌≤◌, ◌+◌, ◌^◌, ◌++◌, length, take};
ghost use Rattle.byteorder.specs.Endian.{big_bytes};
ghost use Rattle.of10_model.specs.Normal.{IsBelow, IsInRange, IsPrefix};
ghost use Rattle.of10_model.specs.Spelling.{freed, ignored, number_or_zero, address_or_zero, wildcards, Spell};

use of10_model::wire::{set_u16, set_u32, set_u48};
use of10_model::{Pattern, Prefix};

fn freed<T: Copy>(constraint: Option<T>) -> u32
    ensures value { result ≡ freed constraint }
    ensures small { result ≤ 1 }
{
    if constraint.is_none() { 1 } else { 0 }
}

fn ignored_count(constraint: Option<Prefix>) -> u32
    requires { IsPrefix constraint }
    ensures value { result ≡ ignored constraint }
    ensures small { result ≤ 32 }
{
    match constraint {
        None => 32,
        Some(prefix) => 32 - u32::from(prefix.bits),
    }
}

/// The wildcard word.
fn word(m: &Pattern) -> u32
    requires source { IsPrefix m.now.nw_src }
    requires destination { IsPrefix m.now.nw_dst }
    ensures { result ≡ wildcards m.now }
{
    freed(m.in_port)
        + 0x2 * freed(m.dl_vlan)
        + 0x4 * freed(m.dl_src)
        + 0x8 * freed(m.dl_dst)
        + 0x10 * freed(m.dl_type)
        + 0x20 * freed(m.nw_proto)
        + 0x40 * freed(m.tp_src)
        + 0x80 * freed(m.tp_dst)
        + 0x100 * ignored_count(m.nw_src)
        + 0x4000 * ignored_count(m.nw_dst)
        + 0x10_0000 * freed(m.dl_vlan_pcp)
        + 0x20_0000 * freed(m.nw_tos)
}

// Each of these writes a field's number, or zero where the field is free, behind the bytes before it.

fn put_word(out: &mut [u8], m: &Pattern)
    requires within { 4 ≤ length out.old }
    requires source { IsPrefix m.now.nw_src }
    requires destination { IsPrefix m.now.nw_dst }
    ensures { take 4 out.new ≡ big_bytes 4 (wildcards m.now) }
{
    set_u32(out, 0, word(m));
}

fn put_small(out: &mut [u8], at: usize, field: Option<u8>)
    requires { at + 1 ≤ length out.old }
    ensures { take (at + 1) out.new ≡ take at out.old ++ big_bytes 1 (number_or_zero field) }
{
    out[at] = field.unwrap_or(0);
}

fn put_field(out: &mut [u8], at: usize, field: Option<u16>)
    requires { at + 2 ≤ length out.old }
    ensures { take (at + 2) out.new ≡ take at out.old ++ big_bytes 2 (number_or_zero field) }
{
    set_u16(out, at, field.unwrap_or(0));
}

fn put_address(out: &mut [u8], at: usize, field: Option<u64>)
    requires within { at + 6 ≤ length out.old }
    requires small { IsBelow (2 ^ 48) field }
    ensures { take (at + 6) out.new ≡ take at out.old ++ big_bytes 6 (number_or_zero field) }
{
    set_u48(out, at, field.unwrap_or(0));
}

fn put_prefix(out: &mut [u8], at: usize, field: Option<Prefix>)
    requires { at + 4 ≤ length out.old }
    ensures { take (at + 4) out.new ≡ take at out.old ++ big_bytes 4 (address_or_zero field) }
{
    set_u32(out, at, field.map_or(0, |prefix| prefix.value));
}

/// The spelling of a match.
pub(crate) fn spell(m: &Pattern) -> [u8; 40]
    requires { IsInRange m.now }
    ensures { result ≡ Spell m.now }
{
    let mut out = [0; 40];
    put_word(&mut out, m);
    put_field(&mut out, 4, m.in_port);
    put_address(&mut out, 6, m.dl_src);
    put_address(&mut out, 12, m.dl_dst);
    put_field(&mut out, 18, m.dl_vlan);
    put_small(&mut out, 20, m.dl_vlan_pcp);
    put_small(&mut out, 21, None);
    put_field(&mut out, 22, m.dl_type);
    put_small(&mut out, 24, m.nw_tos);
    put_small(&mut out, 25, m.nw_proto);
    put_field(&mut out, 26, None);
    put_prefix(&mut out, 28, m.nw_src);
    put_prefix(&mut out, 32, m.nw_dst);
    put_field(&mut out, 36, m.tp_src);
    put_field(&mut out, 38, m.tp_dst);
    out
}
