//! Matches and packets.

ghost use Rattle.std.specs.Prelude.{◌≡◌, None, Some};
ghost use Rattle.of10_model.specs.Normal.{IsPrefix};
ghost use Rattle.samples.specs.Makers.{kind_for, packets_of, pattern_of, prefix_of, protocol_of};

use of10_match::{Header12, Match};
use of10_model::{Pattern, Prefix};

/// Which packets a match has.
#[derive(Clone, Copy, Debug, PartialEq, Eq)]
pub struct Packets {
    pub in_port: Option<u16>,
    /// The network of the destination, and how many of its bits count.
    pub net: u32,
    pub bits: u8,
    /// The TCP port of the destination.
    pub tcp: Option<u16>,
}

/// All packets.
pub const ANY: Packets = Packets {
    in_port: None,
    net: 0,
    bits: 0,
    tcp: None,
};

fn prefix(net: u32, bits: u8) -> Option<Prefix>
    ensures value { result ≡ prefix_of net bits }
    ensures normal { IsPrefix result }
{
    if bits == 0 {
        return None;
    }
    let ignored = 32_u8.saturating_sub(bits);
    Some(Prefix::leading(net, 32 - ignored))
}

fn kind(net: Option<Prefix>, tcp: Option<u16>) -> Option<u16>
    ensures { result ≡ kind_for net tcp }
{
    if net.is_some() || tcp.is_some() {
        Some(0x0800)
    } else {
        None
    }
}

fn protocol(tcp: Option<u16>) -> Option<u8>
    ensures { result ≡ protocol_of tcp }
{
    if tcp.is_some() { Some(6) } else { None }
}

fn pattern(in_port: Option<u16>, net: Option<Prefix>, tcp: Option<u16>) -> Match
    requires { IsPrefix net }
    ensures { result ≡ pattern_of in_port net tcp }
{
    Match::of(Pattern {
        in_port,
        dl_src: None,
        dl_dst: None,
        dl_vlan: None,
        dl_vlan_pcp: None,
        dl_type: kind(net, tcp),
        nw_tos: None,
        nw_proto: protocol(tcp),
        nw_src: None,
        nw_dst: net,
        tp_src: None,
        tp_dst: tcp,
    })
}

/// The match of these packets.
pub fn match_of(packets: &Packets) -> Match
    ensures { result ≡ packets_of packets.now }
{
    pattern(
        packets.in_port,
        prefix(packets.net, packets.bits),
        packets.tcp,
    )
}

/// The match of the TCP packets for a port, all or those that came in by one port.
pub fn tcp(in_port: Option<u16>, port: u16) -> Match
    ensures { result ≡ pattern_of in_port None (Some port) }
{
    match_of(&Packets {
        in_port,
        tcp: Some(port),
        ..ANY
    })
}

/// A TCP packet from 10.0.0.1.
pub fn packet(in_port: u16, nw_dst: u32, tp_dst: u16) -> Header12
    ensures { result ≡ record { in_port = in_port; dl_src = 1; dl_dst = 2; dl_vlan = 0xffff; dl_vlan_pcp = 0; dl_type = 0x0800; nw_tos = 0; nw_proto = 6; nw_src = 0x0a000001; nw_dst = nw_dst; tp_src = 1024; tp_dst = tp_dst } }
{
    Header12 {
        in_port,
        dl_src: 1,
        dl_dst: 2,
        dl_vlan: 0xffff,
        dl_vlan_pcp: 0,
        dl_type: 0x0800,
        nw_tos: 0,
        nw_proto: 6,
        nw_src: 0x0a00_0001,
        nw_dst,
        tp_src: 1024,
        tp_dst,
    }
}
