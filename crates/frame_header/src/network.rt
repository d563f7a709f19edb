//! The network layer, IPv4 and ARP, and the transport layer behind IPv4.

ghost use Rattle.std.specs.Prelude.{◌≡◌, ◌*◌, ◌/◌, ◌%◌, ◌≤◌, length};
ghost use Rattle.frame_header.specs.Networks.{transport_at, header_length, is_unfragmented, transport_of, ipv4_of, arp_of, network_of};

use of10_model::protocol::{ARP, ICMP, IPV4, TCP, UDP};
use of10_model::service_bits;
use of10_model::wire::{u16_at, u32_at};

/// What is matched of a transport header: two ports, or ICMP's type and code.
#[derive(Clone, Copy)]
pub struct Transport {
    pub tp_src: u16,
    pub tp_dst: u16,
}

/// The fields behind the link layer, 0 where a packet hasn't them.
#[derive(Clone, Copy)]
pub struct Network {
    pub nw_tos: u8,
    pub nw_proto: u8,
    pub nw_src: u32,
    pub nw_dst: u32,
    pub tp_src: u16,
    pub tp_dst: u16,
}

const NO_TRANSPORT: Transport = Transport {
    tp_src: 0,
    tp_dst: 0,
};

const NO_NETWORK: Network = Network {
    nw_tos: 0,
    nw_proto: 0,
    nw_src: 0,
    nw_dst: 0,
    tp_src: 0,
    tp_dst: 0,
};

fn header_length(packet: &[u8]) -> usize
    requires { 1 ≤ length packet.now }
    ensures value { result ≡ header_length packet.now }
    ensures most { result ≤ 60 }
{
    usize::from(packet[0] & 0x0f) * 4
}

// Neither the fragment's offset nor its flag for more is set.
fn is_unfragmented(packet: &[u8]) -> bool
    requires { 8 ≤ length packet.now }
    ensures { result ≡ is_unfragmented packet.now }
{
    u16_at(packet, 6) & 0x3fff == 0
}

#[tactic(auto, unfolding(crate::specs::Networks::transport_at))]
fn transport_at(proto: u8, packet: &[u8], at: usize) -> Transport
    requires { at ≤ 60 }
    ensures { result ≡ transport_at proto packet.now at }
{
    match proto {
        TCP | UDP if at + 4 <= packet.len() => Transport {
            tp_src: u16_at(packet, at),
            tp_dst: u16_at(packet, at + 2),
        },
        ICMP if at + 2 <= packet.len() => Transport {
            tp_src: u16::from(packet[at]),
            tp_dst: u16::from(packet[at + 1]),
        },
        _ => NO_TRANSPORT,
    }
}

#[tactic(auto, unfolding(crate::specs::Networks::transport_of))]
fn transport_of(packet: &[u8]) -> Transport
    requires { 20 ≤ length packet.now }
    ensures { result ≡ transport_of packet.now }
{
    if is_unfragmented(packet) {
        transport_at(packet[9], packet, header_length(packet))
    } else {
        NO_TRANSPORT
    }
}

#[tactic(auto, unfolding(crate::specs::Networks::ipv4_of))]
fn ipv4_of(packet: &[u8]) -> Network
    ensures value { result ≡ ipv4_of packet.now }
    ensures low { result.nw_tos % 4 ≡ 0 }
{
    if packet.len() < 20 || header_length(packet) < 20 {
        return NO_NETWORK;
    }
    let Transport { tp_src, tp_dst } = transport_of(packet);
    Network {
        nw_tos: service_bits(packet[1]),
        nw_proto: packet[9],
        nw_src: u32_at(packet, 12),
        nw_dst: u32_at(packet, 16),
        tp_src,
        tp_dst,
    }
}

#[tactic(auto, unfolding(crate::specs::Networks::arp_of))]
fn arp_of(packet: &[u8]) -> Network
    ensures value { result ≡ arp_of packet.now }
    ensures low { result.nw_tos % 4 ≡ 0 }
{
    if packet.len() < 28 {
        return NO_NETWORK;
    }
    Network {
        nw_proto: packet[7],
        nw_src: u32_at(packet, 14),
        nw_dst: u32_at(packet, 24),
        ..NO_NETWORK
    }
}

/// The fields of a payload of the type `kind`.
#[tactic(auto, unfolding(crate::specs::Networks::network_of))]
pub fn network_of(kind: u16, payload: &[u8]) -> Network
    ensures value { result ≡ network_of kind payload.now }
    ensures low { result.nw_tos % 4 ≡ 0 }
{
    match kind {
        IPV4 => ipv4_of(payload),
        ARP => arp_of(payload),
        _ => NO_NETWORK,
    }
}
