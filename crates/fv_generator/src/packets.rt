//! The packets that are made, and matches of them.

ghost use Rattle.std.specs.Prelude.{◌≡◌};
ghost use Rattle.fv_generator.specs.Packets.{packet_to, tcp_from, tcp_to};

use of10_match::Match;
use of10_model::Pattern;
use of10_model::protocol::{IPV4, TCP};
use of10_model::wire::set_u16;

/// Bytes of a packet: those of its Ethernet, IPv4 and TCP headers, which have no options.
pub(crate) const PACKET_BYTES: u16 = 54;

/// Where the port stands to which a packet goes.
const TO_PORT: usize = 36;

/// A packet to port 0.
const PACKET: [u8; 54] = [
    // Ethernet: to the address 2 from the address 1, IPv4
    0, 0, 0, 0, 0, 2, 0, 0, 0, 0, 0, 1, 0x08, 0x00,
    // IPv4: 40 bytes, 64 hops, TCP, from 10.0.0.1 to 10.0.0.2
    0x45, 0, 0, 40, 0, 0, 0, 0, 64, 6, 0, 0, 10, 0, 0, 1, 10, 0, 0, 2,
    // TCP: from port 1024, a header of 20 bytes, SYN
    0x04, 0x00, 0, 0, 0, 0, 0, 0, 0, 0, 0, 0, 0x50, 0x02, 0, 0, 0, 0, 0, 0,
];

/// A TCP packet to a port: the first of a connection from 10.0.0.1, port 1024, to 10.0.0.2.
#[tactic(auto, unfolding(crate::specs::Packets::packet_to))]
pub(crate) fn packet_to(port: u16) -> [u8; 54]
    ensures { result ≡ packet_to port }
{
    let mut packet = PACKET;
    set_u16(&mut packet, TO_PORT, port);
    packet
}

/// The match of the TCP packets from a port.
#[tactic(auto, using(crate::proofs::Normal::from_is_normal))]
pub(crate) fn tcp_from(port: u16) -> Match
    ensures { result ≡ tcp_from port }
{
    Match::of(Pattern {
        dl_type: Some(IPV4),
        nw_proto: Some(TCP),
        tp_src: Some(port),
        ..Pattern::ANY
    })
}

/// The match of the TCP packets to a port.
#[tactic(auto, using(crate::proofs::Normal::to_is_normal))]
pub(crate) fn tcp_to(port: u16) -> Match
    ensures { result ≡ tcp_to port }
{
    Match::of(Pattern {
        dl_type: Some(IPV4),
        nw_proto: Some(TCP),
        tp_dst: Some(port),
        ..Pattern::ANY
    })
}
