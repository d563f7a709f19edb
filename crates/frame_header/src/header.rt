//! The header of a packet.

ghost use Rattle.std.specs.Prelude.{◌≡◌};
ghost use Rattle.of10_model.specs.Header.{IsHeader};
ghost use Rattle.frame_header.specs.Headers.{header_of_packet, dl_type_of};

use crate::link::{LinkLayer, address_at, link_of};
use crate::network::network_of;
use of10_match::Header12;

/// The header of a packet that came in at `in_port` (OpenFlow 1.0.0, section 3.4). Each packet has
/// one: a field whose bytes aren't all there is 0, and the ports of an IPv4 fragment are 0 (this
/// proxy's own rule). At most one VLAN tag is read; an untagged packet has the VLAN 0xffff, and an
/// 802.3 frame without SNAP the type 0x05ff.
#[tactic(auto, unfolding(crate::specs::Headers::header_of_packet))]
#[inline(always)]
pub fn header_of(in_port: u16, bytes: &[u8]) -> Header12
    ensures value { result ≡ header_of_packet in_port bytes.now }
    ensures kind { result.dl_type ≡ dl_type_of bytes.now }
    ensures range { IsHeader result }
{
    let LinkLayer {
        vlan,
        pcp,
        kind,
        payload,
    } = link_of(bytes);
    let network = network_of(kind, payload);
    Header12 {
        in_port,
        dl_src: address_at(bytes, 6),
        dl_dst: address_at(bytes, 0),
        dl_vlan: vlan,
        dl_vlan_pcp: pcp,
        dl_type: kind,
        nw_tos: network.nw_tos,
        nw_proto: network.nw_proto,
        nw_src: network.nw_src,
        nw_dst: network.nw_dst,
        tp_src: network.tp_src,
        tp_dst: network.tp_dst,
    }
}
