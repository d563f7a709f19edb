//! What actions make of headers (OpenFlow 1.0.0, sections 3.3 and 5.2.4).

ghost use Rattle.std.specs.Prelude.{◌≡◌, if◌then◌else◌};
ghost use Rattle.of10_action.specs.Actions.{HasAddress};
ghost use Rattle.match_meet.specs.Rewriting.{rewritten, is_ipv4, is_tcp_or_udp};

use of10_action::Action;
use of10_match::Header12;
use of10_model::protocol::{IPV4, TCP, UDP, UNTAGGED};
use of10_model::{service_bits, vlan_number, vlan_priority};

fn where_ipv4(h: &Header12, changed: Header12) -> Header12
    ensures { result ≡ (if is_ipv4 h.now then changed else h.now) }
{
    if h.dl_type == IPV4 { changed } else { *h }
}

fn where_tcp_or_udp(h: &Header12, changed: Header12) -> Header12
    ensures { result ≡ (if is_tcp_or_udp h.now then changed else h.now) }
{
    if h.dl_type == IPV4 && (h.nw_proto == TCP || h.nw_proto == UDP) {
        changed
    } else {
        *h
    }
}

/// The header after the action. SET_VLAN_VID and SET_VLAN_PCP tag a packet without a tag, with priority
/// 0 and VLAN 0; network fields change in IPv4 alone, and ports in TCP and UDP. OUTPUT and ENQUEUE
/// change nothing.
pub fn rewrite_header(h: &Header12, action: &Action) -> Header12
    requires { HasAddress action.now }
    ensures { result ≡ rewritten h.now action.now }
{
    match *action {
        Action::Output { .. } | Action::Enqueue { .. } => *h,
        Action::SetVlanVid(vlan) => Header12 {
            dl_vlan: vlan_number(vlan),
            dl_vlan_pcp: if h.dl_vlan == UNTAGGED {
                0
            } else {
                h.dl_vlan_pcp
            },
            ..*h
        },
        Action::SetVlanPcp(priority) => Header12 {
            dl_vlan: if h.dl_vlan == UNTAGGED { 0 } else { h.dl_vlan },
            dl_vlan_pcp: vlan_priority(priority),
            ..*h
        },
        Action::StripVlan => Header12 {
            dl_vlan: UNTAGGED,
            dl_vlan_pcp: 0,
            ..*h
        },
        Action::SetDlSrc(dl_src) => Header12 { dl_src, ..*h },
        Action::SetDlDst(dl_dst) => Header12 { dl_dst, ..*h },
        Action::SetNwSrc(nw_src) => where_ipv4(h, Header12 { nw_src, ..*h }),
        Action::SetNwDst(nw_dst) => where_ipv4(h, Header12 { nw_dst, ..*h }),
        Action::SetNwTos(service) => {
            let nw_tos = service_bits(service);
            where_ipv4(h, Header12 { nw_tos, ..*h })
        }
        Action::SetTpSrc(tp_src) => where_tcp_or_udp(h, Header12 { tp_src, ..*h }),
        Action::SetTpDst(tp_dst) => where_tcp_or_udp(h, Header12 { tp_dst, ..*h }),
    }
}
