//! Which constraints mean anything (OpenFlow 1.0.0, section 3.4).

ghost use Rattle.std.specs.Prelude.{◌≡◌, ◌||◌, if◌then◌else◌};
ghost use Rattle.of10_model.specs.Normal.{applied, is_value, has_vlan, has_network, has_service, has_ports};

use of10_model::protocol::{ARP, ICMP, IPV4, TCP, UDP, UNTAGGED};
use of10_model::{Pattern, Prefix};

/// Whether there is a tag, and so a VLAN priority.
pub fn has_vlan(vlan: Option<u16>) -> bool
    ensures { result ≡ has_vlan vlan }
{
    vlan.is_some_and(|number| number != UNTAGGED)
}

/// Whether the type is one whose packets have a type of service: IPv4.
pub fn has_service(kind: Option<u16>) -> bool
    ensures { result ≡ has_service kind }
{
    kind.is_some_and(|number| number == IPV4)
}

/// Whether the type is one whose packets have a network protocol and addresses: IPv4 or ARP.
pub fn has_network(kind: Option<u16>) -> bool
    ensures { result ≡ has_network kind }
{
    kind.is_some_and(|number| number == IPV4 || number == ARP)
}

fn is_transport(protocol: Option<u8>) -> bool
    ensures { result ≡ (is_value 1 protocol || is_value 6 protocol || is_value 17 protocol) }
{
    protocol.is_some_and(|number| number == ICMP || number == TCP || number == UDP)
}

/// Whether type and protocol are those of packets that have transport ports: IPv4 with ICMP, TCP or UDP.
pub fn has_ports(kind: Option<u16>, protocol: Option<u8>) -> bool
    ensures { result ≡ has_ports kind protocol }
{
    has_service(kind) && is_transport(protocol)
}

fn kept<T: Copy>(exact: bool, needed: bool, constraint: Option<T>, zero: T) -> Option<T>
    ensures { result ≡ (if needed then constraint else (if exact then Some zero else None)) }
{
    if needed {
        constraint
    } else if exact {
        Some(zero)
    } else {
        None
    }
}

/// The match with each field without its prerequisite made meaningless.
#[tactic(auto, unfolding(of10_model::specs::Normal::applied))]
pub fn normal(m: &Pattern) -> Pattern
    ensures { result ≡ applied m.now }
{
    let exact = m.is_exact();
    let network = has_network(m.dl_type);
    let nw_proto = kept(exact, network, m.nw_proto, 0);
    let ports = has_ports(m.dl_type, nw_proto);
    let zero = Prefix::whole(0);
    Pattern {
        dl_vlan_pcp: kept(exact, has_vlan(m.dl_vlan), m.dl_vlan_pcp, 0),
        nw_tos: kept(exact, has_service(m.dl_type), m.nw_tos, 0),
        nw_proto,
        nw_src: kept(exact, network, m.nw_src, zero),
        nw_dst: kept(exact, network, m.nw_dst, zero),
        tp_src: kept(exact, ports, m.tp_src, 0),
        tp_dst: kept(exact, ports, m.tp_dst, 0),
        ..*m
    }
}
