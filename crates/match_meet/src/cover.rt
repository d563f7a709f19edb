//! What actions make of matches: the cover of their headers, rewritten (this proxy's own rule).

ghost use Rattle.std.specs.Prelude.{◌≡◌, if◌then◌else◌};
ghost use Rattle.of10_model.specs.Header.{Header, IsHeader};
ghost use Rattle.of10_model.specs.Pattern.{Has};
ghost use Rattle.of10_model.specs.Normal.{is_value, IsInRange};
ghost use Rattle.of10_action.specs.Actions.{HasAddress};
ghost use Rattle.match_meet.specs.Rewriting.{rewritten, cover_of, names_tcp_or_udp};

use of10_action::Action;
use of10_match::{Match, has_service};
use of10_model::protocol::{TCP, UDP, UNTAGGED};
use of10_model::{Pattern, Prefix, service_bits, vlan_number, vlan_priority};

fn names_ipv4(m: &Pattern) -> bool
    ensures { result ≡ is_value 0x0800 m.now.dl_type }
{
    has_service(m.dl_type)
}

fn names_tcp_or_udp(m: &Pattern) -> bool
    ensures { result ≡ names_tcp_or_udp m.now }
{
    names_ipv4(m)
        && m.nw_proto
            .is_some_and(|number| number == TCP || number == UDP)
}

fn names_untagged(m: &Pattern) -> bool
    ensures { result ≡ is_value 0xffff m.now.dl_vlan }
{
    m.dl_vlan.is_some_and(|number| number == UNTAGGED)
}

fn where_ipv4(m: &Pattern, changed: Pattern) -> Pattern
    ensures { result ≡ (if is_value 0x0800 m.now.dl_type then changed else m.now) }
{
    if names_ipv4(m) { changed } else { *m }
}

fn where_tcp_or_udp(m: &Pattern, changed: Pattern) -> Pattern
    ensures { result ≡ (if names_tcp_or_udp m.now then changed else m.now) }
{
    if names_tcp_or_udp(m) { changed } else { *m }
}

/// The priority behind a VLAN that is set: 0 where packets had no tag before.
fn priority_behind(m: &Pattern) -> Option<u8>
    ensures { result ≡ (if is_value 0xffff m.now.dl_vlan then Some 0 else m.now.dl_vlan_pcp) }
{
    if names_untagged(m) {
        Some(0)
    } else {
        m.dl_vlan_pcp
    }
}

fn with_priority(m: &Pattern, priority: u8) -> Pattern
    ensures { result ≡ cover_of m.now (Action.SetVlanPcp priority) }
{
    let dl_vlan_pcp = Some(vlan_priority(priority));
    match m.dl_vlan {
        None => *m,
        Some(UNTAGGED) => Pattern {
            dl_vlan: Some(0),
            dl_vlan_pcp,
            ..*m
        },
        Some(_) => Pattern { dl_vlan_pcp, ..*m },
    }
}

fn without_vlan(m: &Pattern) -> Pattern
    ensures { result ≡ cover_of m.now Action.StripVlan }
{
    Pattern {
        dl_vlan: Some(UNTAGGED),
        dl_vlan_pcp: m.is_exact().then_some(0),
        ..*m
    }
}

fn from_address(m: &Pattern, address: u32) -> Pattern
    ensures { result ≡ cover_of m.now (Action.SetNwSrc address) }
{
    let nw_src = Some(Prefix::whole(address));
    where_ipv4(m, Pattern { nw_src, ..*m })
}

fn to_address(m: &Pattern, address: u32) -> Pattern
    ensures { result ≡ cover_of m.now (Action.SetNwDst address) }
{
    let nw_dst = Some(Prefix::whole(address));
    where_ipv4(m, Pattern { nw_dst, ..*m })
}

fn with_service(m: &Pattern, service: u8) -> Pattern
    ensures { result ≡ cover_of m.now (Action.SetNwTos service) }
{
    let nw_tos = Some(service_bits(service));
    where_ipv4(m, Pattern { nw_tos, ..*m })
}

fn from_port(m: &Pattern, port: u16) -> Pattern
    ensures { result ≡ cover_of m.now (Action.SetTpSrc port) }
{
    let tp_src = Some(port);
    where_tcp_or_udp(m, Pattern { tp_src, ..*m })
}

fn to_port(m: &Pattern, port: u16) -> Pattern
    ensures { result ≡ cover_of m.now (Action.SetTpDst port) }
{
    let tp_dst = Some(port);
    where_tcp_or_udp(m, Pattern { tp_dst, ..*m })
}

fn with_vlan(m: &Pattern, vlan: u16) -> Pattern
    ensures { result ≡ cover_of m.now (Action.SetVlanVid vlan) }
{
    Pattern {
        dl_vlan: Some(vlan_number(vlan)),
        dl_vlan_pcp: priority_behind(m),
        ..*m
    }
}

fn cover(m: &Pattern, action: &Action) -> Pattern
    requires range { IsInRange m.now }
    requires address { HasAddress action.now }
    ensures value { result ≡ cover_of m.now action.now }
    ensures range { IsInRange result }
{
    match *action {
        Action::Output { .. } | Action::Enqueue { .. } => *m,
        Action::SetVlanVid(vlan) => with_vlan(m, vlan),
        Action::SetVlanPcp(priority) => with_priority(m, priority),
        Action::StripVlan => without_vlan(m),
        Action::SetDlSrc(address) => Pattern {
            dl_src: Some(address),
            ..*m
        },
        Action::SetDlDst(address) => Pattern {
            dl_dst: Some(address),
            ..*m
        },
        Action::SetNwSrc(address) => from_address(m, address),
        Action::SetNwDst(address) => to_address(m, address),
        Action::SetNwTos(service) => with_service(m, service),
        Action::SetTpSrc(port) => from_port(m, port),
        Action::SetTpDst(port) => to_port(m, port),
    }
}

/// The cover of the match's headers after the action: each of them, rewritten, is in it. A constraint
/// changes as its field does. Where packets of the match may or may not have the field that the action
/// sets, its constraint is free already and stays so (this proxy's own rule).
pub fn rewrite(m: &Match, action: &Action) -> Match
    requires { HasAddress action.now }
    ensures value { result ≡ cover_of m.now action.now }
    ensures headers { (h : Header) → IsHeader h → Has m.now h → Has result (rewritten h action.now) }
{
    Match::of(cover(m.pattern(), action))
}
