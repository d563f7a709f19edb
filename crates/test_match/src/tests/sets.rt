//! Matches as sets of headers, and what actions make of headers and of matches.

mod covers;
mod drawn;
mod membership;
mod spelling;

ghost use Rattle.of10_action.specs.Actions.{HasAddress};

use covers::{expected, with_vlan};
use drawn::{Draws, FIRST_HEADER};
use expectations::{expect, expect_eq};
use match_meet::{disjoint, includes, includes_aside, meet, rewrite, rewrite_header};
use membership::{header_aside, is_in, shared_header};
use of10_action::Action;
use of10_match::{Header12, Match};
use of10_model::{Pattern, Prefix};
use spelling::match_of;
use std::test::Fail;

fn prefix(value: u32, bits: u8) -> Option<Prefix> {
    Some(Prefix { bits, value })
}

/// IPv4 packets from a network, by the wildcard word and the address of the match.
fn spelled(word: u32, address: u32) -> [u8; 40] {
    let mut bytes = [0; 40];
    bytes[0..4].copy_from_slice(&word.to_be_bytes());
    bytes[22..24].copy_from_slice(&[0x08, 0x00]);
    bytes[28..32].copy_from_slice(&address.to_be_bytes());
    bytes
}

#[test]
fn the_longer_prefix_is_the_meet(_rt: HostRuntime) -> Result<(), Fail> {
    let net_bytes = spelled(0x003808ef, 0x0a010200);
    let net = Match::decode(&net_bytes);
    let wide = Match::decode(&spelled(0x003818ef, 0x0a000000));
    let other = Match::decode(&spelled(0x003810ef, 0x0a020000));
    expect_eq!(meet(&net, &wide), Some(net));
    expect_eq!(meet(&net, &wide).map(|m| m.encode()), Some(net_bytes));
    expect_eq!(meet(&wide, &net), Some(net));
    expect_eq!(meet(&net, &other), None);
    expect!(disjoint(&net, &other));
    expect!(includes(&wide, &net));
    expect!(!includes(&net, &wide));
    Ok(())
}

#[test]
fn in_port_can_be_disregarded(_rt: HostRuntime) -> Result<(), Fail> {
    let at_one = match_of(&Pattern {
        in_port: Some(1),
        ..Pattern::ANY
    });
    let at_two = match_of(&Pattern {
        in_port: Some(2),
        dl_type: Some(0x0800),
        ..Pattern::ANY
    });
    expect!(!includes(&at_one, &at_two));
    expect!(includes_aside(&at_one, &at_two));
    expect!(!includes_aside(&at_two, &at_one));
    Ok(())
}

/// A match of tagged packets of this type and protocol.
fn tagged(kind: u16, protocol: u8) -> Pattern {
    Pattern {
        dl_vlan: Some(7),
        dl_vlan_pcp: Some(3),
        dl_type: Some(kind),
        nw_proto: Some(protocol),
        ..Pattern::ANY
    }
}

fn untagged() -> Pattern {
    Pattern {
        dl_vlan: Some(0xffff),
        ..Pattern::ANY
    }
}

/// A match of one header: an IPv4 packet of TCP with a tag.
fn one() -> Pattern {
    Pattern {
        in_port: Some(1),
        dl_src: Some(2),
        dl_dst: Some(3),
        nw_tos: Some(4),
        nw_src: prefix(0x0a000001, 32),
        nw_dst: prefix(0x0a000002, 32),
        tp_src: Some(80),
        tp_dst: Some(1024),
        ..tagged(0x0800, 6)
    }
}

fn cover(before: &Pattern, action: Action) -> Pattern
    requires { HasAddress action }
{
    *rewrite(&match_of(before), &action).pattern()
}

#[test]
fn vlan_actions_change_the_cover(_rt: HostRuntime) -> Result<(), Fail> {
    let vid = Action::SetVlanVid(0x1005);
    expect_eq!(
        cover(&untagged(), vid),
        with_vlan(&Pattern::ANY, 5, Some(0))
    );
    expect_eq!(cover(&one(), vid), with_vlan(&one(), 5, Some(3)));
    expect_eq!(cover(&Pattern::ANY, vid), with_vlan(&Pattern::ANY, 5, None));

    let pcp = Action::SetVlanPcp(0x0d);
    expect_eq!(cover(&Pattern::ANY, pcp), Pattern::ANY);
    expect_eq!(
        cover(&untagged(), pcp),
        with_vlan(&Pattern::ANY, 0, Some(5))
    );
    expect_eq!(cover(&one(), pcp), with_vlan(&one(), 7, Some(5)));

    let strip = Action::StripVlan;
    expect_eq!(cover(&one(), strip), with_vlan(&one(), 0xffff, Some(0)));
    let tcp = tagged(0x0800, 6);
    expect_eq!(cover(&tcp, strip), with_vlan(&tcp, 0xffff, None));
    Ok(())
}

#[test]
fn address_actions_change_the_cover(_rt: HostRuntime) -> Result<(), Fail> {
    let from = Pattern {
        dl_src: Some(9),
        ..Pattern::ANY
    };
    let to = Pattern {
        dl_dst: Some(9),
        ..Pattern::ANY
    };
    expect_eq!(cover(&Pattern::ANY, Action::SetDlSrc(9)), from);
    expect_eq!(cover(&Pattern::ANY, Action::SetDlDst(9)), to);

    let address = 0x0a000009;
    let icmp = tagged(0x0800, 1);
    let arp = tagged(0x0806, 1);
    let from = Pattern {
        nw_src: prefix(address, 32),
        ..icmp
    };
    let to = Pattern {
        nw_dst: prefix(address, 32),
        ..icmp
    };
    expect_eq!(cover(&icmp, Action::SetNwSrc(address)), from);
    expect_eq!(cover(&icmp, Action::SetNwDst(address)), to);
    expect_eq!(cover(&arp, Action::SetNwSrc(address)), arp);
    expect_eq!(cover(&arp, Action::SetNwDst(address)), arp);
    Ok(())
}

#[test]
fn service_and_port_actions_change_the_cover(_rt: HostRuntime) -> Result<(), Fail> {
    let udp = tagged(0x0800, 17);
    let icmp = tagged(0x0800, 1);
    let arp = tagged(0x0806, 1);
    let service = Pattern {
        nw_tos: Some(0x14),
        ..udp
    };
    let from = Pattern {
        tp_src: Some(53),
        ..udp
    };
    let to = Pattern {
        tp_dst: Some(53),
        ..udp
    };
    expect_eq!(cover(&udp, Action::SetNwTos(0x17)), service);
    expect_eq!(cover(&arp, Action::SetNwTos(0x17)), arp);
    expect_eq!(cover(&udp, Action::SetTpSrc(53)), from);
    expect_eq!(cover(&udp, Action::SetTpDst(53)), to);
    expect_eq!(cover(&icmp, Action::SetTpSrc(53)), icmp);
    expect_eq!(cover(&icmp, Action::SetTpDst(53)), icmp);
    expect_eq!(cover(&udp, Action::Enqueue { port: 1, queue: 2 }), udp);
    Ok(())
}

#[test]
fn headers_are_rewritten(_rt: HostRuntime) -> Result<(), Fail> {
    let h = FIRST_HEADER;
    let untagged = Header12 {
        dl_vlan: 0xffff,
        dl_vlan_pcp: 0,
        ..h
    };
    let vid = Action::SetVlanVid(0x1005);
    let pcp = Action::SetVlanPcp(0x0d);
    expect_eq!(rewrite_header(&h, &Action::StripVlan), untagged);
    expect_eq!(rewrite_header(&h, &vid), Header12 { dl_vlan: 5, ..h });
    expect_eq!(
        rewrite_header(&untagged, &vid),
        Header12 {
            dl_vlan: 5,
            ..untagged
        }
    );
    expect_eq!(
        rewrite_header(&untagged, &pcp),
        Header12 {
            dl_vlan: 0,
            dl_vlan_pcp: 5,
            ..h
        }
    );
    Ok(())
}

#[test]
fn network_fields_and_ports_are_rewritten_where_they_are(_rt: HostRuntime) -> Result<(), Fail> {
    let h = FIRST_HEADER;
    let arp = Header12 {
        dl_type: 0x0806,
        ..h
    };
    let from = Header12 { nw_src: 9, ..h };
    let to = Header12 { tp_dst: 9, ..h };
    expect_eq!(rewrite_header(&h, &Action::SetNwSrc(9)), from);
    expect_eq!(rewrite_header(&arp, &Action::SetNwSrc(9)), arp);
    expect_eq!(rewrite_header(&h, &Action::SetTpDst(9)), to);
    expect_eq!(rewrite_header(&arp, &Action::SetTpDst(9)), arp);
    Ok(())
}

/// Whether what two matches share agrees with plain membership of this header, and of one that is in
/// both wherever some header is.
fn shares(a: &Match, b: &Match, h: &Header12) -> bool {
    let (first, second) = (a.pattern(), b.pattern());
    let shared = shared_header(first, second);
    let is_shared = is_in(first, &shared) && is_in(second, &shared);
    let in_both = is_in(first, h) && is_in(second, h);
    disjoint(a, b) != is_shared
        && (is_shared || !in_both)
        && match meet(a, b) {
            None => !is_shared,
            Some(r) => is_in(r.pattern(), &shared) && is_in(r.pattern(), h) == in_both,
        }
}

/// Whether the answer, that each header of the second match is in the first, agrees with plain
/// membership of this header, and of one that is in the first only then.
fn tells(a: &Pattern, b: &Pattern, includes: bool, h: &Header12) -> bool {
    let aside = header_aside(a, b);
    is_in(b, &aside) && is_in(a, &aside) == includes && (is_in(a, h) || !is_in(b, h) || !includes)
}

fn agree(a: &Match, b: &Match, h: &Header12) -> bool {
    let any_port = Pattern {
        in_port: None,
        ..*a.pattern()
    };
    a.matches(h) == is_in(a.pattern(), h)
        && shares(a, b, h)
        && tells(a.pattern(), b.pattern(), includes(a, b), h)
        && tells(&any_port, b.pattern(), includes_aside(a, b), h)
}

/// Whether the cover has the table's constraints, and the rewritten header where it had the header.
fn is_covered(m: &Match, action: &Action, h: &Header12) -> bool
    requires { HasAddress action.now }
{
    let cover = rewrite(m, action);
    *cover.pattern() == expected(m, action)
        && (is_in(cover.pattern(), &rewrite_header(h, action)) || !is_in(m.pattern(), h))
}

#[test]
fn sets_and_covers_agree_with_membership(_rt: HostRuntime) -> Result<(), Fail> {
    let mut draws = Draws::new(1);
    let mut h = FIRST_HEADER;
    for _ in 0..4000 {
        let a = match_of(&draws.pattern_near(&h));
        h = draws.changed(&h);
        let b = match_of(&draws.pattern_near(&h));
        h = draws.changed(&h);
        let action = draws.action();
        expect!(agree(&a, &b, &h), (a, b, h));
        expect!(is_covered(&a, &action, &h), (a, action, h));
    }
    Ok(())
}
