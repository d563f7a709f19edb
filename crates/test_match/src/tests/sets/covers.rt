//! The constraints that each action changes, with their new values.

use of10_action::Action;
use of10_match::Match;
use of10_model::{Pattern, Prefix};

fn whole(value: u32) -> Option<Prefix> {
    Some(Prefix { bits: 32, value })
}

/// The match with this VLAN and this priority.
pub fn with_vlan(m: &Pattern, dl_vlan: u16, dl_vlan_pcp: Option<u8>) -> Pattern {
    Pattern {
        dl_vlan: Some(dl_vlan),
        dl_vlan_pcp,
        ..*m
    }
}

fn with_vlan_id(m: &Pattern, vlan: u16) -> Pattern {
    match m.dl_vlan {
        Some(0xffff) => with_vlan(m, vlan % 4096, Some(0)),
        _ => with_vlan(m, vlan % 4096, m.dl_vlan_pcp),
    }
}

fn with_priority(m: &Pattern, priority: u8) -> Pattern {
    match m.dl_vlan {
        None => *m,
        Some(0xffff) => with_vlan(m, 0, Some(priority % 8)),
        Some(vlan) => with_vlan(m, vlan, Some(priority % 8)),
    }
}

fn with_addresses(m: &Pattern, action: &Action) -> Pattern {
    match *action {
        Action::SetNwSrc(address) => Pattern {
            nw_src: whole(address),
            ..*m
        },
        Action::SetNwDst(address) => Pattern {
            nw_dst: whole(address),
            ..*m
        },
        Action::SetNwTos(service) => Pattern {
            nw_tos: Some(service / 4 * 4),
            ..*m
        },
        _ => *m,
    }
}

fn with_ports(m: &Pattern, action: &Action) -> Pattern {
    match *action {
        Action::SetTpSrc(port) => Pattern {
            tp_src: Some(port),
            ..*m
        },
        Action::SetTpDst(port) => Pattern {
            tp_dst: Some(port),
            ..*m
        },
        _ => *m,
    }
}

fn with_network(m: &Pattern, action: &Action) -> Pattern {
    match (m.dl_type, m.nw_proto) {
        (Some(0x0800), Some(6 | 17)) => with_ports(&with_addresses(m, action), action),
        (Some(0x0800), _) => with_addresses(m, action),
        _ => *m,
    }
}

/// What is left of the match's constraints, and what takes the place of the others.
pub fn expected(m: &Match, action: &Action) -> Pattern {
    let before = m.pattern();
    match *action {
        Action::SetDlSrc(address) => Pattern {
            dl_src: Some(address),
            ..*before
        },
        Action::SetDlDst(address) => Pattern {
            dl_dst: Some(address),
            ..*before
        },
        Action::SetVlanVid(vlan) => with_vlan_id(before, vlan),
        Action::SetVlanPcp(priority) => with_priority(before, priority),
        Action::StripVlan => with_vlan(before, 0xffff, m.is_exact().then_some(0)),
        _ => with_network(before, action),
    }
}
