//! Which packets the first slice may send where, by a plain program over single packets.

use super::given::ALICE;
use of10_action::Action;
use of10_match::Header12;
use of10_port::protocol::{ALL, CONTROLLER, FLOOD, IN_PORT, LOCAL, TABLE};
use samples::Packets;

/// What a list of actions is for.
#[derive(Clone, Copy, PartialEq, Eq)]
pub enum Kind {
    Piece,
    Packet,
    Probe,
}

/// The packets of a rule, and the slice that writes them.
#[derive(Clone, Copy)]
pub struct Grant {
    pub packets: Packets,
    pub writer: u8,
}

fn has_address(packets: &Packets, address: u32) -> bool {
    match packets.bits {
        0 => true,
        16 => address >> 16 == packets.net >> 16,
        _ => address == packets.net,
    }
}

/// Whether the port is the one that is wanted, or any is.
fn is_wanted(wanted: Option<u16>, port: u16) -> bool {
    match wanted {
        Some(one) => one == port,
        None => true,
    }
}

/// Whether a TCP packet is one of these.
fn has(packets: &Packets, header: &Header12) -> bool {
    is_wanted(packets.in_port, header.in_port)
        && has_address(packets, header.nw_dst)
        && is_wanted(packets.tcp, header.tp_dst)
}

/// Whether the first rule that has the packet is the slice's.
fn is_written(grants: &[Grant], header: &Header12) -> bool {
    for grant in grants {
        if has(&grant.packets, header) {
            return grant.writer == ALICE;
        }
    }
    false
}

// No rule that is drawn names another port than 1 and 2, so 3 stands for all others.
fn is_written_from_somewhere(grants: &[Grant], header: &Header12) -> bool {
    let mut is_somewhere = false;
    for in_port in 1..4u16 {
        let entered = Header12 { in_port, ..*header };
        is_somewhere |= is_written(grants, &entered);
    }
    is_somewhere
}

/// Whether a port is one of the slice's.
pub fn is_own_port(grants: &[Grant], port: u16) -> bool {
    for grant in grants {
        if grant.writer == ALICE && is_wanted(grant.packets.in_port, port) {
            return port <= 0xff00 || port == LOCAL;
        }
    }
    false
}

fn may_leave(grants: &[Grant], kind: Kind, image: &Header12) -> bool {
    kind == Kind::Probe || is_written_from_somewhere(grants, image)
}

fn may_go_to_a_port(grants: &[Grant], kind: Kind, image: &Header12, port: u16) -> bool {
    let is_own = match port {
        IN_PORT => kind == Kind::Piece || is_own_port(grants, image.in_port),
        _ => is_own_port(grants, port),
    };
    is_own && may_leave(grants, kind, image)
}

fn may_be_output(grants: &[Grant], kind: Kind, image: &Header12, port: u16) -> bool {
    match port {
        CONTROLLER => kind != Kind::Probe && is_written(grants, image),
        TABLE => kind == Kind::Packet && is_written(grants, image),
        FLOOD | ALL => may_leave(grants, kind, image),
        _ => may_go_to_a_port(grants, kind, image, port),
    }
}

/// Whether the slice may have an action that meets a packet.
fn may_act(grants: &[Grant], kind: Kind, image: &Header12, action: &Action) -> bool {
    match *action {
        Action::Output { port, .. } => may_be_output(grants, kind, image, port),
        Action::Enqueue { port, .. } => may_go_to_a_port(grants, kind, image, port),
        Action::SetVlanVid(vlan) => kind != Kind::Probe && vlan < 4096,
        Action::SetVlanPcp(priority) => kind != Kind::Probe && priority < 8,
        _ => kind != Kind::Probe,
    }
}

fn with_address(header: &Header12, nw_dst: u32) -> Header12 {
    Header12 { nw_dst, ..*header }
}

fn with_service(header: &Header12, tp_dst: u16) -> Header12 {
    Header12 { tp_dst, ..*header }
}

/// The packet after an action, as far as the rules that are drawn distinguish packets.
fn rewritten(header: &Header12, action: &Action) -> Header12 {
    match *action {
        Action::SetNwDst(address) => with_address(header, address),
        Action::SetTpDst(port) => with_service(header, port),
        _ => *header,
    }
}

/// Whether the slice may have the list for the packet.
pub fn may_have(grants: &[Grant], kind: Kind, header: &Header12, actions: &[Action]) -> bool {
    let mut image = *header;
    for action in actions {
        if !may_act(grants, kind, &image, action) {
            return false;
        }
        image = rewritten(&image, action);
    }
    true
}

/// Whether the list changes the packet to another that rules distinguish from it.
pub fn rewrites(header: &Header12, actions: &[Action]) -> bool {
    let mut image = *header;
    for action in actions {
        image = rewritten(&image, action);
    }
    image != *header
}

/// Whether no action of the list sends to FLOOD or ALL.
pub fn names_its_ports(actions: &[Action]) -> bool {
    for action in actions {
        if let Action::Output { port, .. } = action {
            if *port == FLOOD || *port == ALL {
                return false;
            }
        }
    }
    true
}
