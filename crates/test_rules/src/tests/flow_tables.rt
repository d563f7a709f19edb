//! Flow-mods given to a flow table, and the actions that packets meet in it afterwards.

ghost use Rattle.of10_model.specs.Exact.{IsTidy};

use crate::tests::tables::expect_so;
use flow_table::{Applied, Table};
use of10_action::{Action, Actions};
use of10_flow::FlowMod;
use of10_flow::protocol::{
    ADD, CHECK_OVERLAP, DELETE, DELETE_STRICT, MODIFY, MODIFY_STRICT, NO_BUFFER,
};
use of10_match::{Header12, Match};
use of10_port::protocol::NONE;
use samples::{packet, tcp};
use std::alloc::{AllocError, Global};
use std::test::Fail;

/// The packets of a flow-mod.
enum Packets {
    All,
    /// Those for a TCP port.
    To(u16),
    /// The one for port 80 that is looked up.
    Http,
}

/// A flow-mod without buffer.
struct Sent {
    command: u16,
    packets: Packets,
    priority: u16,
    flags: u16,
    /// The port to which packets are output.
    port: u16,
    /// The port to which entries that are deleted output.
    out_port: u16,
}

/// An ADD of priority 10, without flags.
const SENT: Sent = Sent {
    command: ADD,
    packets: Packets::To(80),
    priority: 10,
    flags: 0,
    port: 2,
    out_port: NONE,
};

/// The packet that is looked up for a TCP port.
fn sample(port: u16) -> Header12
    ensures { IsTidy result }
{
    packet(1, 0x0a01_0203, port)
}

fn flow_mod(alloc: Global, sent: &Sent) -> Result<FlowMod, AllocError> {
    let output = Action::Output {
        port: sent.port,
        max_len: 0,
    };
    let pattern = match sent.packets {
        Packets::All => Match::all(),
        Packets::To(port) => tcp(None, port),
        Packets::Http => Match::exact(&sample(80)),
    };
    Ok(FlowMod {
        xid: 0,
        pattern,
        cookie: 0,
        command: sent.command,
        idle: 0,
        hard: 0,
        priority: sent.priority,
        buffer: NO_BUFFER,
        out_port: sent.out_port,
        flags: sent.flags,
        actions: Actions::of(alloc, &[output])?,
    })
}

/// How many lists there are for the packet that is looked up for a TCP port, and the port to which the last of them
/// outputs first, or 0.
type Lists = (usize, u16);

/// A flow-mod, what becomes of it, and the lists for ports 80 and 22 then.
type Row = (Sent, Applied, Lists, Lists);

/// Whether the lists for a TCP port are these.
fn are_lists(table: &Table, port: u16, wanted: Lists) -> Result<bool, AllocError> {
    let lists = table.treatment(&sample(port))?;
    let last = match lists.last() {
        Some(list) => list.as_slice().first(),
        None => None,
    };
    let port = match last {
        Some(Action::Output { port, .. }) => *port,
        _ => 0,
    };
    Ok(lists.len() == wanted.0 && port == wanted.1)
}

/// Whether a flow-mod that a table takes becomes that.
fn becomes(
    alloc: Global,
    table: &mut Table,
    sent: &Sent,
    wanted: Applied,
) -> Result<bool, AllocError> {
    Ok(table.apply(&flow_mod(alloc, sent)?)? == wanted)
}

/// A table that is empty at first takes one flow-mod after the other.
fn play_flows(alloc: Global, rows: &[Row]) -> Result<(), Fail> {
    let mut table = Table::new(alloc);
    let mut place = 0u32;
    for (sent, applied, http, ssh) in rows {
        let is_so = becomes(alloc, &mut table, sent, *applied)?;
        let are_so = are_lists(&table, 80, *http)? && are_lists(&table, 22, *ssh)?;
        expect_so(place, is_so && are_so)?;
        place = place.saturating_add(1);
    }
    Ok(())
}

const CHOSEN_AND_DELETED: &[Row] = &[
    (Sent { ..SENT }, Applied::Done, (1, 2), (0, 0)),
    (
        Sent {
            command: DELETE,
            packets: Packets::To(22),
            ..SENT
        },
        Applied::Done,
        (1, 2),
        (0, 0),
    ),
    (
        Sent {
            packets: Packets::All,
            port: 3,
            ..SENT
        },
        Applied::Done,
        (2, 3),
        (1, 3),
    ),
];

#[test]
fn entries_are_chosen_and_deleted_by_their_matches(rt: HostRuntime) -> Result<(), Fail> {
    play_flows(rt.alloc(), CHOSEN_AND_DELETED)
}

const EXACT: &[Row] = &[
    (Sent { ..SENT }, Applied::Done, (1, 2), (0, 0)),
    (
        Sent {
            packets: Packets::Http,
            priority: 0,
            port: 4,
            ..SENT
        },
        Applied::Done,
        (1, 4),
        (0, 0),
    ),
];

#[test]
fn all_exact_entries_come_first(rt: HostRuntime) -> Result<(), Fail> {
    play_flows(rt.alloc(), EXACT)
}

const OVERLAPPING: &[Row] = &[
    (Sent { ..SENT }, Applied::Done, (1, 2), (0, 0)),
    (
        Sent {
            packets: Packets::All,
            flags: CHECK_OVERLAP,
            port: 3,
            ..SENT
        },
        Applied::Overlap,
        (1, 2),
        (0, 0),
    ),
];

#[test]
fn overlaps_are_refused_where_asked(rt: HostRuntime) -> Result<(), Fail> {
    play_flows(rt.alloc(), OVERLAPPING)
}

const MODIFIED: &[Row] = &[
    (
        Sent {
            command: MODIFY_STRICT,
            ..SENT
        },
        Applied::Done,
        (1, 2),
        (0, 0),
    ),
    (
        Sent {
            command: MODIFY,
            packets: Packets::All,
            port: 3,
            ..SENT
        },
        Applied::Done,
        (1, 3),
        (0, 0),
    ),
];

#[test]
fn modifications_change_or_add(rt: HostRuntime) -> Result<(), Fail> {
    play_flows(rt.alloc(), MODIFIED)
}

const DELETED: &[Row] = &[
    (Sent { ..SENT }, Applied::Done, (1, 2), (0, 0)),
    (
        Sent {
            command: DELETE_STRICT,
            port: 3,
            out_port: 3,
            ..SENT
        },
        Applied::Done,
        (1, 2),
        (0, 0),
    ),
    (
        Sent {
            command: DELETE,
            packets: Packets::All,
            port: 3,
            out_port: 2,
            ..SENT
        },
        Applied::Done,
        (0, 0),
        (0, 0),
    ),
];

#[test]
fn deletes_ask_for_outputs(rt: HostRuntime) -> Result<(), Fail> {
    play_flows(rt.alloc(), DELETED)
}
