//! Which entries a slice keeps.

ghost use Rattle.std.specs.Prelude.{IsTrue};
ghost use Rattle.of10_stats.specs.Replies.{IsEntry};

use crate::tests::actions::{SHELL, WEB};
use crate::tests::tables::expect_so;
use flowspace::SwitchPolicy;
use of10_stats::entry_size;
use samples::{ANY, Packets, match_of, rule, switch_policy};
use stats_filter::{keep, type_sent};
use std::alloc::{AllocError, Global};
use std::test::Fail;
use xid_map::AskKind;

/// The slots of the slices.
const ALICE: u8 = 0;

const BOB: u8 = 1;

fn is_entry(kind: u16, bytes: &[u8]) -> bool
    ensures { IsTrue result → IsEntry kind bytes.now }
{
    entry_size(kind, bytes) == Some(bytes.len())
}

/// An entry that a switch sends.
enum Entry {
    /// A flow without actions, whose counts are zero.
    Flow(Packets),
    /// One of so many bytes that begins with a port's number.
    Port(u16, usize),
    /// Of so many bytes that are all the same.
    Filled(usize),
}

fn bytes_of(alloc: Global, entry: &Entry) -> Result<Vec<u8>, AllocError> {
    match entry {
        Entry::Flow(packets) => {
            let mut bytes = Vec::from_slice(alloc, &[0, 88, 0, 0])?;
            bytes.extend_from_slice(&match_of(packets).encode())?;
            bytes.resize(88, 0)?;
            Ok(bytes)
        }
        Entry::Port(port, length) => {
            let mut bytes = Vec::from_slice(alloc, &port.to_be_bytes())?;
            bytes.resize(*length, 0)?;
            Ok(bytes)
        }
        Entry::Filled(length) => vec![in alloc; 0x2a; *length],
    }
}

/// Whether the slice keeps the entry that came for a request of the kind, where it may come.
fn kept(policy: &SwitchPolicy, slot: u8, kind: AskKind, entry: &[u8]) -> Option<bool> {
    let sent = type_sent(kind)?;
    if is_entry(sent, entry) {
        Some(keep(policy, slot, kind, entry))
    } else {
        None
    }
}

/// The kind of a request, an entry that comes for it, and whether alice and bob keep it.
type Row = (AskKind, Entry, bool, bool);

/// Whether the slice keeps the entry of a row or not, as is wanted.
fn is_as(policy: &SwitchPolicy, slot: u8, kind: AskKind, entry: &[u8], wanted: bool) -> bool {
    match kept(policy, slot, kind, entry) {
        Some(is_kept) => is_kept == wanted,
        None => false,
    }
}

/// Each slice keeps the entries that it is to keep.
fn expect_rows(alloc: Global, policy: &SwitchPolicy, rows: &[Row]) -> Result<(), Fail> {
    let mut place = 0u32;
    for (kind, entry, alice, bob) in rows {
        let entry = bytes_of(alloc, entry)?;
        let for_alice = is_as(policy, ALICE, *kind, &entry, *alice);
        let for_bob = is_as(policy, BOB, *kind, &entry, *bob);
        expect_so(place, for_alice && for_bob)?;
        place = place.saturating_add(1);
    }
    Ok(())
}

/// Web packets, all or those from a port, are alice's, and those of shells bob's.
fn expect_kept(alloc: Global, web: &Packets, rows: &[Row]) -> Result<(), Fail> {
    let rules = [
        rule(100, &match_of(web), ALICE, 0),
        rule(50, &match_of(&SHELL), BOB, 0),
    ];
    let policy = switch_policy(alloc, &rules)?;
    expect_rows(alloc, &policy, rows)
}

const SECURE: Packets = Packets {
    tcp: Some(443),
    ..ANY
};

const WEB_FROM_3: Packets = Packets {
    in_port: Some(3),
    tcp: Some(80),
    ..ANY
};

const WEB_FROM_1: Packets = Packets {
    in_port: Some(1),
    tcp: Some(80),
    ..ANY
};

const FLOWS: &[Row] = &[
    (AskKind::Flow, Entry::Flow(WEB), true, false),
    (AskKind::Aggregate, Entry::Flow(WEB), true, false),
    (AskKind::Flow, Entry::Flow(WEB_FROM_3), true, false),
    (AskKind::Aggregate, Entry::Flow(WEB_FROM_3), true, false),
    (AskKind::Flow, Entry::Flow(SHELL), false, true),
    (AskKind::Aggregate, Entry::Flow(SHELL), false, true),
    (AskKind::Flow, Entry::Flow(SECURE), false, false),
    (AskKind::Aggregate, Entry::Flow(SECURE), false, false),
    (AskKind::Flow, Entry::Flow(ANY), false, false),
    (AskKind::Aggregate, Entry::Flow(ANY), false, false),
];

#[test]
fn flows_within_a_write_rule_are_kept(rt: HostRuntime) -> Result<(), Fail> {
    expect_kept(rt.alloc(), &WEB, FLOWS)
}

const PORTS: &[Row] = &[
    (AskKind::Port, Entry::Port(1, 104), true, true),
    (AskKind::Queue, Entry::Port(1, 32), true, true),
    (AskKind::Port, Entry::Port(2, 104), false, true),
    (AskKind::Queue, Entry::Port(2, 32), false, true),
    (AskKind::Port, Entry::Port(0xfffe, 104), false, true),
    (AskKind::Queue, Entry::Port(0xfffe, 32), false, true),
    (AskKind::Port, Entry::Port(0xffff, 104), false, false),
    (AskKind::Queue, Entry::Port(0xffff, 32), false, false),
];

#[test]
fn ports_of_the_slice_and_their_queues_are_kept(rt: HostRuntime) -> Result<(), Fail> {
    expect_kept(rt.alloc(), &WEB_FROM_1, PORTS)
}

const DESCRIPTIONS: &[Row] = &[(AskKind::Desc, Entry::Filled(1056), true, true)];

#[test]
fn what_the_switch_is_is_kept_by_all(rt: HostRuntime) -> Result<(), Fail> {
    let alloc = rt.alloc();
    let policy = switch_policy(alloc, &[])?;
    expect_rows(alloc, &policy, DESCRIPTIONS)?;
    expect_so(1, type_sent(AskKind::Barrier).is_none())
}
