//! The replies that a slice gets.

ghost use Rattle.std.specs.Prelude.{◌≤◌, length, IfOk};
ghost use Rattle.of10_stats.specs.declared.protocol.TheConstants.{FLOW};
ghost use Rattle.stats_filter.specs.Keeping.{entries_in};
ghost use Rattle.stats_filter.specs.Laws.{FitPages};

use crate::tests::tables::{expect_bytes, expect_so};
use of10_ctl::Frame;
use samples::bytes;
use stats_filter::{aggregate, replies, table_reply};
use std::alloc::{AllocError, Global};
use std::test::Fail;
use xid_map::AskKind;

/// A flow's entry with one action, whose counts are zero.
const ENTRY: [u8; 96] = *b"\0\x60\0\0\0\x38\x20\xff\0\0\0\0\0\0\0\0\0\0\0\0\0\0\0\0\0\0\0\0\0\0\0\0\
\0\0\0\0\0\0\0\0\0\0\0\0\0\0\0\0\0\0\0\0\0\0\0\0\0\0\0\0\0\0\0\0\0\0\0\0\0\0\0\0\0\0\0\0\0\0\0\0\0\0\0\0\0\0\0\0\
\0\0\0\x08\0\x02\0\0";

/// That entry so often.
fn flow_entries(alloc: Global, count: u16) -> Result<Vec<u8>, AllocError>
    ensures { IfOk result (λ v. FitPages (entries_in FLOW v.items)) }
{
    let mut entries = Vec::new(alloc);
    for _ in 0..count {
        entries.extend_from_slice(&ENTRY)?;
    }
    Ok(entries)
}

/// Bytes of which messages are made.
enum Piece {
    Digits(&'static str),
    /// The flow's entry so often.
    Entries(u16),
    /// The letter A so often.
    Letters(usize),
}

fn put_piece(alloc: Global, out: &mut Vec<u8>, piece: &Piece) -> Result<(), AllocError> {
    match piece {
        Piece::Digits(digits) => out.extend_from_slice(&bytes(alloc, &[digits])?),
        Piece::Entries(count) => out.extend_from_slice(&flow_entries(alloc, *count)?),
        Piece::Letters(count) => {
            let length = out.len().saturating_add(*count);
            out.resize(length, 0x41)
        }
    }
}

/// The messages are so many, and the pieces are their bytes, one behind another.
fn expect_messages(
    alloc: Global,
    messages: &[Frame],
    count: usize,
    pieces: &[Piece],
) -> Result<(), Fail> {
    let (mut came, mut wanted) = (Vec::new(alloc), Vec::new(alloc));
    for message in messages {
        came.extend_from_slice(message.as_slice())?;
    }
    for piece in pieces {
        put_piece(alloc, &mut wanted, piece)?;
    }
    expect_so(0, messages.len() == count && came == wanted)
}

/// The replies with entries that came in one message are so many, and have these bytes.
fn expect_replies(
    alloc: Global,
    kind: AskKind,
    entries: &[u8],
    count: usize,
    pieces: &[Piece],
) -> Result<(), Fail>
    requires { length entries.now ≤ 65523 }
{
    let messages = replies(alloc, kind, entries, 0x2a)?;
    expect_messages(alloc, &messages, count, pieces)
}

const TWO: &[Piece] = &[
    Piece::Digits("0111ffcc 0000002a 0001 0001"),
    Piece::Entries(682),
    Piece::Digits("011106cc 0000002a 0001 0000"),
    Piece::Entries(18),
];

#[test]
fn many_flows_come_in_two_replies(rt: HostRuntime) -> Result<(), Fail> {
    let alloc = rt.alloc();
    let entries = flow_entries(alloc, 700)?;
    let messages = replies(alloc, AskKind::Flow, &entries, 0x2a)?;
    expect_messages(alloc, &messages, 2, TWO)
}

/// Kinds of requests, how many replies without entries there are, and what is in them.
const EMPTY: &[(AskKind, usize, &[Piece])] = &[
    (
        AskKind::Flow,
        1,
        &[Piece::Digits("0111000c 0000002a 0001 0000")],
    ),
    (
        AskKind::Port,
        1,
        &[Piece::Digits("0111000c 0000002a 0004 0000")],
    ),
    (
        AskKind::Queue,
        1,
        &[Piece::Digits("0111000c 0000002a 0005 0000")],
    ),
    (AskKind::Barrier, 0, &[]),
];

#[test]
fn no_entries_come_in_one_reply(rt: HostRuntime) -> Result<(), Fail> {
    for (kind, count, pieces) in EMPTY {
        expect_replies(rt.alloc(), *kind, &[], *count, pieces)?;
    }
    Ok(())
}

const DESCRIPTION: &[Piece] = &[
    Piece::Digits("0111042c 0000002a 0000 0000"),
    Piece::Letters(1056),
];

#[test]
fn what_the_switch_is_comes_in_one_reply(rt: HostRuntime) -> Result<(), Fail> {
    expect_replies(rt.alloc(), AskKind::Desc, &[0x41; 1056], 1, DESCRIPTION)
}

/// The reply with the sums.
const SUMS: &[&str] = &[
    "01110024 0000002a 0002 0000 0000000000000001 0000000000000200 00000002 00000000",
];

/// The reply with the table.
const TABLE: &[&str] = &[
    "0111004c 0000002a 0003 0000",
    "00 000000 666c6f777669736f72 0000000000000000000000000000000000000000000000",
    "003fffff 00000400 00000001 0000000000000000 0000000000000000",
];

#[test]
fn sums_and_the_table_come_in_one_reply(rt: HostRuntime) -> Result<(), Fail> {
    let alloc = rt.alloc();
    let sums = aggregate(alloc, 1, 0x200, 2, 0x2a)?;
    expect_bytes(alloc, sums.as_slice(), SUMS)?;
    let table = table_reply(alloc, 1, 1024, 0x2a)?;
    expect_bytes(alloc, table.as_slice(), TABLE)
}
