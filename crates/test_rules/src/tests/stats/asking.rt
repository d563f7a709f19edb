//! What the switch is asked.

use crate::tests::tables::expect_bytes;
use of10_stats::StatsRequest;
use samples::{TO_TCP_80, tcp};
use stats_filter::ask;
use std::alloc::{AllocError, Global};
use std::test::Fail;

/// What a slice asks for.
enum Asked {
    /// The flows to TCP port 80 that output to port 3, one by one or summed up.
    Flows,
    Sums,
    Table,
    Desc,
    Port(u16),
    /// A queue of a port.
    Queue(u16, u32),
}

/// The bytes of the message that asks for this under transaction id 0x01000000, none where the switch isn't asked.
fn asked_for(alloc: Global, asked: &Asked) -> Result<Vec<u8>, AllocError> {
    let pattern = tcp(None, 80);
    let (table, out_port) = (0xff, 3);
    let request = match *asked {
        Asked::Flows => StatsRequest::Flow {
            pattern,
            table,
            out_port,
        },
        Asked::Sums => StatsRequest::Aggregate {
            pattern,
            table,
            out_port,
        },
        Asked::Table => StatsRequest::Table,
        Asked::Desc => StatsRequest::Desc,
        Asked::Port(port) => StatsRequest::Port(port),
        Asked::Queue(port, queue) => StatsRequest::Queue { port, queue },
    };
    match ask(alloc, &request, 0x0100_0000)? {
        Some(message) => Ok(message.into_vec()),
        None => Ok(Vec::new(alloc)),
    }
}

/// The switch is asked by the message of the row's digits.
fn expect_rows(alloc: Global, rows: &[(Asked, &[&str])]) -> Result<(), Fail> {
    for (asked, digits) in rows {
        expect_bytes(alloc, &asked_for(alloc, asked)?, digits)?;
    }
    Ok(())
}

const FLOWS: &[&str] = &["01100038 01000000 0001 0000", TO_TCP_80, "ff 00 0003"];

const SUMS: &[(Asked, &[&str])] = &[(Asked::Flows, FLOWS), (Asked::Sums, FLOWS)];

#[test]
fn sums_of_flows_are_asked_for_as_flows(rt: HostRuntime) -> Result<(), Fail> {
    expect_rows(rt.alloc(), SUMS)
}

const OTHERS: &[(Asked, &[&str])] = &[
    (Asked::Table, &[""]),
    (Asked::Desc, &["0110000c 01000000 0000 0000"]),
    (
        Asked::Port(0xffff),
        &["01100014 01000000 0004 0000 ffff 000000000000"],
    ),
    (
        Asked::Queue(0xfffc, 0xffff_ffff),
        &["01100014 01000000 0005 0000 fffc 0000 ffffffff"],
    ),
];

#[test]
fn tables_are_not_asked_for_and_others_are_as_they_are(rt: HostRuntime) -> Result<(), Fail> {
    expect_rows(rt.alloc(), OTHERS)
}
