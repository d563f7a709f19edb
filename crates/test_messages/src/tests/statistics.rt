//! Requests for statistics, the parts of replies, and their entries.

use crate::readings::{Form, Row, expect_read};
use crate::tests::messages::{WEB_SAID, ZERO_SAID};
use std::test::Fail;
use wire_samples::TO_TCP_80;

const PLAIN: &[Row] = &[
    (&["0110000c 0000002a 0000 0000"], 0, &["Desc"]),
    (&["0110000c 0000002a 0003 0000"], 0, &["Table"]),
    (
        &["01100014 0000002a 0004 0000 ffff 000000000000"],
        0,
        &["Port(65535)"],
    ),
    (
        &["01100014 0000002a 0005 0000 fffc 0000 ffffffff"],
        0,
        &["Queue { port: 65532, queue: 4294967295 }"],
    ),
    (
        &["01100014 0000002a 0005 0000 0002 0000 01020304"],
        0,
        &["Queue { port: 2, queue: 16909060 }"],
    ),
];

#[test]
fn plain_requests_are_read_and_written(rt: HostRuntime) -> Result<(), Fail> {
    expect_read(rt.alloc(), Form::Message, PLAIN)
}

const OF_FLOWS: &[Row] = &[
    (
        &["01100038 0000002a 0001 0000", TO_TCP_80, "ff 00 0003"],
        0,
        &["Flow { pattern: ", WEB_SAID, ", table: 255, out_port: 3 }"],
    ),
    (
        &["01100038 0000002a 0002 0000", TO_TCP_80, "ff 00 0003"],
        0,
        &[
            "Aggregate { pattern: ",
            WEB_SAID,
            ", table: 255, out_port: 3 }",
        ],
    ),
];

#[test]
fn requests_for_flows_are_read_and_written(rt: HostRuntime) -> Result<(), Fail> {
    expect_read(rt.alloc(), Form::Message, OF_FLOWS)
}

const FAULTS: &[Row] = &[
    (&["01100008 0000002a"], 8, &["Length(8)"]),
    (&["0110000b 0000002a ffff"], 11, &["Length(11)"]),
    (&["0110000c 0000002a ffff"], 12, &["StatVendor"]),
    (&["0110000c 0000002a 0006"], 12, &["StatKind(6)"]),
    (&["01100034 0000002a 0006"], 52, &["StatKind(6)"]),
    (&["0110000c 0000002a fffe"], 12, &["StatKind(65534)"]),
    (&["01100034 0000002a 0001"], 52, &["Length(52)"]),
    (&["0110000c 0000002a 0002"], 12, &["Length(12)"]),
    (&["01100039 0000002a 0002"], 57, &["Length(57)"]),
    (&["0110000d 0000002a 0000"], 13, &["Length(13)"]),
    (&["01100014 0000002a 0003"], 20, &["Length(20)"]),
    (&["0110000c 0000002a 0004"], 12, &["Length(12)"]),
    (&["01100015 0000002a 0005"], 21, &["Length(21)"]),
];

#[test]
fn faults_of_requests_come_in_order(rt: HostRuntime) -> Result<(), Fail> {
    expect_read(rt.alloc(), Form::Message, FAULTS)
}

const PADDED: &[Row] = &[(
    &["01100014 0000002a 0005 ffff 0007 ffff 00000009"],
    0,
    &[
        "Queue { port: 7, queue: 9 } written as ",
        "011000140000002a00050000",
        "0007000000000009",
    ],
)];

#[test]
fn padding_and_flags_of_requests_are_disregarded(rt: HostRuntime) -> Result<(), Fail> {
    expect_read(rt.alloc(), Form::Message, PADDED)
}

const PARTS: &[Row] = &[
    (
        &["0111000c 0000002a 0004 0000"],
        0,
        &["StatsPart { kind: 4, more: false, from: 12 }, no entry"],
    ),
    (
        &["0111000c 0000002a 0004 0001"],
        0,
        &["StatsPart { kind: 4, more: true, from: 12 }, no entry"],
    ),
    (
        &["0111000c 0000002a 0004 0002"],
        0,
        &["StatsPart { kind: 4, more: false, from: 12 }, no entry"],
    ),
    (
        &["0111000c 0000002a 0004 0003"],
        0,
        &["StatsPart { kind: 4, more: true, from: 12 }, no entry"],
    ),
    (
        &["0111000c 0000002a 0004 fffe"],
        0,
        &["StatsPart { kind: 4, more: false, from: 12 }, no entry"],
    ),
    (&["01110008 0000002a"], 0, &["Length(8)"]),
];

#[test]
fn parts_say_whether_more_follow(rt: HostRuntime) -> Result<(), Fail> {
    expect_read(rt.alloc(), Form::Message, PARTS)
}

/// Parts of answers, with entries that begin with two bytes.
const SIZES: &[Row] = &[
    (
        &["01110066 0000002a 0001 0000 0060"],
        102,
        &["StatsPart { kind: 1, more: false, from: 12 }, no entry"],
    ),
    (
        &["0111006c 0000002a 0001 0000 0060"],
        108,
        &[
            "StatsPart { kind: 1, more: false, from: 12 }, 96",
            " (",
            ZERO_SAID,
            ", 0, 0)",
        ],
    ),
    (
        &["011100d4 0000002a 0001 0000 0060"],
        212,
        &[
            "StatsPart { kind: 1, more: false, from: 12 }, 96",
            " (",
            ZERO_SAID,
            ", 0, 0)",
        ],
    ),
    (
        &["01110064 0000002a 0001 0000 0058"],
        100,
        &[
            "StatsPart { kind: 1, more: false, from: 12 }, 88",
            " (",
            ZERO_SAID,
            ", 0, 0)",
        ],
    ),
    (
        &["011100d4 0000002a 0001 0000 0057"],
        212,
        &["StatsPart { kind: 1, more: false, from: 12 }, no entry"],
    ),
    (
        &["0111000c 0000002a 0001 0000"],
        12,
        &["StatsPart { kind: 1, more: false, from: 12 }, no entry"],
    ),
    (
        &["01110063 0000002a 0001 0000 0058"],
        99,
        &["StatsPart { kind: 1, more: false, from: 12 }, no entry"],
    ),
    (
        &["01110024 0000002a 0002 0000 0000"],
        36,
        &["StatsPart { kind: 2, more: false, from: 12 }, 24"],
    ),
    (
        &["01110023 0000002a 0002 0000 0000"],
        35,
        &["StatsPart { kind: 2, more: false, from: 12 }, no entry"],
    ),
    (
        &["0111004c 0000002a 0003 0000 0000"],
        76,
        &["StatsPart { kind: 3, more: false, from: 12 }, 64"],
    ),
    (
        &["0111004b 0000002a 0003 0000 0000"],
        75,
        &["StatsPart { kind: 3, more: false, from: 12 }, no entry"],
    ),
    (
        &["011100dc 0000002a 0004 0000 0001"],
        220,
        &["StatsPart { kind: 4, more: false, from: 12 }, 104 port 1"],
    ),
    (
        &["01110073 0000002a 0004 0000 0001"],
        115,
        &["StatsPart { kind: 4, more: false, from: 12 }, no entry"],
    ),
    (
        &["0111002d 0000002a 0005 0000 0001"],
        45,
        &["StatsPart { kind: 5, more: false, from: 12 }, 32 port 1"],
    ),
    (
        &["0111002b 0000002a 0005 0000 0001"],
        43,
        &["StatsPart { kind: 5, more: false, from: 12 }, no entry"],
    ),
    (
        &["0111042c 0000002a 0000 0000 0000"],
        1068,
        &["StatsPart { kind: 0, more: false, from: 12 }, 1056"],
    ),
    (
        &["0111042b 0000002a 0000 0000 0000"],
        1067,
        &["StatsPart { kind: 0, more: false, from: 12 }, no entry"],
    ),
    (
        &["0111000c 0000002a 0000 0000"],
        12,
        &["StatsPart { kind: 0, more: false, from: 12 }, no entry"],
    ),
    (
        &["011107dc 0000002a 0006 0000 0000"],
        2012,
        &["StatsPart { kind: 6, more: false, from: 12 }, no entry"],
    ),
    (
        &["011107dc 0000002a ffff 0000 0000"],
        2012,
        &["StatsPart { kind: 65535, more: false, from: 12 }, no entry"],
    ),
];

#[test]
fn entries_have_their_sizes(rt: HostRuntime) -> Result<(), Fail> {
    expect_read(rt.alloc(), Form::Message, SIZES)
}

/// A flow with its actions, a port and a queue.
const ENTRIES: &[Row] = &[
    (
        &[
            "0111006c 0000002a 0001 0000",
            "0060 05 00",
            TO_TCP_80,
            "eeeeeeeeeeeeeeeeeeeeeeeeeeeeeeeeeeeeeeeeeeeeeeeeeeeeeeee",
            "0000000000000102 0300000000000004 0000000800010000",
        ],
        0,
        &[
            "StatsPart { kind: 1, more: false, from: 12 }, 96 (",
            WEB_SAID,
            ", 258, 216172782113783812)",
        ],
    ),
    (
        &["01110074 0000002a 0004 0000 fffe"],
        116,
        &["StatsPart { kind: 4, more: false, from: 12 }, 104 port 65534"],
    ),
    (
        &["0111002c 0000002a 0005 0000 0003"],
        44,
        &["StatsPart { kind: 5, more: false, from: 12 }, 32 port 3"],
    ),
];

#[test]
fn entries_are_read(rt: HostRuntime) -> Result<(), Fail> {
    expect_read(rt.alloc(), Form::Message, ENTRIES)
}
