//! Flow-mods, packet-outs, packet-ins and flow-removeds, and their bytes.

use crate::readings::{Form, Row, expect_read};
use crate::tests::messages::{WEB_SAID, ZERO_SAID};
use std::test::Fail;
use wire_samples::TO_TCP_80;

/// Everything, as the 40 bytes of a match.
const MALL: &str =
    "003820ff 000000000000000000000000000000000000 000000000000000000000000000000000000";

/// What that match says.
const MALL_SAID: &str =
    "Match { pattern: Pattern { in_port: None, dl_src: None, dl_dst: None, dl_vlan: None, dl_vlan_pcp: None, dl_type: None, nw_tos: None, nw_proto: None, nw_src: None, nw_dst: None, tp_src: None, tp_dst: None } }";

/// A TCP packet of 54 bytes to port 80.
const T80: &str =
    "000000000002 000000000001 0800 45 00 0028 0000 0000 40 06 0000 0a000001 0a000002 0400 0050 00000000 00000000 5002 0000 0000 0000";

/// Its bytes as they are said.
const T80_SAID: &str =
    "0, 0, 0, 0, 0, 2, 0, 0, 0, 0, 0, 1, 8, 0, 69, 0, 0, 40, 0, 0, 0, 0, 64, 6, 0, 0, 10, 0, 0, 1, 10, 0, 0, 2, 4, 0, 0, 80, 0, 0, 0, 0, 0, 0, 0, 0, 80, 2, 0, 0, 0, 0, 0, 0";

/// Flow-mods: one that adds, one that deletes, and one whose fields all differ.
const FLOW_MODS: &[Row] = &[
    (
        &[
            "010e0050 00000000",
            TO_TCP_80,
            "0000000000000000 0000 003c 0000 000a ffffffff ffff 0001 0000000800020000",
        ],
        0,
        &[
            "FlowMod { xid: 0, pattern: ",
            WEB_SAID,
            ", cookie: 0, command: 0, idle: 60, hard: 0, priority: 10, buffer: 4294967295, out_port: 65535, flags: 1, actions: Actions { items: [Output { port: 2, max_len: 0 }] } }",
        ],
    ),
    (
        &[
            "010e0048 00000001",
            TO_TCP_80,
            "0000000000000000 0003 0000 0000 0000 ffffffff ffff 0000",
        ],
        0,
        &[
            "FlowMod { xid: 1, pattern: ",
            WEB_SAID,
            ", cookie: 0, command: 3, idle: 0, hard: 0, priority: 0, buffer: 4294967295, out_port: 65535, flags: 0, actions: Actions { items: [] } }",
        ],
    ),
    (
        &[
            "010e0060 01020304",
            MALL,
            "1112131415161718 2122 3132 4142 5152 61626364 7172 0006 0003000800000000 000b001000030000 0000000001020304",
        ],
        0,
        &[
            "FlowMod { xid: 16909060, pattern: ",
            MALL_SAID,
            ", cookie: 1230066625199609624, command: 8482, idle: 12594, hard: 16706, priority: 20818, buffer: 1633837924, out_port: 29042, flags: 6, actions: Actions { items: [StripVlan, Enqueue { port: 3, queue: 16909060 }] } }",
        ],
    ),
];

#[test]
fn flow_mods_are_read_and_written(rt: HostRuntime) -> Result<(), Fail> {
    expect_read(rt.alloc(), Form::Message, FLOW_MODS)
}

/// Packet-outs: of a buffer, and of a packet that comes along.
const PACKET_OUTS: &[Row] = &[
    (
        &["010d0018 0000002b 00000000 0001 0008 0000000800020000"],
        0,
        &[
            "PacketOut { xid: 43, buffer: 0, in_port: 1, actions: Actions { items: [Output { port: 2, max_len: 0 }] }, payload: Bytes { items: [] } }",
        ],
    ),
    (
        &[
            "010d0028 0a0b0c0d ffffffff ffff 0008 0000000800020000",
            "0180c200000e 000000000001 88cc 0000",
        ],
        0,
        &[
            "PacketOut { xid: 168496141, buffer: 4294967295, in_port: 65535, actions: Actions { items: [Output { port: 2, max_len: 0 }] }, payload: Bytes { items: [1, 128, 194, 0, 0, 14, 0, 0, 0, 0, 0, 1, 136, 204, 0, 0] } }",
        ],
    ),
];

#[test]
fn packet_outs_are_read_and_written(rt: HostRuntime) -> Result<(), Fail> {
    expect_read(rt.alloc(), Form::Message, PACKET_OUTS)
}

/// Packet-ins: of a whole packet, and of none of its bytes.
const PACKET_INS: &[Row] = &[
    (
        &["010a0048 00000000 ffffffff 0036 0001 00 00", T80],
        0,
        &[
            "PacketIn { xid: 0, buffer: 4294967295, total_len: 54, in_port: 1, reason: 0, payload: Bytes { items: [",
            T80_SAID,
            "] } }",
        ],
    ),
    (
        &["010a0012 01020304 11121314 2122 3132 01 00"],
        0,
        &[
            "PacketIn { xid: 16909060, buffer: 286397204, total_len: 8482, in_port: 12594, reason: 1, payload: Bytes { items: [] } }",
        ],
    ),
];

#[test]
fn packet_ins_are_read_and_written(rt: HostRuntime) -> Result<(), Fail> {
    expect_read(rt.alloc(), Form::Message, PACKET_INS)
}

/// A flow-removed whose fields all differ.
const FLOW_REMOVED: &[Row] = &[(
    &[
        "010b0058 01020304",
        TO_TCP_80,
        "1112131415161718 000a 02 00 21222324 31323334 4142 0000 5152535455565758 6162636465666768",
    ],
    0,
    &[
        "FlowRemoved { xid: 16909060, pattern: ",
        WEB_SAID,
        ", cookie: 1230066625199609624, priority: 10, reason: 2, seconds: 555885348, nanos: 825373492, idle: 16706, packets: 5859837686836516696, bytes: 7017280452245743464 }",
    ],
)];

#[test]
fn flow_removeds_are_read_and_written(rt: HostRuntime) -> Result<(), Fail> {
    expect_read(rt.alloc(), Form::Message, FLOW_REMOVED)
}

/// Messages whose padding is filled, and with which zeros they are written.
const PADDED: &[Row] = &[
    (
        &["010a0013 00000000 00000007 0001 0001 01 ff 09"],
        0,
        &[
            "PacketIn { xid: 0, buffer: 7, total_len: 1, in_port: 1, reason: 1, payload: Bytes { items: [9] } }",
            " written as 010a00130000000000000007000100010100",
            "09",
        ],
    ),
    (
        &[
            "010b0058 00000000",
            MALL,
            "0000000000000000 000a 00 ff 00000001 00000000 0000 ffff 0000000000000003 00000000000000a2",
        ],
        0,
        &[
            "FlowRemoved { xid: 0, pattern: ",
            MALL_SAID,
            ", cookie: 0, priority: 10, reason: 0, seconds: 1, nanos: 0, idle: 0, packets: 3, bytes: 162 }",
            " written as 010b005800000000",
            "003820ff",
            "000000000000000000000000000000000000",
            "000000000000000000000000000000000000",
            "0000000000000000000a00",
            "000000000100000000",
            "00000000",
            "0000000000000003",
            "00000000000000a2",
        ],
    ),
];

#[test]
fn padding_is_disregarded(rt: HostRuntime) -> Result<(), Fail> {
    expect_read(rt.alloc(), Form::Message, PADDED)
}

/// Messages of zeros behind their heads, in lengths that there are and others.
const LENGTHS: &[Row] = &[
    (&["010e0008 00000007"], 8, &["Length(8)"]),
    (&["010e0047 00000007"], 71, &["Length(71)"]),
    (
        &["010e0048 00000007"],
        72,
        &[
            "FlowMod { xid: 7, pattern: ",
            ZERO_SAID,
            ", cookie: 0, command: 0, idle: 0, hard: 0, priority: 0, buffer: 0, out_port: 0, flags: 0, actions: Actions { items: [] } }",
        ],
    ),
    (&["010e004b 00000007"], 75, &["ActionLength(0)"]),
    (&["010d0008 00000007"], 8, &["Length(8)"]),
    (&["010d000f 00000007"], 15, &["Length(15)"]),
    (
        &["010d0010 00000007"],
        16,
        &[
            "PacketOut { xid: 7, buffer: 0, in_port: 0, actions: Actions { items: [] }, payload: Bytes { items: [] } }",
        ],
    ),
    (&["010a0008 00000007"], 8, &["Length(8)"]),
    (&["010a0011 00000007"], 17, &["Length(17)"]),
    (
        &["010a0012 00000007"],
        18,
        &[
            "PacketIn { xid: 7, buffer: 0, total_len: 0, in_port: 0, reason: 0, payload: Bytes { items: [] } }",
        ],
    ),
    (&["010b0057 00000007"], 87, &["Length(87)"]),
    (
        &["010b0058 00000007"],
        88,
        &[
            "FlowRemoved { xid: 7, pattern: ",
            ZERO_SAID,
            ", cookie: 0, priority: 0, reason: 0, seconds: 0, nanos: 0, idle: 0, packets: 0, bytes: 0 }",
        ],
    ),
    (&["010b0059 00000007"], 89, &["Length(89)"]),
];

#[test]
fn other_lengths_are_refused(rt: HostRuntime) -> Result<(), Fail> {
    expect_read(rt.alloc(), Form::Message, LENGTHS)
}

const ACTIONS_OF_OUTS: &[Row] = &[
    // One byte more of actions than there is.
    (
        &["010d0018 0000002b 00000000 0001 0009 0000000800020000"],
        0,
        &["Length(24)"],
    ),
    // The length is tested first, then the actions.
    (
        &["010d0018 0000002b 00000000 0001 0008 ffff000800000000"],
        0,
        &["ActionVendor"],
    ),
];

#[test]
fn packet_outs_hold_their_actions(rt: HostRuntime) -> Result<(), Fail> {
    expect_read(rt.alloc(), Form::Message, ACTIONS_OF_OUTS)
}
