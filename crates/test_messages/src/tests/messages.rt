//! A message of each type, spelled out from the layouts of OpenFlow 1.0.0, section 5: what it is read as,
//! and, but for STATS_REPLY, which no call writes, that this is written as the same bytes.

use crate::readings::{Form, Row, expect_read};
use std::test::Fail;
use wire_samples::TO_TCP_80;

/// What the match to TCP port 80 says.
pub const WEB_SAID: &str =
    "Match { pattern: Pattern { in_port: None, dl_src: None, dl_dst: None, dl_vlan: None, \
dl_vlan_pcp: None, dl_type: Some(2048), nw_tos: None, nw_proto: Some(6), nw_src: None, nw_dst: None, tp_src: None, \
tp_dst: Some(80) } }";

/// Port 2, `eth2`, which doesn't flood and whose link is down.
const PORT: &str =
    "00020a0b0c0d0e0f65746832000000000000000000000000000000100000000100000000000000000000000000000000";

const PORT_SAID: &str =
    "Port { raw: [0, 2, 10, 11, 12, 13, 14, 15, 101, 116, 104, 50, 0, 0, 0, 0, 0, 0, 0, 0, \
0, 0, 0, 0, 0, 0, 0, 16, 0, 0, 0, 1, 0, 0, 0, 0, 0, 0, 0, 0, 0, 0, 0, 0, 0, 0, 0, 0] }";

/// What the match of 40 zeros says: each of its fields is to be zero.
pub const ZERO_SAID: &str =
    "Match { pattern: Pattern { in_port: Some(0), dl_src: Some(0), dl_dst: Some(0), dl_vlan: Some(0), dl_vlan_pcp: Some(0), dl_type: Some(0), nw_tos: Some(0), nw_proto: Some(0), nw_src: Some(Prefix { bits: 32, value: 0 }), nw_dst: Some(Prefix { bits: 32, value: 0 }), tp_src: Some(0), tp_dst: Some(0) } }";

/// A message of each type, by its type: its bytes, and what they say.
const MESSAGES: &[Row] = &[
    (
        &["0100000800000001"],
        0,
        &["Head { version: 1, kind: 0, length: 8, xid: 1 }"],
    ),
    (
        &["0101000e00000002", "0001", "0008", "abcd"],
        0,
        &["error 1 8"],
    ),
    (
        &["0102000c00000003", "aabbccdd"],
        0,
        &["Head { version: 1, kind: 2, length: 12, xid: 3 }"],
    ),
    (
        &["0103000c00000004", "aabbccdd"],
        0,
        &["Head { version: 1, kind: 3, length: 12, xid: 4 }"],
    ),
    (
        &["0104000c00000005", "00002320"],
        0,
        &["Head { version: 1, kind: 4, length: 12, xid: 5 }"],
    ),
    (
        &["0105000800000006"],
        0,
        &["Head { version: 1, kind: 5, length: 8, xid: 6 }"],
    ),
    (
        &[
            "0106005000000007",
            "00000000000000a1",
            "00000100",
            "01000000",
            "00000087",
            "00000fff",
            PORT,
        ],
        0,
        &[
            "Features { datapath: 161, buffers: 256, tables: 1, capabilities: 135, actions: 4095, ports: Ports { items: [",
            PORT_SAID,
            "] } } number 2 config 16",
        ],
    ),
    (
        &["0107000800000008"],
        0,
        &["Head { version: 1, kind: 7, length: 8, xid: 8 }"],
    ),
    (
        &["0108000c00000009", "0000", "0080"],
        0,
        &["Head { version: 1, kind: 8, length: 12, xid: 9 }"],
    ),
    (
        &["0109000c0000000a", "0000", "ffff"],
        0,
        &["Head { version: 1, kind: 9, length: 12, xid: 10 }"],
    ),
    (
        &[
            "010a00160000000b",
            "00000007",
            "003c",
            "0003",
            "0100",
            "deadbeef",
        ],
        0,
        &[
            "PacketIn { xid: 11, buffer: 7, total_len: 60, in_port: 3, reason: 1, payload: Bytes { items: [222, 173, 190, 239] } }",
        ],
    ),
    (
        &[
            "010b00580000000c",
            TO_TCP_80,
            "1122334455667788",
            "000a",
            "0200",
            "0000003c",
            "000001f4",
            "001e0000",
            "0000000000000005",
            "0000000000000140",
        ],
        0,
        &[
            "FlowRemoved { xid: 12, pattern: ",
            WEB_SAID,
            ", cookie: 1234605616436508552, priority: 10, reason: 2, seconds: 60, nanos: 500, idle: 30, packets: 5, bytes: 320 }",
        ],
    ),
    (
        &["010c00400000000d", "0200000000000000", PORT],
        0,
        &["PortStatus { reason: 2, port: ", PORT_SAID, " }"],
    ),
    (
        &[
            "010d001a0000000e",
            "ffffffff",
            "0001",
            "0008",
            "0000000800020000",
            "cafe",
        ],
        0,
        &[
            "PacketOut { xid: 14, buffer: 4294967295, in_port: 1, actions: Actions { items: [Output { port: 2, max_len: 0 }] }, payload: Bytes { items: [202, 254] } }",
        ],
    ),
    (
        &[
            "010e00580000000f",
            TO_TCP_80,
            "0000000000000102",
            "0001",
            "003c",
            "012c",
            "8000",
            "ffffffff",
            "ffff",
            "0003",
            "000b00100002000000000000",
            "00000005",
        ],
        0,
        &[
            "FlowMod { xid: 15, pattern: ",
            WEB_SAID,
            ", cookie: 258, command: 1, idle: 60, hard: 300, priority: 32768, buffer: 4294967295, out_port: 65535, flags: 3, actions: Actions { items: [Enqueue { port: 2, queue: 5 }] } }",
        ],
    ),
    (
        &[
            "010f002000000010",
            "00020a0b0c0d0e0f",
            "00000010",
            "00000010",
            "0000000000000000",
        ],
        0,
        &["Head { version: 1, kind: 15, length: 32, xid: 16 }"],
    ),
    (
        &[
            "0110003800000011",
            "0001",
            "0000",
            TO_TCP_80,
            "ff00",
            "ffff",
        ],
        0,
        &[
            "Flow { pattern: ",
            WEB_SAID,
            ", table: 255, out_port: 65535 }",
        ],
    ),
    (
        &[
            "0111006400000012",
            "0001",
            "0001",
            "00580000",
            TO_TCP_80,
            "0000003c",
            "000001f4",
            "000a",
            "001e",
            "0000000000000000",
            "0000000000000102",
            "0000000000000005",
            "0000000000000140",
        ],
        0,
        &[
            "StatsPart { kind: 1, more: true, from: 12 }, 88 (",
            WEB_SAID,
            ", 5, 320)",
        ],
    ),
    (
        &["0112000800000013"],
        0,
        &["Head { version: 1, kind: 18, length: 8, xid: 19 }"],
    ),
    (
        &["0113000800000014"],
        0,
        &["Head { version: 1, kind: 19, length: 8, xid: 20 }"],
    ),
    (
        &["0114000c00000015", "00010000"],
        0,
        &["Head { version: 1, kind: 20, length: 12, xid: 21 }"],
    ),
    (
        &["0115001000000016", "0001000000000000"],
        0,
        &["Head { version: 1, kind: 21, length: 16, xid: 22 }"],
    ),
];

#[test]
fn a_message_of_each_type_is_read_and_written(rt: HostRuntime) -> Result<(), Fail> {
    expect_read(rt.alloc(), Form::Message, MESSAGES)
}
