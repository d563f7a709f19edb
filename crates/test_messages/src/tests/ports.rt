//! Ports, and the two messages that describe them.

use crate::readings::{Form, Row, expect_read};
use expectations::expect_eq;
use of10_port::Port;
use of10_port::protocol::NO_FLOOD;
use std::test::Fail;

/// The bytes of a port behind its number, where they are zeros.
const ZEROS: &str =
    "00000000000000000000000000000000000000000000000000000000000000000000000000000000000000000000";

/// The same bytes as they are said, with the end of what a port says.
const ZEROS_SAID: &str =
    "0, 0, 0, 0, 0, 0, 0, 0, 0, 0, 0, 0, 0, 0, 0, 0, 0, 0, 0, 0, 0, 0, 0, 0, 0, 0, 0, 0, 0, 0, 0, 0, 0, 0, 0, 0, 0, 0, 0, 0, 0, 0, 0, 0, 0, 0] }";

/// The features of the datapath 0xa1, with four ports.
const FEATURES: &[Row] = &[(
    &[
        "010600e0 ff000001 00000000000000a1 00000100 01 000000 00000000 00000fff",
        "0001",
        ZEROS,
        "0002",
        ZEROS,
        "0003",
        ZEROS,
        "fffe",
        ZEROS,
    ],
    0,
    &[
        "Features { datapath: 161, buffers: 256, tables: 1, capabilities: 0, actions: 4095, ports: Ports { items: [",
        "Port { raw: [0, 1, ",
        ZEROS_SAID,
        ", Port { raw: [0, 2, ",
        ZEROS_SAID,
        ", Port { raw: [0, 3, ",
        ZEROS_SAID,
        ", Port { raw: [255, 254, ",
        ZEROS_SAID,
        "] } } number 1 config 0 number 2 config 0 number 3 config 0 number 65534 config 0",
    ],
)];

#[test]
fn features_are_read_and_written(rt: HostRuntime) -> Result<(), Fail> {
    expect_read(rt.alloc(), Form::Message, FEATURES)
}

/// Features of zeros, with whole ports and without.
const LENGTHS_OF_FEATURES: &[Row] = &[
    (
        &["01060020"],
        32,
        &[
            "Features { datapath: 0, buffers: 0, tables: 0, capabilities: 0, actions: 0, ports: Ports { items: [",
            "] } }",
        ],
    ),
    (
        &["01060050"],
        80,
        &[
            "Features { datapath: 0, buffers: 0, tables: 0, capabilities: 0, actions: 0, ports: Ports { items: [",
            "Port { raw: [0, 0, ",
            ZEROS_SAID,
            "] } } number 0 config 0",
        ],
    ),
    (
        &["01060080"],
        128,
        &[
            "Features { datapath: 0, buffers: 0, tables: 0, capabilities: 0, actions: 0, ports: Ports { items: [",
            "Port { raw: [0, 0, ",
            ZEROS_SAID,
            ", Port { raw: [0, 0, ",
            ZEROS_SAID,
            "] } } number 0 config 0 number 0 config 0",
        ],
    ),
    (&["01060008"], 8, &["Length(8)"]),
    (&["0106001f"], 31, &["Length(31)"]),
    (&["01060021"], 33, &["Length(33)"]),
    (&["0106004f"], 79, &["Length(79)"]),
    (&["01060051"], 81, &["Length(81)"]),
];

#[test]
fn features_have_whole_ports(rt: HostRuntime) -> Result<(), Fail> {
    expect_read(rt.alloc(), Form::Message, LENGTHS_OF_FEATURES)
}

#[test]
fn a_port_has_a_number_and_a_configuration(_rt: HostRuntime) -> Result<(), Fail> {
    let mut raw = [0; 48];
    raw[1] = 7;
    raw[27] = 0x51;
    let port = Port::of(raw);
    expect_eq!((port.number(), port.config()), (7, 0x51));
    expect_eq!(port.config() & NO_FLOOD, 16);
    raw = [0; 48];
    raw[0] = 0xff;
    raw[1] = 0xfe;
    expect_eq!(Port::of(raw).config() & NO_FLOOD, 0);
    Ok(())
}

/// Port 2 was modified; what stands in the padding doesn't count.
const CHANGES: &[Row] = &[
    (
        &["010c0040 0000002a 02 00000000000000", "0002", ZEROS],
        0,
        &[
            "PortStatus { reason: 2, port: Port { raw: [0, 2, ",
            ZEROS_SAID,
            " }",
        ],
    ),
    (
        &["010c0040 0000002a 02 01000000000000", "0002", ZEROS],
        0,
        &[
            "PortStatus { reason: 2, port: Port { raw: [0, 2, ",
            ZEROS_SAID,
            " }",
            " written as 010c00400000002a02",
            "00000000000000",
            "0002",
            ZEROS,
        ],
    ),
];

#[test]
fn a_change_is_read_and_written(rt: HostRuntime) -> Result<(), Fail> {
    expect_read(rt.alloc(), Form::Message, CHANGES)
}

const LENGTHS_OF_CHANGES: &[Row] = &[
    (&["010c0008"], 8, &["Length(8)"]),
    (&["010c0010"], 16, &["Length(16)"]),
    (&["010c003f"], 63, &["Length(63)"]),
    (&["010c0041"], 65, &["Length(65)"]),
    (&["010c0070"], 112, &["Length(112)"]),
];

#[test]
fn a_change_has_one_length(rt: HostRuntime) -> Result<(), Fail> {
    expect_read(rt.alloc(), Form::Message, LENGTHS_OF_CHANGES)
}
