//! Lists of actions and their bytes.

use crate::readings::{Form, Row, expect_read};
use expectations::expect_eq;
use of10_action::{Action, Actions, Bytes, WireFault, code};
use std::test::Fail;

const NO_ACTIONS: &[Row] = &[(&[], 0, &["[] 0"])];

#[test]
fn no_bytes_are_no_actions(rt: HostRuntime) -> Result<(), Fail> {
    expect_read(rt.alloc(), Form::Actions, NO_ACTIONS)
}

const OUTPUT: &[Row] = &[(
    &["0000 0008 0002 0000"],
    0,
    &["[Output { port: 2, max_len: 0 }] 8"],
)];

#[test]
fn an_action_is_read(rt: HostRuntime) -> Result<(), Fail> {
    expect_read(rt.alloc(), Form::Actions, OUTPUT)
}

const FAULTS: &[Row] = &[
    (&["0000 0004"], 0, &["ActionLength(4)"]),
    (&["0000"], 0, &["ActionLength(0)"]),
    (&["ffff 0007 00000000"], 0, &["ActionLength(7)"]),
    (&["ffff 0008 00000000"], 0, &["ActionVendor"]),
    (&["000c 0008 00000000"], 0, &["ActionKind(12)"]),
    (&["0004 0008 00000000"], 0, &["ActionLength(8)"]),
];

#[test]
fn faults_carry_what_was_found(rt: HostRuntime) -> Result<(), Fail> {
    expect_read(rt.alloc(), Form::Actions, FAULTS)
}

/// An output to port 1, an action of kind 13, and four bytes.
const TWO_FAULTS: &[Row] = &[(
    &["0000 0008 0001 0000", "000d 0008 00000000", "00000008"],
    0,
    &["ActionKind(13)"],
)];

#[test]
fn the_first_fault_is_answered(rt: HostRuntime) -> Result<(), Fail> {
    expect_read(rt.alloc(), Form::Actions, TWO_FAULTS)
}

/// Faults, with the class and the code of the error that reports each.
const CODES: &[(WireFault, (u16, u16))] = &[
    (WireFault::Length(7), (1, 6)),
    (WireFault::StatKind(6), (1, 2)),
    (WireFault::StatVendor, (1, 3)),
    (WireFault::ActionKind(12), (2, 0)),
    (WireFault::ActionLength(4), (2, 1)),
    (WireFault::ActionVendor, (2, 2)),
];

#[test]
fn each_fault_has_its_code(_rt: HostRuntime) -> Result<(), Fail> {
    for (fault, wanted) in CODES {
        expect_eq!(code(*fault), *wanted, fault);
    }
    Ok(())
}

/// An action of each kind.
const KINDS: &[Row] = &[
    (
        &["0000 0008 fffd 0102"],
        0,
        &["[Output { port: 65533, max_len: 258 }] 8"],
    ),
    (&["0001 0008 0abc 0000"], 0, &["[SetVlanVid(2748)] 8"]),
    (&["0002 0008 07 000000"], 0, &["[SetVlanPcp(7)] 8"]),
    (&["0003 0008 00000000"], 0, &["[StripVlan] 8"]),
    (
        &["0004 0010 0a0b0c0d0e0f 000000000000"],
        0,
        &["[SetDlSrc(11042563100175)] 16"],
    ),
    (
        &["0005 0010 fffffffffffe 000000000000"],
        0,
        &["[SetDlDst(281474976710654)] 16"],
    ),
    (&["0006 0008 0a010203"], 0, &["[SetNwSrc(167838211)] 8"]),
    (&["0007 0008 0a010204"], 0, &["[SetNwDst(167838212)] 8"]),
    (&["0008 0008 b8 000000"], 0, &["[SetNwTos(184)] 8"]),
    (&["0009 0008 0050 0000"], 0, &["[SetTpSrc(80)] 8"]),
    (&["000a 0008 1f90 0000"], 0, &["[SetTpDst(8080)] 8"]),
    (
        &["000b 0010 0003 000000000000 01020304"],
        0,
        &["[Enqueue { port: 3, queue: 16909060 }] 16"],
    ),
];

#[test]
fn each_kind_has_its_bytes(rt: HostRuntime) -> Result<(), Fail> {
    expect_read(rt.alloc(), Form::Actions, KINDS)
}

const PADDED: &[Row] = &[(
    &[
        "000b 0010 0003 090909090909 01020304",
        "0002 0008 07 090909",
    ],
    0,
    &[
        "[Enqueue { port: 3, queue: 16909060 }, SetVlanPcp(7)] 24",
        " written as 0102",
        "000b00100003000000000000",
        "01020304",
        "0002000807000000",
    ],
)];

#[test]
fn padding_is_disregarded(rt: HostRuntime) -> Result<(), Fail> {
    expect_read(rt.alloc(), Form::Actions, PADDED)
}

/// Each list is written behind two bytes.
const APPENDED: &[Row] = &[(
    &["0003 0008 00000000", "0009 0008 0050 0000"],
    0,
    &["[StripVlan, SetTpSrc(80)] 16"],
)];

#[test]
fn encoding_appends(rt: HostRuntime) -> Result<(), Fail> {
    expect_read(rt.alloc(), Form::Actions, APPENDED)
}

#[test]
fn lists_are_kept(rt: HostRuntime) -> Result<(), Fail> {
    let alloc = rt.alloc();
    let bytes = Bytes::of(alloc, &[1, 2, 3])?;
    expect_eq!(bytes.as_slice(), [1, 2, 3].as_slice());
    let bytes = Bytes::from_vec(bytes.into_vec());
    expect_eq!(bytes.as_slice(), [1, 2, 3].as_slice());
    let items = [Action::SetDlSrc(0xffff_ffff_ffff), Action::StripVlan];
    let actions = Actions::of(alloc, &items)?;
    expect_eq!(actions.as_slice(), items.as_slice());
    let actions = Actions::from_vec(actions.into_vec());
    expect_eq!(actions.as_slice(), items.as_slice());
    Ok(())
}
