//! Frames, how they are made, and streams that are cut into them.

use crate::readings::{Form, Row, expect_read, frames_in_pieces};
use expectations::expect_eq;
use of10_ctl::{Head, begin, message};
use std::test::Fail;

/// A HELLO and an ECHO_REQUEST with three bytes.
const STREAM: &[u8] = &[
    1, 0, 0, 8, 0, 0, 0, 0, 1, 2, 0, 11, 0, 0, 0, 7, 0xaa, 0xbb, 0xcc,
];

const COPIED: &[Row] = &[(
    &["0102000c 00000005 aabbccdd"],
    0,
    &["(false, true, false)"],
)];

#[test]
fn a_copy_has_the_same_bytes(rt: HostRuntime) -> Result<(), Fail> {
    expect_read(rt.alloc(), Form::Frame, COPIED)
}

const HELLO: &[Row] = &[(&["0100000800000000 01"], 0, &["0100000800000000 NeedMore "])];

#[test]
fn a_hello_and_a_byte(rt: HostRuntime) -> Result<(), Fail> {
    expect_read(rt.alloc(), Form::Stream, HELLO)
}

const BAD_LENGTH: &[Row] = &[(
    &["0102000700000005", "01000008000000000102000b00000007aabbcc"],
    0,
    &["0102000700000005 Ended ", " Ended "],
)];

#[test]
fn a_bad_length_ends_the_stream(rt: HostRuntime) -> Result<(), Fail> {
    expect_read(rt.alloc(), Form::Stream, BAD_LENGTH)
}

#[test]
fn pieces_of_any_size_give_the_same_frames(rt: HostRuntime) -> Result<(), Fail> {
    for size in 1..=20 {
        let given = frames_in_pieces(rt.alloc(), STREAM, size)?;
        expect_eq!(given.as_slice(), STREAM, size);
    }
    Ok(())
}

const LAST_BYTES: &[Row] = &[(
    &["01000008000000", "00", "0102000b00000007aabb", "cc"],
    0,
    &[
        " NeedMore ",
        "0100000800000000 NeedMore ",
        " NeedMore ",
        "0102000b00000007aabbcc NeedMore ",
    ],
)];

#[test]
fn a_frame_is_given_with_its_last_byte(rt: HostRuntime) -> Result<(), Fail> {
    expect_read(rt.alloc(), Form::Stream, LAST_BYTES)
}

#[test]
fn the_largest_frame_is_made_and_given(rt: HostRuntime) -> Result<(), Fail> {
    let alloc = rt.alloc();
    let body = vec![in alloc; 0x5a; 65527]?;
    let largest = message(alloc, 4, 9, &body)?;
    expect_eq!(largest.as_slice().len(), 65535);
    let wanted = Head {
        version: 1,
        kind: 4,
        length: 65535,
        xid: 9,
    };
    expect_eq!(largest.head(), wanted);
    let given = frames_in_pieces(alloc, largest.as_slice(), 40000)?;
    expect_eq!(given.as_slice(), largest.as_slice());
    Ok(())
}

/// Errors about a message of 80 bytes, of which 64 are carried, and about one of two.
const ERRORS: &[Row] = &[
    (
        &[
            "0101005c 0000002a 0003 0002",
            "000102030405060708090a0b0c0d0e0f101112131415161718191a1b1c1d1e1f",
            "202122232425262728292a2b2c2d2e2f303132333435363738393a3b3c3d3e3f",
            "404142434445464748494a4b4c4d4e4f",
        ],
        0,
        &[
            "error 3 2 written as 0101004c0000002a",
            "00030002",
            "000102030405060708090a0b0c0d0e0f101112131415161718191a1b1c1d1e1f",
            "202122232425262728292a2b2c2d2e2f303132333435363738393a3b3c3d3e3f",
        ],
    ),
    (&["0101000e 0000002a 0003 0002 0506"], 0, &["error 3 2"]),
];

#[test]
fn an_error_carries_64_bytes(rt: HostRuntime) -> Result<(), Fail> {
    expect_read(rt.alloc(), Form::Message, ERRORS)
}

#[test]
fn a_message_begins_with_its_header(rt: HostRuntime) -> Result<(), Fail> {
    let head = [1, 12, 0, 10, 0x01, 0x02, 0x03, 0x04];
    let begun = begin(rt.alloc(), 12, 0x01020304, 2)?;
    expect_eq!(begun.as_slice(), head.as_slice());
    let whole = message(rt.alloc(), 12, 0x01020304, &[8, 9])?;
    expect_eq!(&whole.as_slice()[..8], head.as_slice());
    expect_eq!(whole.body(), [8, 9].as_slice());
    expect_eq!(whole.into_vec().len(), 10);
    Ok(())
}

const FRAMES: &[Row] = &[
    (&["01 00 0008 00000000"], 0, &["(true, false, false)"]),
    (&["04 00 0008 00000000"], 0, &["(false, false, false)"]),
    (&["01 00 0007 00000000"], 0, &["(false, false, true)"]),
    (&["01 00 0000 00000000"], 0, &["(false, false, true)"]),
    (&["01 00 0007 000000"], 0, &["no frame"]),
    (&["01 00 0009 00000000"], 0, &["no frame"]),
    (&["01 00 0008 00000000 00"], 0, &["no frame"]),
    (&["01 00 0009 00000000 00"], 0, &["(true, false, false)"]),
];

#[test]
fn frames_are_told_by_their_bytes(rt: HostRuntime) -> Result<(), Fail> {
    expect_read(rt.alloc(), Form::Frame, FRAMES)
}
