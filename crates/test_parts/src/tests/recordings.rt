//! Recordings, spelled out as bytes: their records and their first faults.

use crate::tests::tables::{Part, play};
use expectations::{expect_told, told};
use recording::*;
use std::alloc::{AllocError, Global};
use std::test::Fail;
use wire_samples::bytes;

/// The bytes that begin a recording.
const BEGIN: &str = "4656524543000001";

/// The bytes that begin a trace.
const TRACE: &str = "4656545243000001";

/// Switch 0 connects at timestamp 5.
const UP: &str = "00000000000000000000000000000005";

/// Switch 1 connects.
const OTHER_UP: &str = "00010000000000000000000000000000";

/// Switch 0 disconnects at timestamp 9.
const DOWN: &str = "02000000000000000000000000000009";

/// The slice in slot 1 comes for switch 0.
const SLICE: &str = "03000100000000000000000000000000";

/// The slice in slot 1 goes for switch 0.
const SLICE_GONE: &str = "05000100000000000000000000000000";

/// Three bytes of the slice in slot 1 for switch 0.
const SLICE_TALKS: &str = "04000100000000030000000000000000616263";

/// A HELLO of switch 0.
const HELLO: &str = "010000000000000800000000000000000100000800000000";

/// A HELLO that is sent to switch 0 for the slice in slot 1.
const SENT: &str = "060001000000000800000000000000070100000800000000";

/// The digits that a word stands for: those of what it names, else the word itself.
fn digits_of(word: &str) -> &str {
    match word {
        "nothing" => "",
        "begin" => BEGIN,
        "trace" => TRACE,
        "up" => UP,
        "other-up" => OTHER_UP,
        "down" => DOWN,
        "slice" => SLICE,
        "slice-gone" => SLICE_GONE,
        "slice-talks" => SLICE_TALKS,
        "hello" => HELLO,
        "sent" => SENT,
        digits => digits,
    }
}

/// The file that the words stand for, one behind the other.
fn file_of(alloc: Global, words: &str) -> Result<Vec<u8>, AllocError> {
    let mut pieces = Vec::new(alloc);
    for word in words.split(' ') {
        pieces.push(digits_of(word))?;
    }
    bytes(alloc, &pieces)
}

/// A policy of so many slices, under which the file of the words is read.
type Words = (u8, &'static str);

/// What reads files.
#[derive(Drop)]
struct Reader {
    alloc: Global,
}

impl Part<Words> for Reader {
    fn answer(&mut self, (slices, words): &Words) -> Result<String, AllocError> {
        let file = file_of(self.alloc, words)?;
        match items(self.alloc, &file, *slices) {
            Ok(found) => told(self.alloc, &found),
            Err(fault) => told(self.alloc, &fault),
        }
    }
}

/// What reads traces, and accepts those that it reads.
#[derive(Drop)]
struct TraceReader {
    alloc: Global,
}

impl Part<Words> for TraceReader {
    fn answer(&mut self, (slices, words): &Words) -> Result<String, AllocError> {
        let file = file_of(self.alloc, words)?;
        let found = trace_items(self.alloc, &file, *slices);
        let accepted = accept_trace(&file, *slices);
        match (&found, &accepted) {
            (Ok(found), Ok(())) => told(self.alloc, found),
            (Err(fault), Err(other)) => {
                if fault == other {
                    told(self.alloc, fault)
                } else {
                    told(self.alloc, &accepted)
                }
            }
            _ => told(self.alloc, &accepted),
        }
    }
}

fn play_files(alloc: Global, rows: &[(Words, &str)]) -> Result<(), Fail> {
    play(&mut Reader { alloc }, rows)
}

const FAULTS: &[(Words, &str)] = &[
    // The eight bytes that begin the file
    ((2, "nothing"), "Torn(0)"),
    ((2, "46565245430000"), "Torn(0)"),
    ((2, "ffffff"), "Torn(0)"),
    ((2, "4656524543000002"), "Bad(0)"),
    ((2, "0056524543000001 up"), "Bad(0)"),
    // Fewer bytes than a head has
    ((2, "begin 00"), "Torn(8)"),
    ((2, "begin up 00000000000000000000"), "Torn(24)"),
    ((2, "begin 060000000000000000000000000000"), "Torn(8)"),
    // The kind, also of a record that is cut off
    ((2, "begin 06000000000000000000000000000000"), "Bad(8)"),
    ((2, "begin up 06000000000000030000000000000000"), "Bad(24)"),
    ((2, "begin up ff000000000000000000000000000000"), "Bad(24)"),
    // The switch
    ((2, "begin 00100000000000000000000000000000"), "Bad(8)"),
    // The slot: 0 where the record is of no slice, else a slot of the policy
    ((2, "begin 00000100000000000000000000000000"), "Bad(8)"),
    ((2, "begin up 01000100000000000000000000000000"), "Bad(24)"),
    ((2, "begin up 02000100000000000000000000000000"), "Bad(24)"),
    ((2, "begin up 03000200000000000000000000000000"), "Bad(24)"),
    ((2, "begin up 04000200000000000000000000000000"), "Bad(24)"),
    ((2, "begin up 05000200000000000000000000000000"), "Bad(24)"),
    // The fourth byte
    ((2, "begin 00000001000000000000000000000000"), "Bad(8)"),
    // Bytes where the kind has none, and too many of them
    ((2, "begin 0000000000000001000000000000000061"), "Bad(8)"),
    (
        (2, "begin up 0200000000000001000000000000000061"),
        "Bad(24)",
    ),
    (
        (2, "begin up 0300010000000001000000000000000061"),
        "Bad(24)",
    ),
    (
        (2, "begin up slice 0500010000000001000000000000000061"),
        "Bad(40)",
    ),
    ((2, "begin up 01000000010000010000000000000000"), "Bad(24)"),
    (
        (2, "begin up slice 04000100010000010000000000000000"),
        "Bad(40)",
    ),
    // Fewer bytes than the length says, also of a record that doesn't fit
    ((2, "begin up 01000000010000000000000000000000"), "Torn(24)"),
    (
        (2, "begin up 010000000000000300000000000000006162"),
        "Torn(24)",
    ),
    ((2, "begin 010000000000000300000000000000006162"), "Torn(8)"),
    // A switch comes where it isn't up, and all else of it where it is
    ((2, "begin up up"), "NotOpen(24)"),
    (
        (2, "begin 01000000000000030000000000000000616263"),
        "NotOpen(8)",
    ),
    ((2, "begin down"), "NotOpen(8)"),
    ((2, "begin other-up down"), "NotOpen(24)"),
    ((2, "begin up down down"), "NotOpen(40)"),
    // A slice comes where it isn't up and its switch is
    ((2, "begin other-up slice"), "NotOpen(24)"),
    ((2, "begin up slice slice"), "NotOpen(40)"),
    // All else of a slice comes where it is up
    ((2, "begin up slice-talks"), "NotOpen(24)"),
    ((2, "begin up slice-gone"), "NotOpen(24)"),
    ((2, "begin up slice slice-gone slice-talks"), "NotOpen(56)"),
    (
        (2, "begin up slice 04000000000000000000000000000000"),
        "NotOpen(40)",
    ),
    // A switch that goes takes its slices with it
    ((2, "begin up slice down slice-talks"), "NotOpen(56)"),
    ((2, "begin up slice down up slice-talks"), "NotOpen(72)"),
    // A policy of no slices has no slot.
    ((0, "begin up 03000000000000000000000000000000"), "Bad(24)"),
];

#[test]
fn faults_come_in_their_order_and_at_their_place(rt: HostRuntime) -> Result<(), Fail> {
    play_files(rt.alloc(), FAULTS)
}

const RECORDS: &[(Words, &str)] = &[
    ((2, "begin"), "[]"),
    (
        (
            2,
            "begin up 01000000000000030102030405060708616263 slice slice-talks slice-gone slice down \
            up slice 01000000000000000000000000000000",
        ),
        "[\
        Item { kind: 0, switch: 0, slot: 0, moment: 5, from: 24, size: 0 }, \
        Item { kind: 1, switch: 0, slot: 0, moment: 72623859790382856, from: 40, size: 3 }, \
        Item { kind: 3, switch: 0, slot: 1, moment: 0, from: 59, size: 0 }, \
        Item { kind: 4, switch: 0, slot: 1, moment: 0, from: 75, size: 3 }, \
        Item { kind: 5, switch: 0, slot: 1, moment: 0, from: 94, size: 0 }, \
        Item { kind: 3, switch: 0, slot: 1, moment: 0, from: 110, size: 0 }, \
        Item { kind: 2, switch: 0, slot: 0, moment: 9, from: 126, size: 0 }, \
        Item { kind: 0, switch: 0, slot: 0, moment: 5, from: 142, size: 0 }, \
        Item { kind: 3, switch: 0, slot: 1, moment: 0, from: 158, size: 0 }, \
        Item { kind: 1, switch: 0, slot: 0, moment: 0, from: 174, size: 0 }]",
    ),
];

#[test]
fn records_that_fit_are_read(rt: HostRuntime) -> Result<(), Fail> {
    play_files(rt.alloc(), RECORDS)
}

const LAST: &[(Words, &str)] = &[(
    (
        255,
        "begin 000f000000000000ffffffffffffffff 030ffe00000000000000000000000000",
    ),
    "[\
        Item { kind: 0, switch: 15, slot: 0, moment: 18446744073709551615, from: 24, size: 0 }, \
        Item { kind: 3, switch: 15, slot: 254, moment: 0, from: 40, size: 0 }]",
)];

#[test]
fn the_last_switch_and_the_last_slot_are_read(rt: HostRuntime) -> Result<(), Fail> {
    play_files(rt.alloc(), LAST)
}

const TRACES: &[(Words, &str)] = &[
    ((2, "trace"), "[]"),
    ((2, "begin"), "Bad(0)"),
    (
        (2, "trace up hello sent down"),
        "[\
        Item { kind: 0, switch: 0, slot: 0, moment: 5, from: 24, size: 0 }, \
        Item { kind: 1, switch: 0, slot: 0, moment: 0, from: 40, size: 8 }, \
        Item { kind: 6, switch: 0, slot: 1, moment: 7, from: 64, size: 8 }, \
        Item { kind: 2, switch: 0, slot: 0, moment: 9, from: 88, size: 0 }]",
    ),
    // The kinds of a recording that a trace hasn't, and its own that isn't there
    ((2, "trace up slice"), "Bad(24)"),
    ((2, "trace up slice-talks"), "Bad(24)"),
    ((2, "trace up 07000000000000000000000000000000"), "Bad(24)"),
    // The slot of what was sent for a slice
    ((1, "trace up sent"), "Bad(24)"),
    // Bytes that are cut off come before bytes that are no frame, and these before who is up
    (
        (2, "trace up 0600010000000009000000000000000701000008000000"),
        "Torn(24)",
    ),
    (
        (
            2,
            "trace 06000100000000080000000000000007010000090000000000",
        ),
        "Bad(8)",
    ),
    ((2, "trace sent"), "NotOpen(8)"),
    ((2, "trace hello"), "NotOpen(8)"),
    ((2, "trace up up"), "NotOpen(24)"),
    ((2, "trace up down sent"), "NotOpen(40)"),
    // Less than a header, more than a frame, none
    (
        (2, "trace up 0100000000000007000000000000000001000007000000"),
        "Bad(24)",
    ),
    (
        (
            2,
            "trace up 010000000000000900000000000000000100000800000000ff",
        ),
        "Bad(24)",
    ),
    ((2, "trace up 01000000000000000000000000000000"), "Bad(24)"),
];

#[test]
fn traces_have_whole_frames(rt: HostRuntime) -> Result<(), Fail> {
    play(&mut TraceReader { alloc: rt.alloc() }, TRACES)
}

/// Records, each by its kind, its switch, its slot, its timestamp and its bytes.
const ITEMS: &[(u8, u8, u8, u64, &[u8])] = &[
    (SWITCH_UP, 0, 0, 5, &[]),
    (SLICE_UP, 0, 1, 0, &[]),
    (SLICE_BYTES, 0, 1, 0, b"abc"),
    (SWITCH_BYTES, 15, 31, 0x0102_0304_0506_0708, &[9]),
];

#[test]
fn records_are_appended(rt: HostRuntime) -> Result<(), Fail> {
    let alloc = rt.alloc();
    let mut out = Vec::new(alloc);
    begin_recording(&mut out)?;
    for (kind, switch, slot, moment, bytes) in ITEMS {
        if *switch < 16 && *slot < 32 && bytes.len() < 100 {
            add_item(&mut out, *kind, *switch, *slot, *moment, bytes)?;
        }
    }
    let wanted = file_of(
        alloc,
        "begin up slice slice-talks 010f1f0000000001010203040506070809",
    )?;
    let (came, wanted) = (told(alloc, &out)?, told(alloc, &wanted)?);
    expect_told(0, &came, &wanted)
}

#[test]
fn a_trace_begins_with_its_own_bytes(rt: HostRuntime) -> Result<(), Fail> {
    let alloc = rt.alloc();
    let mut out = Vec::new(alloc);
    begin_trace(&mut out)?;
    add_item(&mut out, SWITCH_UP, 0, 0, 5, &[])?;
    let wanted = file_of(alloc, "trace up")?;
    let (came, wanted) = (told(alloc, &out)?, told(alloc, &wanted)?);
    expect_told(0, &came, &wanted)
}

const TEXTS: &[(RecordingFault, &str)] = &[
    (RecordingFault::Torn(24), "torn record at 24"),
    (RecordingFault::Bad(8), "bad record at 8"),
    (RecordingFault::NotOpen(40), "not open at 40"),
];

#[test]
fn a_fault_tells_its_place(rt: HostRuntime) -> Result<(), Fail> {
    for (fault, text) in TEXTS {
        let came = format!(in rt.alloc(); "{fault}")?;
        expect_told(0, &came, text)?;
    }
    Ok(())
}
