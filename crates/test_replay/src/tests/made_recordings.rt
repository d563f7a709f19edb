//! What is drawn, as bytes that were computed apart.

use fv_generator::{made, policy};
use policy_text::{print, read};
use recording::items;
use std::alloc::{AllocError, Global};
use std::test::Fail;
use wire_samples::bytes;

/// The four records with which every recording begins, behind the bytes that begin the file.
const OPENING: &[&str] = &[
    "4656524543000001",
    "00000000 00000000 0000000000000000",
    "01000000 000000e0 0000000000000000",
    "010600e0 ff000001 00000000000000a1 00000100 01000000 00000000 00000fff",
    "0001 00000000000000000000000000000000000000000000000000000000000000000000000000000000000000000000",
    "0002 00000000000000000000000000000000000000000000000000000000000000000000000000000000000000000000",
    "0003 00000000000000000000000000000000000000000000000000000000000000000000000000000000000000000000",
    "fffe 00000000000000000000000000000000000000000000000000000000000000000000000000000000000000000000",
    "03000000 00000000 0000000000000000",
    "03000100 00000000 0000000000000000",
];

/// How a packet begins, up to the port from which it comes.
const PACKET: &str =
    "000000000002 000000000001 0800 45000028 00000000 40060000 0a000001 0a000002 0400";

/// How it ends, behind the port to which it goes.
const SYN: &str = "0000000000000000 5002 000000000000";

/// The match of the TCP packets from a port, up to that port.
const FROM: &str = "0038208f 000000000000000000000000000000000000 0800 0006 00000000000000000000";

/// The record that a row stands for. A packet-in has a timestamp, a buffer, a port and a TCP port; a flow-mod
/// a timestamp, a slot, a TCP port, a priority and a port; a packet-out a timestamp, a slot, a port and a TCP
/// port. A barrier has a timestamp and a slot.
fn record(alloc: Global, row: &str) -> Result<Vec<u8>, AllocError> {
    let mut words = Vec::new(alloc);
    for word in row.split(' ') {
        words.push(word)?;
    }
    match words.as_slice() {
        ["in", moment, buffer, port, to] => bytes(
            alloc,
            &[
                "01000000 00000048 00000000",
                moment,
                "010a0048 00000000",
                buffer,
                "0036",
                port,
                "0000",
                PACKET,
                to,
                SYN,
            ],
        ),
        ["mod", moment, slot, from, priority, port] => bytes(
            alloc,
            &[
                "0400",
                slot,
                "00 00000050 00000000",
                moment,
                "010e0050",
                moment,
                FROM,
                from,
                "0000 0000000000000000 0000 0000 0000",
                priority,
                "ffffffff ffff 0001 00000008",
                port,
                "0000",
            ],
        ),
        ["out", moment, slot, port, to] => bytes(
            alloc,
            &[
                "0400",
                slot,
                "00 0000004e 00000000",
                moment,
                "010d004e",
                moment,
                "ffffffff 0001 0008 00000008",
                port,
                "0000",
                PACKET,
                to,
                SYN,
            ],
        ),
        ["barrier", moment, slot] => bytes(
            alloc,
            &[
                "0400",
                slot,
                "00 00000008 00000000",
                moment,
                "01120008",
                moment,
            ],
        ),
        _ => Err(AllocError),
    }
}

/// A recording with the rounds of these rows.
fn recording_with(alloc: Global, rows: &str) -> Result<Vec<u8>, AllocError> {
    let mut file = bytes(alloc, OPENING)?;
    for row in rows.lines() {
        file.extend_from_slice(&record(alloc, row)?)?;
    }
    Ok(file)
}

/// A number by which long files are compared.
fn checksum(file: &[u8]) -> u32 {
    let mut sum = 0u32;
    for byte in file {
        sum = sum.wrapping_mul(31).wrapping_add(u32::from(*byte));
    }
    sum
}

#[test]
fn no_round_leaves_four_records(rt: HostRuntime) -> Result<(), Fail> {
    let alloc = rt.alloc();
    let file = made(alloc, 1, 0)?;
    assert!(rt; file.as_slice() == bytes(alloc, OPENING)?.as_slice());
    assert_eq!(rt; items(alloc, &file, 2)?.len(), 4);
    Ok(())
}

#[test]
fn seed_1_begins_with_a_packet_out_of_bob(rt: HostRuntime) -> Result<(), Fail> {
    let alloc = rt.alloc();
    let file = made(alloc, 1, 1)?;
    let expected = recording_with(alloc, "out 00000000 01 0001 0050")?;
    assert!(rt; file.as_slice() == expected.as_slice());
    Ok(())
}

/// The first rounds of seed 7.
const ROUNDS: &str = "\
out 00000000 01 0001 0016
in 00000001 ffffffff 0001 01bb
in 00000002 00000033 0003 0016
in 00000003 ffffffff 0001 0050
in 00000004 00000018 0002 0050
out 00000005 00 0003 0050
in 00000006 00000030 0002 01bb
mod 00000007 00 004b 0001 0003
in 00000008 ffffffff 0001 0016
mod 00000009 01 0058 0002 0003
in 0000000a ffffffff 0003 0050
in 0000000b ffffffff 0003 01bb
mod 0000000c 00 0033 0000 0001
in 0000000d 00000025 0003 0016
mod 0000000e 01 0055 0000 0003
in 0000000f 00000026 0003 0050
in 00000010 00000006 0002 0016
in 00000011 ffffffff 0003 0050
in 00000012 0000003f 0003 0050
in 00000013 0000003d 0001 01bb
mod 00000014 00 0030 0002 0003
mod 00000015 01 0053 0000 0003
mod 00000016 00 001f 0003 0001
in 00000017 00000021 0002 01bb
mod 00000018 00 0005 0002 0003
mod 00000019 00 0007 0003 0003
in 0000001a ffffffff 0001 0050
in 0000001b 00000011 0002 01bb
mod 0000001c 01 003d 0001 0001
in 0000001d 0000001a 0003 0050
mod 0000001e 00 0037 0002 0001
in 0000001f 0000000f 0002 0050
in 00000020 00000039 0002 01bb
in 00000021 0000003a 0002 01bb
mod 00000022 00 0007 0001 0003
barrier 00000023 00
";

#[test]
fn rounds_are_as_computed_apart(rt: HostRuntime) -> Result<(), Fail> {
    let alloc = rt.alloc();
    let file = made(alloc, 7, 36)?;
    let expected = recording_with(alloc, ROUNDS)?;
    assert!(rt; file.as_slice() == expected.as_slice());
    let file = made(alloc, 7, 100)?;
    assert_eq!(rt; (file.len(), checksum(&file)), (8_992, 2_744_533_698));
    let file = made(alloc, u64::MAX, 3)?;
    assert_eq!(rt; (file.len(), checksum(&file)), (560, 1_527_315_496));
    Ok(())
}

#[test]
fn a_hundred_thousand_rounds_are_as_computed_apart(rt: HostRuntime) -> Result<(), Fail> {
    let alloc = rt.alloc();
    let file = made(alloc, 7, 100_000)?;
    assert_eq!(rt; (file.len(), checksum(&file)), (8_272_048, 411_498_178));
    assert_eq!(rt; items(alloc, &file, 2)?.len(), 100_004);
    Ok(())
}

/// The policy under which made recordings are played.
const POLICY: &str = "\
version = 1
[[slice]]
name = \"alice\"
controller = \"127.0.0.1:6633\"
[[slice]]
name = \"bob\"
controller = \"127.0.0.1:6634\"
[[rule]]
priority = 100
write = \"alice\"
dl_type = 2048
nw_proto = 6
tp_dst = 80
[[rule]]
priority = 50
write = \"bob\"
dl_type = 2048
nw_proto = 6
tp_dst = 22
";

#[test]
fn the_policy_is_that_of_its_text(rt: HostRuntime) -> Result<(), Fail> {
    let alloc = rt.alloc();
    let ours = print(alloc, &policy(alloc)?)?;
    let read = print(alloc, &read(alloc, POLICY.as_bytes())?)?;
    assert_eq!(rt; ours.as_slice(), read.as_slice());
    Ok(())
}
