//! The report of a recording in memory, and of the same where the switch's stream comes byte by byte, through a framer of
//! the test's own.

use event_player::played;
use fv_base::MemorySink;
use fv_cli::report;
use of10_ctl::{Framer, Next};
use recording::items;
use std::alloc::Global;
use std::process::Abort;
use std::test::Fail;
use wire_samples::bytes;

/// Alice has TCP port 80, bob port 22.
const POLICY: &str = "\
version = 1
[[slice]]
name = \"alice\"
controller = \"127.0.0.1:6633\"
[[slice]]
name = \"bob\"
controller = \"127.0.0.1:6634\"
[[rule]]
priority = 100
write = \"alice\"
dl_type = 2048
nw_proto = 6
tp_dst = 80
[[rule]]
priority = 50
write = \"bob\"
dl_type = 2048
nw_proto = 6
tp_dst = 22
";

/// What the switch says it is: a FEATURES_REPLY with four ports.
const FEATURES: &str = "\
010600e0ff00000100000000000000a100000100010000000000000000000fff\
000100000000000000000000000000000000000000000000000000000000000000000000000000000000000000000000\
000200000000000000000000000000000000000000000000000000000000000000000000000000000000000000000000\
000300000000000000000000000000000000000000000000000000000000000000000000000000000000000000000000\
fffe00000000000000000000000000000000000000000000000000000000000000000000000000000000000000000000";

/// A packet-in of 54 bytes at port 1 that isn't buffered: TCP to port 80, which is alice's.
const TO_WEB: &str = "\
010a004800000000ffffffff003600010000\
000000000002000000000001080045000028000000004006\
00000a0000010a0000020400005000000000000000005002000000000000";

/// A recording, record by record: the switch connects and says its features, alice and bob connect, and a
/// packet comes.
const RECORDING: &[&str] = &[
    "4656524543000001",
    "00000000000000000000000000000000",
    "01000000000000e00000000000000000",
    FEATURES,
    "03000000000000000000000000000000",
    "03000100000000000000000000000000",
    "01000000000000480000000000000000",
    TO_WEB,
];

const REPORT: &[&str] = &[
    "\
0 0 lane 01000008ff000000
0 0 lane 01050008ff000001
1 0 lane 0109000cff0000020000ffff
1 0 lane 010e0048ff000003003820ff00000000000000000000000000000000000000000000000000000000\
000000000000000000000000000000000003000000000000ffffffffffff0000
1 0 lane 01120008ff000004
2 0 to alice 0100000800000000
3 0 to bob 0100000800000000
4 0 to alice ",
    TO_WEB,
    "\nend 5\n",
];

/// The recording has five records, and this report.
fn expect_report(rt: &impl Abort, alloc: Global, recording: &[u8]) -> Result<(), Fail> {
    let policy = policy_text::read(alloc, POLICY.as_bytes())?;
    let records = items(alloc, recording, policy.slices().len() as u8)?;
    assert_eq!(rt; records.len(), 5);
    let mut out = MemorySink::new(alloc);
    assert!(rt; report(alloc, &policy, recording, &mut out).is_ok());
    assert_eq!(rt; out.as_slice(), REPORT.concat(alloc)?.as_bytes());
    Ok(())
}

#[test]
fn the_report_of_a_recording_in_memory_is_written(rt: HostRuntime) -> Result<(), Fail> {
    let recording = bytes(rt.alloc(), RECORDING)?;
    expect_report(&rt, rt.alloc(), &recording)
}

#[test]
fn a_played_recording_leaves_the_desks_of_its_switches(rt: HostRuntime) -> Result<(), Fail> {
    let alloc = rt.alloc();
    let recording = bytes(alloc, RECORDING)?;
    let policy = policy_text::read(alloc, POLICY.as_bytes())?;
    let _records = items(alloc, &recording, policy.slices().len() as u8)?;
    let Ok(played) = played(alloc, &policy, &recording) else {
        return Err(Fail::new(format_args!("the recording isn't played")));
    };
    assert_eq!(rt; played.events(), 5);
    assert!(rt; played.desk(0).is_some());
    assert!(rt; played.desk(1).is_none());
    Ok(())
}

/// Appends a record of the switch's bytes for each frame that the bytes of a message give, one by one.
fn put_frames(
    alloc: Global,
    framer: &mut Framer,
    out: &mut Vec<u8>,
    message: &str,
) -> Result<(), Fail> {
    for byte in &bytes(alloc, &[message])? {
        framer.feed(&[*byte])?;
        if let Next::Frame(frame) = framer.next()? {
            let size = frame.as_slice().len().min(u32::MAX as usize) as u32;
            out.extend_from_slice(&[1, 0, 0, 0])?;
            out.extend_from_slice(&size.to_be_bytes())?;
            out.extend_from_slice(&[0; 8])?;
            out.extend_from_slice(frame.as_slice())?;
        }
    }
    Ok(())
}

#[test]
fn a_stream_cut_into_bytes_makes_the_same_report(rt: HostRuntime) -> Result<(), Fail> {
    let alloc = rt.alloc();
    let mut framer = Framer::new(alloc);
    let mut recording = bytes(alloc, &RECORDING[..2])?;
    put_frames(alloc, &mut framer, &mut recording, FEATURES)?;
    recording.extend_from_slice(&bytes(alloc, &RECORDING[4..6])?)?;
    put_frames(alloc, &mut framer, &mut recording, TO_WEB)?;
    assert!(rt;
        matches!(framer.next()?, Next::NeedMore),
        "no byte is left over"
    );
    expect_report(&rt, alloc, &recording)
}
