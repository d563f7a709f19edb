//! The report of a recording of many packets that all go to one slice.

ghost use Rattle.recording.specs.declared.item.Item.{Item};
ghost use Rattle.recording.specs.Recordings.{read_items};
ghost use Rattle.std.specs.Prelude.{◌≡◌, List, length, Ok};

use crate::policies::load;
use flowspace::Policy;
use fv_base::NeverSink;
use recording::{BYTE_LIMIT, SLICE_UP, SWITCH_BYTES, SWITCH_UP, accept, add_item, begin_recording};
use std::alloc::{AllocError, Global};

const POLICY: &str = "\
version = 1
[[slice]]
name = \"alice\"
controller = \"127.0.0.1:6633\"
[[rule]]
priority = 100
write = \"alice\"
dl_type = 2048
nw_proto = 6
tp_dst = 80
";

/// What the switch says it is: it has no port yet.
const FEATURES: [u8; 32] = [
    1, 6, 0, 32, 0xff, 0, 0, 1, 0, 0, 0, 0, 0, 0, 0, 0xa1, 0, 0, 1, 0, 1, 0, 0, 0, 0, 0, 0, 0, 0,
    0, 0x0f, 0xff,
];

/// A packet-in of 54 bytes at port 1 that the switch doesn't keep: TCP to port 80.
const PACKET: [u8; 72] = [
    1, 10, 0, 72, 0, 0, 0, 0, 0xff, 0xff, 0xff, 0xff, 0, 54, 0, 1, 0, 0, 0, 0, 0, 0, 0, 2, 0, 0, 0,
    0, 0, 1, 8, 0, 0x45, 0, 0, 40, 0, 0, 0, 0, 64, 6, 0, 0, 10, 0, 0, 1, 10, 0, 0, 2, 4, 0, 0, 80,
    0, 0, 0, 0, 0, 0, 0, 0, 0x50, 2, 0, 0, 0, 0, 0, 0,
];

/// So many packets fit the longest record.
const PACKETS: u64 = 233_016;

/// Bytes of the shortest line that reports one: that of event 4.
const LINE: u64 = 158;

/// Whether the switch keeps the packets that it hands up.
#[derive(Clone, Copy)]
pub enum Keeping {
    Nothing,
    /// Each packet, under the numbers 0 to 255 in turn.
    EachPacket,
}

/// A packet-in, as so many came before it.
fn packet(keeping: Keeping, before: u64) -> [u8; 72] {
    let mut bytes = PACKET;
    if matches!(keeping, Keeping::EachPacket) {
        bytes[8] = 0;
        bytes[9] = 0;
        bytes[10] = 0;
        bytes[11] = (before % 256) as u8;
    }
    bytes
}

/// So many packets.
fn packets(alloc: Global, keeping: Keeping, count: u64) -> Result<Vec<u8>, AllocError> {
    let mut out = Vec::new(alloc);
    for before in 0..count {
        out.extend_from_slice(&packet(keeping, before))?;
    }
    Ok(out)
}

/// A record with bytes of the switch, or with the first of them that it may carry.
fn put_bytes(out: &mut Vec<u8>, bytes: &[u8]) -> Result<(), AllocError> {
    let size = bytes.len().min(BYTE_LIMIT as usize);
    add_item(out, SWITCH_BYTES, 0, 0, 0, &bytes[..size])
}

/// The recording of so many packets, in records that are as long as may be.
pub fn recording_of(alloc: Global, keeping: Keeping, count: u64) -> Result<Vec<u8>, AllocError> {
    let mut out = Vec::new(alloc);
    begin_recording(&mut out)?;
    add_item(&mut out, SWITCH_UP, 0, 0, 0, &[])?;
    put_bytes(&mut out, &FEATURES)?;
    add_item(&mut out, SLICE_UP, 0, 0, 0, &[])?;
    let most = packets(alloc, keeping, PACKETS.min(count))?;
    for _ in 0..count / PACKETS {
        put_bytes(&mut out, &most)?;
    }
    put_bytes(&mut out, &packets(alloc, keeping, count % PACKETS)?)?;
    Ok(out)
}

/// Writes the report of a recording, and counts its bytes.
pub fn write_report(alloc: Global, policy: &Policy, recording: &[u8]) -> Result<u64, AllocError>
    requires { (items : List Item) × (read_items (length policy.now.slices) recording.now ≡ Ok items) }
{
    let mut out = NeverSink::new();
    match fv_report::report(alloc, policy, recording, &mut out) {
        Ok(()) => Ok(out.taken()),
        Err(_) => Err(AllocError),
    }
}

/// Writes the report of a recording of so many packets, and counts their lines.
pub fn report(alloc: Global, keeping: Keeping, count: u64) -> Result<u64, AllocError> {
    let policy = load(alloc, POLICY)?;
    let recording = recording_of(alloc, keeping, count)?;
    let Ok(()) = accept(&recording, policy.slice_count()) else {
        return Err(AllocError);
    };
    let bytes = write_report(alloc, &policy, &recording)?;
    Ok(count.min(bytes / LINE))
}
