//! Files of records are written.

ghost use Rattle.std.specs.Prelude.{◌≡◌, ◌<◌, ◌≤◌, ◌++◌, OnOk, OnErr, length, take};
ghost use Rattle.recording.specs.declared.item.TheConstants.{BYTE_LIMIT};
ghost use Rattle.recording.specs.Recordings.{magic, trace_magic, head_spelling, record_spelling};

use crate::item::{MAGIC, TRACE_MAGIC};
use of10_model::wire::{put_u32, put_u64};
use std::alloc::AllocError;

/// Appends the bytes that begin a recording. Where memory runs out, `out` is as before.
pub fn begin_recording(out: &mut Vec<u8>) -> Result<(), AllocError>
    ensures ok { OnOk result (out.new.items ≡ out.old.items ++ magic) }
    ensures err { OnErr result (out.new.items ≡ out.old.items) }
{
    out.extend_from_slice(&MAGIC)
}

/// Appends the bytes that begin a trace. Where memory runs out, `out` is as before.
pub fn begin_trace(out: &mut Vec<u8>) -> Result<(), AllocError>
    ensures ok { OnOk result (out.new.items ≡ out.old.items ++ trace_magic) }
    ensures err { OnErr result (out.new.items ≡ out.old.items) }
{
    out.extend_from_slice(&TRACE_MAGIC)
}

// Where a call here fails, what was in `out` still stands in front.
#[tactic(auto, unfolding(crate::specs::Recordings::head_spelling))]
fn put_head(
    out: &mut Vec<u8>,
    kind: u8,
    switch: u8,
    slot: u8,
    size: u32,
    moment: u64,
) -> Result<(), AllocError>
    ensures ok { OnOk result (out.new.items ≡ out.old.items ++ head_spelling kind switch slot size moment) }
    ensures err { OnErr result (take (length out.old.items) out.new.items ≡ out.old.items) }
{
    out.extend_from_slice(&[kind, switch, slot, 0])?;
    put_u32(out, size)?;
    put_u64(out, moment)
}

fn put_item(
    out: &mut Vec<u8>,
    kind: u8,
    switch: u8,
    slot: u8,
    moment: u64,
    bytes: &[u8],
) -> Result<(), AllocError>
    requires { length bytes.now ≤ BYTE_LIMIT }
    ensures ok { OnOk result (out.new.items ≡ out.old.items ++ record_spelling kind switch slot moment bytes.now) }
    ensures err { OnErr result (take (length out.old.items) out.new.items ≡ out.old.items) }
{
    put_head(out, kind, switch, slot, bytes.len() as u32, moment)?;
    out.extend_from_slice(bytes)
}

/// Appends a record of this kind, of the constants of this crate, at a timestamp in milliseconds. Where memory
/// runs out, `out` is as before.
pub fn add_item(
    out: &mut Vec<u8>,
    kind: u8,
    switch: u8,
    slot: u8,
    moment: u64,
    bytes: &[u8],
) -> Result<(), AllocError>
    requires switch { switch < 16 }
    requires slot { slot < 32 }
    requires size { length bytes.now ≤ BYTE_LIMIT }
    ensures ok { OnOk result (out.new.items ≡ out.old.items ++ record_spelling kind switch slot moment bytes.now) }
    ensures err { OnErr result (out.new.items ≡ out.old.items) }
{
    let start = out.len();
    let done = put_item(out, kind, switch, slot, moment, bytes);
    if done.is_err() {
        out.truncate(start);
    }
    done
}
