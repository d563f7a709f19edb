//! The drawn records of a made recording.

ghost use Rattle.std.specs.Prelude.{◌≡◌, ◌≤◌, ◌<◌, ◌-◌, ◌++◌, IfOk, OnOk, flat_map};
ghost use Rattle.recording.specs.Recordings.{record_bytes};
ghost use Rattle.fv_generator.specs.Drawing.{Drew};
ghost use Rattle.fv_generator.specs.Made.{Appends, packet_round, slice_round, drawn_round, recording_of};

use crate::messages::{packet_in, request};
use crate::opening::put_opening;
use draws::Draws;
use recording::{SLICE_BYTES, SWITCH_BYTES, add_item, begin_recording};
use std::alloc::{AllocError, Global};

/// Bytes of a recording without rounds, and the most bytes that a round takes.
const OPENING: usize = 296;

const ROUND: usize = 96;

/// Appends a packet-in of the switch.
fn put_packet(
    alloc: Global,
    number: u32,
    draws: &mut Draws,
    out: &mut Vec<u8>,
) -> Result<(), AllocError>
    ensures { OnOk result (Appends (packet_round number) draws.old.state draws.new.state out.old.items out.new.items) }
{
    let message = packet_in(alloc, draws)?;
    add_item(
        out,
        SWITCH_BYTES,
        0,
        0,
        u64::from(number),
        message.as_slice(),
    )
}

/// Appends a message of a slice.
fn put_request(
    alloc: Global,
    kind: u8,
    number: u32,
    draws: &mut Draws,
    out: &mut Vec<u8>,
) -> Result<(), AllocError>
    ensures { OnOk result (Appends (slice_round kind number) draws.old.state draws.new.state out.old.items out.new.items) }
{
    let slot = draws.below(2);
    let message = request(alloc, kind, number, draws)?;
    add_item(
        out,
        SLICE_BYTES,
        0,
        slot,
        u64::from(number),
        message.as_slice(),
    )
}

/// Appends the record of a round.
#[tactic(auto, unfolding(crate::specs::Made::drawn_round))]
fn put_round(
    alloc: Global,
    number: u32,
    draws: &mut Draws,
    out: &mut Vec<u8>,
) -> Result<(), AllocError>
    ensures { OnOk result (Appends (drawn_round number) draws.old.state draws.new.state out.old.items out.new.items) }
{
    let kind = draws.below(8);
    if kind < 4 {
        put_packet(alloc, number, draws, out)
    } else {
        put_request(alloc, kind, number, draws, out)
    }
}

/// A recording of a switch and two slices that send messages, one in each of so many rounds, drawn from a
/// seed. It takes its own memory at once, and beside it that of one message.
pub fn made(alloc: Global, seed: u64, count: u32) -> Result<Vec<u8>, AllocError>
    requires { count ≤ 1000000 }
    ensures { IfOk result (λ v. v.items ≡ recording_of seed count) }
{
    let mut out = Vec::with_capacity(alloc, OPENING + ROUND * count as usize)?;
    begin_recording(&mut out)?;
    put_opening(alloc, &mut out)?;
    let mut draws = Draws::new(seed);
    for number in 0..count {
        put_round(alloc, number, &mut draws, &mut out)?;
    }
    Ok(out)
}
