//! Packets under many rules, beside the same packets under two.

use crate::policies::{load, narrow, wide};
use crate::reporting::{Keeping, recording_of, write_report};
use recording::accept;
use std::alloc::Global;
use std::io;
use std::rt::Clock;
use std::time::Instant;

/// Each is measured so often, one after the other; the shortest time counts.
const ROUNDS: u8 = 5;

/// How many microseconds the report of so many packets takes under the policy of the text.
fn micros<R: Clock>(rt: &R, alloc: Global, text: &str, count: u64) -> io::Result<u128> {
    let policy = load(alloc, text)?;
    let recording = recording_of(alloc, Keeping::Nothing, count)?;
    let Ok(()) = accept(&recording, policy.slice_count()) else {
        return Ok(0);
    };
    let start = Instant::now(rt)?;
    write_report(alloc, &policy, &recording)?;
    Ok(start.elapsed(rt)?.as_micros())
}

/// Prints how long so many packets take under 2 rules and under 2,048, and how fast they are under these as a
/// hundredth of how fast they are under those.
pub fn measure_flat<R: Clock + Print>(rt: &R, alloc: Global, count: u64) -> io::Result<()> {
    let few = narrow(alloc)?;
    let many = wide(alloc)?;
    let mut under_few = u128::MAX;
    let mut under_many = u128::MAX;
    for _ in 0..ROUNDS {
        under_few = under_few.min(micros(rt, alloc, &few, count)?);
        under_many = under_many.min(micros(rt, alloc, &many, count)?);
    }
    let percent = under_few.saturating_mul(100) / under_many.max(1);
    println!(rt;
        "flat: {under_few} us under 2 rules, {under_many} us under 2,048 rules: {percent} percent"
    )
}
