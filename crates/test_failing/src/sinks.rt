//! A sink of which others see what it takes, and that fails or stands still.

ghost use Rattle.std.specs.Prelude.{◌≡◌, ◌≤◌, ◌<◌, None, length, IfOk};

use crate::notes::{Mark, Notes};
use fv_base::{Failed, Sink, one_more};
use fv_live::{FailingCalls, HeldSink, Link, MemorySource, SharedSink};
use live_samples::devices::Device;
use live_samples::{ALICE, BOB, Sent};
use live_session::Side;
use std::alloc::{AllocError, Global};
use std::sync::{Arc, Wait};

/// Takes some bytes, and then stands still in the next put until a flag is raised. Some of its puts fail.
#[derive(Drop)]
pub struct Watched<R: Wait + Copy> {
    rt: R,
    notes: Arc<Notes, Global>,
    side: Side,
    free: usize,
    waited_for: usize,
    taken: usize,
    failing: FailingCalls,
    open: SharedSink<R>,
    held: HeldSink<R, SharedSink<R>>,
    faults: u64,
}

impl<R: Wait + Copy> Watched<R> {
    /// The sink of a device, whose bytes are seen there.
    pub fn new(
        rt: R,
        alloc: Global,
        notes: &Arc<Notes, Global>,
        side: Side,
        device: &Device,
        sent: &Sent,
    ) -> Result<Watched<R>, AllocError> {
        let held = SharedSink::new(rt, Arc::try_clone(sent)?);
        Ok(Watched {
            rt,
            notes: Arc::try_clone(notes)?,
            side,
            free: device.free,
            waited_for: device.waited_for,
            taken: 0,
            failing: FailingCalls::new(Vec::from_slice(alloc, device.puts)?),
            open: SharedSink::new(rt, Arc::try_clone(sent)?),
            held: HeldSink::new(rt, notes.flag()?, held),
            faults: 0,
        })
    }

    fn put_on(&mut self, bytes: &[u8]) -> Result<usize, Failed>
        requires { 0 < length bytes.now }
        ensures some { IfOk result (λ n. 1 ≤ n) }
        ensures within { IfOk result (λ n. n ≤ length bytes.now) }
        ensures same { self.new.faults ≡ self.old.faults }
    {
        if self.failing.next() {
            return Err(Failed);
        }
        if self.taken < self.free {
            return self.open.put(bytes);
        }
        self.notes.note(&self.rt, Mark::Standing(self.side));
        self.held.put(bytes)
    }
}

impl<R: Wait + Copy> Sink for Watched<R> {
    ghost contents = { λ watched. None };

    ghost faults = { λ watched. watched.faults };

    fn put(&mut self, bytes: &[u8]) -> Result<usize, Failed> {
        let Ok(taken) = self.put_on(bytes) else {
            self.faults = one_more(self.faults);
            return Err(Failed);
        };
        self.taken = self.taken.saturating_add(taken);
        if self.taken >= self.waited_for {
            self.notes.note(&self.rt, Mark::Sent(self.side));
        }
        Ok(taken)
    }
}

/// What is dialled for the controller of the slice at this slot.
pub fn address(slot: u8) -> &'static str {
    if slot == 0 { ALICE } else { BOB }
}

/// The link to the controller of the slice at this slot.
pub fn link<R: Wait + Copy>(
    rt: R,
    alloc: Global,
    notes: &Arc<Notes, Global>,
    slot: u8,
    device: &Device,
    sent: &Sent,
) -> Result<Link<MemorySource, Watched<R>>, AllocError> {
    Ok(Link {
        address: String::from_str(alloc, address(slot))?,
        source: device.source(alloc)?,
        sink: Watched::new(rt, alloc, notes, Side::Slice(slot), device, sent)?,
    })
}
