//! Waiting for what other threads do. None of it has a clause: nothing is claimed of waking.

use crate::side::Side;
use crossbeam_utils::CachePadded;
use live_desk::{Dest, Waiting, bit_at, place_of};
use std::alloc::{AllocError, Global};
use std::sync::atomic::{AtomicBool, Ordering};
use std::sync::{Arc, Condvar, Mutex, MutexGuard, Wait};
use std::thread;

// What came to one destination: how often its bell was rung, how many ups were answered, and how many writers
// began.
#[derive(Drop)]
struct BellCounts {
    rings: u64,
    ups: u64,
    writers: u64,
}

#[derive(Drop)]
struct Bell {
    counts: Mutex<BellCounts>,
    changed: Condvar,
}

impl Bell {
    fn new() -> Bell {
        Bell {
            counts: Mutex::new(BellCounts {
                rings: 0,
                ups: 0,
                writers: 0,
            }),
            changed: Condvar::new(),
        }
    }

    fn ring<R: Wait>(&self, rt: &R) {
        let mut counts = self.counts.lock(rt);
        counts.rings = counts.rings.wrapping_add(1);
        drop(counts);
        self.changed.notify_all();
    }

    // How often it was rung.
    fn rung<R: Wait>(&self, rt: &R) -> u64 {
        let counts = self.counts.lock(rt);
        counts.rings
    }

    // Sleeps until it was rung more often than `seen`.
    fn sleep<R: Wait>(&self, rt: &R, seen: u64) {
        let counts = self
            .changed
            .wait_while(rt, self.counts.lock(rt), |counts| counts.rings == seen);
        drop(counts);
    }
}

/// A bell for each destination of a desk, by which those who wait for its messages are woken.
#[derive(Drop)]
pub struct Bells {
    // Whoever asks the desk holds this one. So one ticket is drawn at a time, and the others sleep.
    hold: CachePadded<Mutex<()>>,
    // Whether the switch's reader has ended.
    ended: AtomicBool,
    // Who is about to sleep, and of these for whom the desk notes that messages wait.
    waiting: Arc<Waiting, Global>,
    each: Vec<CachePadded<Bell>>,
    // Rung when fewer bytes wait for the switch, where someone waits for that.
    room: CachePadded<Bell>,
    room_is_wanted: AtomicBool,
}

/// How many bytes may wait for the switch before slices' readers wait. A slice's message brings at most 262,144 more,
/// which the lane has room for.
const LANE_SHARE: u64 = 524_288;

fn bell_of_side(side: Side) -> usize {
    match side {
        Side::Switch => place_of(Dest::Switch),
        Side::Slice(slot) => place_of(Dest::Slice(slot)),
    }
}

impl Bells {
    /// Bells for the switch and so many slices.
    pub fn new(alloc: Global, slices: u8) -> Result<Bells, AllocError> {
        let count = usize::from(slices) + 1;
        let mut each = Vec::with_capacity(alloc, count)?;
        for _ in 0..count {
            each.push(CachePadded::new(Bell::new()))?;
        }
        Ok(Bells {
            hold: CachePadded::new(Mutex::new(())),
            ended: AtomicBool::new(false),
            waiting: Arc::new(alloc, Waiting::new(slices))?,
            each,
            room: CachePadded::new(Bell::new()),
            room_is_wanted: AtomicBool::new(false),
        })
    }

    /// What the desk of these bells is to note for whom messages wait.
    pub fn waiting(&self) -> Result<Arc<Waiting, Global>, AllocError> {
        Arc::try_clone(&self.waiting)
    }

    // The desk is asked by nobody else who takes the hold before.
    pub(crate) fn hold<R: Wait>(&self, rt: &R) -> MutexGuard<'_, ()> {
        self.hold.lock(rt)
    }

    // A side's connection came or ended. The switch's may be the first that all wait for, or their end; a slice's is
    // so for the slice alone, and others are woken where messages wait for them.
    pub(crate) fn ring_for<R: Wait>(&self, rt: &R, side: Side) {
        let bits = match side {
            Side::Switch => self.waiting.wake_all(),
            Side::Slice(_) => self.waiting.wake_with(bell_of_side(side)),
        };
        self.ring_each(rt, bits);
        if side == Side::Switch || !self.is_lane_full() {
            self.ring_room(rt);
        }
    }

    // Whether so much waits for the switch that slices' messages are to wait.
    pub(crate) fn is_lane_full(&self) -> bool {
        self.waiting.lane_bytes() > LANE_SHARE
    }

    // Sleeps while the lane is full. Who rang may go on before.
    pub(crate) fn wait_for_room<R: Wait>(&self, rt: &R) {
        let seen = self.room.rung(rt);
        self.room_is_wanted.store(true, Ordering::SeqCst);
        if self.is_lane_full() {
            self.room.sleep(rt, seen);
        }
    }

    // Messages were taken for a destination. Where that made room, those who wait for it are woken.
    pub(crate) fn took<R: Wait>(&self, rt: &R, at: usize) {
        if at == place_of(Dest::Switch) && !self.is_lane_full() {
            self.ring_room(rt);
        }
    }

    fn ring_room<R: Wait>(&self, rt: &R) {
        if self.room_is_wanted.load(Ordering::SeqCst)
            && self.room_is_wanted.swap(false, Ordering::SeqCst)
        {
            self.room.ring(rt);
        }
    }

    // Wakes those who sleep and for whom messages wait.
    pub(crate) fn ring<R: Wait>(&self, rt: &R) {
        self.ring_each(rt, self.waiting.wake_due());
    }

    // Rings the bells of these bits.
    fn ring_each<R: Wait>(&self, rt: &R, bits: u64) {
        if bits == 0 {
            return;
        }
        for (place, bell) in self.each.iter().enumerate() {
            if bits & bit_at(place) != 0 {
                bell.ring(rt);
            }
        }
    }

    // How often the bell was rung.
    pub(crate) fn rings<R: Wait>(&self, rt: &R, at: usize) -> u64 {
        match self.each.get(at) {
            Some(bell) => bell.rung(rt),
            None => 0,
        }
    }

    // The next ring is for this bell, too. Who then finds nothing may sleep: what comes later rings.
    pub(crate) fn lie_down(&self, at: usize) {
        self.waiting.lie_down(at);
    }

    // Sleeps until the bell was rung more often than `seen`. Who rang may go on before.
    pub(crate) fn sleep<R: Wait>(&self, rt: &R, at: usize, seen: u64) {
        let Some(bell) = self.each.get(at) else {
            return;
        };
        bell.sleep(rt, seen);
        thread::yield_now();
    }

    // The reader of the side has ended. With the switch's the session has.
    pub(crate) fn end(&self, side: Side) {
        if side == Side::Switch {
            self.ended.store(true, Ordering::SeqCst);
        }
    }

    pub(crate) fn has_ended(&self) -> bool {
        self.ended.load(Ordering::SeqCst)
    }

    // An up of the side was answered, or will never be asked.
    pub(crate) fn came<R: Wait>(&self, rt: &R, side: Side) {
        let Some(bell) = self.each.get(bell_of_side(side)) else {
            return;
        };
        let mut counts = bell.counts.lock(rt);
        counts.ups = counts.ups.wrapping_add(1);
        drop(counts);
        bell.changed.notify_all();
    }

    // The next writer begins. It waits for the up of its own connection, so that it takes nothing of an
    // earlier one.
    pub(crate) fn begin_writer<R: Wait>(&self, rt: &R, at: usize) {
        let Some(bell) = self.each.get(at) else {
            return;
        };
        let mut counts = bell.counts.lock(rt);
        counts.writers = counts.writers.wrapping_add(1);
        let writer = counts.writers;
        let counts = bell
            .changed
            .wait_while(rt, counts, |counts| counts.ups < writer);
        drop(counts);
    }
}
