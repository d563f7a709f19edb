//! Who is to be woken. None of it has a clause: nothing is claimed of waking.

use proxy_core::{Desk, Dest};
use std::sync::atomic::{AtomicU64, Ordering};

/// Who sleeps until a desk that threads share has messages for them, and for whom it has: a bit for the switch, and
/// one for each slice behind it. And how much waits for the switch.
#[derive(Drop)]
pub struct Waiting {
    // Who is about to sleep, or does.
    asleep: AtomicU64,
    // Who of these is to be woken.
    due: AtomicU64,
    // How many bytes waited for the switch after the last turn.
    lane: AtomicU64,
    slices: u8,
}

/// The place of the switch's bit, or of that of a slice.
pub fn place_of(dest: Dest) -> usize {
    match dest {
        Dest::Switch => 0,
        Dest::Slice(slot) => usize::from(slot) + 1,
    }
}

/// The bit at a place.
pub fn bit_at(place: usize) -> u64 {
    1u64.wrapping_shl((place % 64) as u32)
}

// The bit of one for whom messages wait at the desk, where it is among these.
fn bit_of(desk: &Desk, among: u64, dest: Dest) -> u64 {
    let bit = bit_at(place_of(dest));
    if among & bit != 0 && desk.waits(dest) {
        bit
    } else {
        0
    }
}

// The bits of those among these for whom messages wait at the desk.
fn bits_of(desk: &Desk, among: u64, slices: u8) -> u64 {
    let mut bits = bit_of(desk, among, Dest::Switch);
    for slot in 0..slices {
        bits |= bit_of(desk, among, Dest::Slice(slot));
    }
    bits
}

impl Waiting {
    /// Nobody sleeps, of the switch and so many slices.
    pub fn new(slices: u8) -> Waiting {
        Waiting {
            asleep: AtomicU64::new(0),
            due: AtomicU64::new(0),
            lane: AtomicU64::new(0),
            slices,
        }
    }

    // Notes who is to be woken after a step. Where the desk was opened or has ended it is everyone who sleeps.
    pub(crate) fn note(&self, desk: &Desk, was_open: bool) {
        let asleep = self.asleep.load(Ordering::SeqCst);
        let among = asleep & !self.due.load(Ordering::SeqCst);
        if among == 0 {
            return;
        }
        let bits = if desk.is_open() == was_open {
            bits_of(desk, among, self.slices)
        } else {
            among
        };
        if bits != 0 {
            self.due.fetch_or(bits, Ordering::SeqCst);
        }
    }

    // Notes how many bytes wait for the switch after a turn.
    pub(crate) fn note_lane(&self, bytes: u64) {
        self.lane.store(bytes, Ordering::SeqCst);
    }

    /// How many bytes waited for the switch after the last turn.
    pub fn lane_bytes(&self) -> u64 {
        self.lane.load(Ordering::SeqCst)
    }

    /// The one at a place is about to sleep, and looks once more by itself.
    pub fn lie_down(&self, place: usize) {
        self.due.fetch_and(!bit_at(place), Ordering::SeqCst);
        self.asleep.fetch_or(bit_at(place), Ordering::SeqCst);
    }

    /// Those who sleep and are to be woken; they sleep no longer.
    pub fn wake_due(&self) -> u64 {
        if self.due.load(Ordering::SeqCst) == 0 {
            return 0;
        }
        let due = self.due.swap(0, Ordering::SeqCst);
        self.asleep.fetch_and(!due, Ordering::SeqCst);
        due
    }

    /// The one at a place, and those who sleep and are to be woken; they sleep no longer.
    pub fn wake_with(&self, place: usize) -> u64 {
        self.due.fetch_or(bit_at(place), Ordering::SeqCst);
        self.wake_due()
    }

    /// All who sleep; they sleep no longer.
    pub fn wake_all(&self) -> u64 {
        if self.asleep.load(Ordering::SeqCst) == 0 {
            return 0;
        }
        self.due.store(0, Ordering::SeqCst);
        self.asleep.swap(0, Ordering::SeqCst)
    }
}
