//! A gate that holds messages back until others were answered.

use fv_live::Host;
use live_samples::{HELLO, Sent, all_hold, shares};
use live_serve::{Gate, Side};
use std::alloc::{AllocError, Global};
use std::net::{Net, TcpListener, TcpStream};
use std::sync::atomic::{AtomicU64, Ordering};
use std::sync::{Arc, Wait};
use std::thread;
use std::time::Duration;

/// How often a message that is held is looked at again.
const TURNS: u32 = 10_000;

/// The answers to the questions of alice and bob.
pub const TO_ALICE: [[u8; 8]; 2] = [[1, 3, 0, 8, 0, 0, 0, 1], [1, 3, 0, 8, 0, 0, 0, 2]];

pub const TO_BOB: [u8; 8] = [1, 3, 0, 8, 0, 0, 0, 11];

/// Holds the first message of each controller until both switches were prepared and all controllers greeted, the
/// second ones of alice until bob was answered on both his links, and the last of each stream until all were.
#[derive(Drop)]
pub struct Order {
    alloc: Global,
    lane: Arc<Vec<u8>, Global>,
    switches: Vec<Sent>,
    alice: Vec<Sent>,
    bob: Vec<Sent>,
    held_too_long: Arc<AtomicU64, Global>,
}

impl Clone for Order {
    fn clone(&self) -> Result<Order, AllocError> {
        Ok(Order {
            alloc: self.alloc,
            lane: Arc::try_clone(&self.lane)?,
            switches: shares(self.alloc, &self.switches)?,
            alice: shares(self.alloc, &self.alice)?,
            bob: shares(self.alloc, &self.bob)?,
            held_too_long: Arc::try_clone(&self.held_too_long)?,
        })
    }
}

impl Order {
    /// A gate over what these are sent.
    pub fn new(
        alloc: Global,
        lane: Vec<u8>,
        switches: &[Sent],
        alice: &[Sent],
        bob: &[Sent],
    ) -> Result<Order, AllocError> {
        Ok(Order {
            alloc,
            lane: Arc::new(alloc, lane)?,
            switches: shares(alloc, switches)?,
            alice: shares(alloc, alice)?,
            bob: shares(alloc, bob)?,
            held_too_long: Arc::new(alloc, AtomicU64::new(0))?,
        })
    }

    /// How many messages were held for all turns.
    pub fn held_too_long(&self) -> u64 {
        self.held_too_long.load(Ordering::SeqCst)
    }

    fn are_prepared<R: Wait>(&self, rt: &R) -> bool {
        all_hold(rt, self.alloc, &self.switches, &self.lane)
            && all_hold(rt, self.alloc, &self.alice, HELLO)
            && all_hold(rt, self.alloc, &self.bob, HELLO)
    }

    fn is_bob_answered<R: Wait>(&self, rt: &R) -> bool {
        all_hold(rt, self.alloc, &self.bob, &TO_BOB)
    }

    fn are_all_answered<R: Wait>(&self, rt: &R) -> bool {
        self.is_bob_answered(rt) && all_hold(rt, self.alloc, &self.alice, &TO_ALICE[1])
    }

    // Whether the message at this place of a stream may pass now.
    fn lets<R: Wait>(&self, rt: &R, side: Side, count: u64) -> bool {
        match (side, count) {
            (Side::Switch, 0) => true,
            (Side::Slice(_), 0) => self.are_prepared(rt),
            (Side::Slice(0), 1) => self.is_bob_answered(rt),
            _ => self.are_all_answered(rt),
        }
    }
}

impl Gate for Order {
    fn pass<R: Host + Net<Listener = TcpListener, Stream = TcpStream>>(
        &self,
        rt: &R,
        side: Side,
        count: u64,
    ) {
        for _ in 0..TURNS {
            if self.lets(rt, side, count) {
                return;
            }
            thread::sleep(rt, Duration::from_millis(1));
        }
        self.held_too_long.fetch_add(1, Ordering::SeqCst);
    }
}
