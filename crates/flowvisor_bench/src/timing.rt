//! A desk whose steps are timed.

use crate::costly_messages::features;
use crate::policies::{crowded, load};
use proxy_core::{Desk, Dest, Event, Taken, Timed};
use std::alloc::{AllocError, Global};
use std::io;
use std::rt::Clock;
use std::time::Instant;

/// The slots of the policy's slices are below this.
pub const SLOTS: u8 = 32;

/// An event brings fewer messages than these to one connection.
const MOST_MESSAGES: u64 = 1_024;

/// How many messages an event brought.
#[derive(Clone, Copy)]
pub struct Brought {
    pub to_switch: u64,
    pub to_slices: u64,
}

impl Brought {
    pub const NOTHING: Brought = Brought {
        to_switch: 0,
        to_slices: 0,
    };
}

/// The desk of a switch with as many ports as one can report, under a policy with a crowded slice.
#[derive(Drop)]
pub struct TimedDesk {
    /// Where messages and the desk take memory.
    pub alloc: Global,
    desk: Desk,
    /// Each event comes a millisecond after the one before.
    moment: u64,
    /// The transaction id of the message that the switch was sent last.
    xid: u32,
    /// How long the longest step took.
    micros: u128,
}

/// A desk at which nothing has happened. The crowded slice may name the ports of entry of its rules.
fn new_desk(alloc: Global, are_named: bool) -> Result<Desk, AllocError> {
    let policy = load(alloc, &crowded(alloc, are_named)?)?;
    Ok(Desk::new(alloc, policy))
}

impl TimedDesk {
    /// A desk at which nothing has happened.
    pub fn new(alloc: Global, are_named: bool) -> Result<TimedDesk, AllocError> {
        Ok(TimedDesk {
            alloc,
            desk: new_desk(alloc, are_named)?,
            moment: 0,
            xid: 0,
            micros: 0,
        })
    }

    /// A step, which is timed; what it brings is taken.
    pub fn step<R: Clock>(&mut self, rt: &R, event: Event) -> io::Result<Brought> {
        let moment = self.moment;
        self.moment = moment.saturating_add(1);
        let start = Instant::now(rt)?;
        self.desk.step(self.alloc, Timed { event, moment })?;
        let micros = start.elapsed(rt)?.as_micros();
        self.micros = self.micros.max(micros);
        Ok(self.take_all())
    }

    /// The switch connects and says what it is.
    pub fn open<R: Clock>(&mut self, rt: &R) -> io::Result<Brought> {
        self.step(rt, Event::SwitchUp)?;
        self.step(rt, Event::SwitchMsg(features(self.alloc)?))
    }

    /// All slices connect.
    pub fn come<R: Clock>(&mut self, rt: &R) -> io::Result<()> {
        for slot in 0..SLOTS {
            self.step(rt, Event::SliceUp(slot))?;
        }
        Ok(())
    }

    /// The desk is a new one, at which nothing has happened.
    pub fn renew(&mut self) -> Result<(), AllocError> {
        self.desk = new_desk(self.alloc, false)?;
        Ok(())
    }

    /// Forgets how long steps took.
    pub fn forget(&mut self) {
        self.micros = 0;
    }

    /// How many microseconds the longest step took.
    pub fn longest(&self) -> u128 {
        self.micros
    }

    /// The transaction id of the message that the switch was sent last.
    pub fn last_xid(&self) -> u32 {
        self.xid
    }

    /// Takes what waits for a connection, and counts it.
    fn take(&mut self, dest: Dest) -> u64 {
        for count in 0..MOST_MESSAGES {
            match self.desk.take(dest) {
                Taken::Message(message) => self.xid = message.head().xid,
                _ => return count,
            }
        }
        MOST_MESSAGES
    }

    /// Takes all that waits: what waits for the switch last.
    fn take_all(&mut self) -> Brought {
        let mut to_slices = 0u64;
        for slot in 0..SLOTS {
            to_slices = to_slices.saturating_add(self.take(Dest::Slice(slot)));
        }
        Brought {
            to_switch: self.take(Dest::Switch),
            to_slices,
        }
    }
}
