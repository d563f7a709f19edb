//! A gate that holds messages back until something came.

use crate::notes::{Mark, Notes};
use fv_live::Host;
use live_session::{Gate, Side};
use std::alloc::{AllocError, Global};
use std::net::{Net, TcpListener, TcpStream};
use std::sync::Arc;
use std::thread;
use std::time::Duration;

/// How often a message that is held is looked at again.
const TURNS: u32 = 1_000;

/// How long each time, in milliseconds.
const PAUSE: u64 = 50;

/// The message at this place of the side's stream is held until all of these came, and then nothing for a while.
pub type Hold = (Side, u64, &'static [Mark]);

/// Holds the messages of a list, and lets all others pass.
#[derive(Drop)]
pub struct Holding {
    notes: Arc<Notes, Global>,
    holds: &'static [Hold],
    may_wait: bool,
}

impl Clone for Holding {
    fn clone(&self) -> Result<Holding, AllocError> {
        Holding::new(&self.notes, self.holds, self.may_wait)
    }
}

impl Holding {
    /// A gate for these messages. Where it says that it may not wait, as that of the program does, it may hold none
    /// but the first of what comes at once.
    pub fn new(
        notes: &Arc<Notes, Global>,
        holds: &'static [Hold],
        may_wait: bool,
    ) -> Result<Holding, AllocError> {
        Ok(Holding {
            notes: Arc::try_clone(notes)?,
            holds,
            may_wait,
        })
    }

    fn hold<R: Host>(&self, rt: &R, until: &[Mark]) {
        let mut seen = 0;
        for _ in 0..TURNS {
            let come = self.notes.count(rt);
            if come == seen && self.notes.has_all(rt, until) {
                return;
            }
            seen = come;
            thread::sleep(rt, Duration::from_millis(PAUSE));
        }
        self.notes.note(rt, Mark::HeldTooLong);
    }
}

impl Gate for Holding {
    fn pass<R: Host + Net<Listener = TcpListener, Stream = TcpStream>>(
        &self,
        rt: &R,
        side: Side,
        count: u64,
    ) {
        self.notes.note(rt, Mark::AtGate(side, count));
        for (held, place, until) in self.holds {
            if *held == side && *place == count {
                self.hold(rt, until);
            }
        }
    }

    fn may_wait(&self) -> bool {
        self.may_wait
    }
}
