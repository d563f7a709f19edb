//! The system's clock. Nothing is said of what it will answer.

ghost use Rattle.std.specs.Prelude.{None};

use fv_live::Clock;
use std::alloc::AllocError;
use std::rt;
use std::time::{SystemTime, UNIX_EPOCH};

/// The time since 1970 in milliseconds. Where the system's clock can't be read it is the timestamp that was
/// answered last, or 0.
#[derive(Drop)]
pub struct SystemClock<R: rt::Clock + Copy> {
    rt: R,
    last: u64,
}

impl<R: rt::Clock + Copy> SystemClock<R> {
    /// The clock of this runtime.
    pub fn new(rt: R) -> SystemClock<R> {
        SystemClock { rt, last: 0 }
    }

    fn read(&self) -> Option<u64> {
        let time = SystemTime::now(&self.rt).ok()?;
        let since = time.duration_since(UNIX_EPOCH).ok()?;
        u64::try_from(since.as_millis()).ok()
    }
}

impl<R: rt::Clock + Copy> Clone for SystemClock<R> {
    fn clone(&self) -> Result<SystemClock<R>, AllocError> {
        Ok(SystemClock {
            rt: self.rt,
            last: self.last,
        })
    }
}

impl<R: rt::Clock + Copy> Clock for SystemClock<R> {
    ghost coming = { λ clock. None };

    fn now(&mut self) -> u64 {
        if let Some(moment) = self.read() {
            self.last = moment;
        }
        self.last
    }
}
