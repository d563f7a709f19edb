//! Connections that compare what they are sent with what they are to be sent. Their types have no parameter, so that the
//! goals of a whole call of `serve` stay small.

ghost use Rattle.std.specs.Prelude.{None};

use fv_base::{Failed, Sink, one_more};
use fv_live::{Link, MemorySource, Source};
use live_samples::devices::Device;
use std::alloc::{AllocError, Global};
use std::sync::Arc;
use std::sync::atomic::{AtomicBool, AtomicU64, Ordering};
use std::thread;
use std::time::Duration;

/// How often something that is waited for is looked at, a millisecond each time.
pub const TURNS: u32 = 10_000;

/// How many bytes a device was sent, whether others than those that it is to be sent, whether it stands
/// still, and whether it may go on. Also whether the half of its connection that takes was dropped, and
/// whether one of these was waited for in vain.
#[derive(Drop)]
pub struct Heard {
    count: AtomicU64,
    is_other: AtomicBool,
    is_standing: AtomicBool,
    is_let_go: AtomicBool,
    is_dropped: AtomicBool,
    is_late: AtomicBool,
}

impl Heard {
    /// It was sent nothing yet.
    pub fn new(alloc: Global) -> Result<Arc<Heard, Global>, AllocError> {
        let heard = Heard {
            count: AtomicU64::new(0),
            is_other: AtomicBool::new(false),
            is_standing: AtomicBool::new(false),
            is_let_go: AtomicBool::new(false),
            is_dropped: AtomicBool::new(false),
            is_late: AtomicBool::new(false),
        };
        Ok(Arc::new(alloc, heard)?)
    }

    /// Whether it was sent so many bytes, all of them right, and nothing was waited for in vain.
    pub fn has(&self, count: u64) -> bool {
        self.count.load(Ordering::SeqCst) == count
            && !self.is_other.load(Ordering::SeqCst)
            && !self.is_late.load(Ordering::SeqCst)
    }

    /// Whether it has begun to stand still.
    pub fn is_standing(&self) -> bool {
        self.is_standing.load(Ordering::SeqCst)
    }

    /// It may go on.
    pub fn let_go(&self) {
        self.is_let_go.store(true, Ordering::SeqCst);
    }

    /// Whether the half of its connection that takes was dropped.
    pub fn is_dropped(&self) -> bool {
        self.is_dropped.load(Ordering::SeqCst)
    }
}

// Sleeps until this is so, or for all turns, which is noted.
fn wait_for(rt: &HostRuntime, is_so: &AtomicBool, is_late: &AtomicBool) {
    for _ in 0..TURNS {
        if is_so.load(Ordering::SeqCst) {
            return;
        }
        thread::sleep(rt, Duration::from_millis(1));
    }
    is_late.store(true, Ordering::SeqCst);
}

/// What a device says. Its end comes, as that of a socket, where the half of the connection that takes was dropped, if
/// it doesn't end before.
#[derive(Drop)]
pub struct Line {
    rt: HostRuntime,
    said: MemorySource,
    ends_with: Option<Arc<Heard, Global>>,
    faults: u64,
}

impl Line {
    /// What this device says, and then the end.
    pub fn new(rt: HostRuntime, alloc: Global, device: &Device) -> Result<Line, AllocError> {
        Ok(Line {
            rt,
            said: device.source(alloc)?,
            ends_with: None,
            faults: 0,
        })
    }

    /// The same, but that the end comes once the half of this connection that takes was dropped.
    pub fn ends_with(self, heard: &Arc<Heard, Global>) -> Result<Line, AllocError> {
        let Line {
            rt,
            said,
            ends_with: _,
            faults,
        } = self;
        Ok(Line {
            rt,
            said,
            ends_with: Some(Arc::try_clone(heard)?),
            faults,
        })
    }
}

impl Source for Line {
    ghost left = { λ line. None };

    ghost faults = { λ line. line.faults };

    fn take(&mut self, into: &mut [u8]) -> Result<usize, Failed> {
        let Ok(count) = self.said.take(into) else {
            self.faults = one_more(self.faults);
            return Err(Failed);
        };
        if count == 0 {
            if let Some(heard) = &self.ends_with {
                wait_for(&self.rt, &heard.is_dropped, &heard.is_late);
            }
        }
        Ok(count)
    }
}

/// Takes all that a device is sent, and stands still behind its first bytes until it is let go.
pub struct Port {
    rt: HostRuntime,
    wanted: Vec<u8>,
    taken: usize,
    free: usize,
    heard: Arc<Heard, Global>,
}

impl Drop for Port {
    fn drop(self) {
        let Port {
            rt: _,
            wanted: _,
            taken: _,
            free: _,
            heard,
        } = self;
        heard.is_dropped.store(true, Ordering::SeqCst);
    }
}

impl Port {
    /// A port of this device.
    pub fn new(
        rt: HostRuntime,
        alloc: Global,
        device: &Device,
        heard: &Arc<Heard, Global>,
    ) -> Result<Port, AllocError> {
        Ok(Port {
            rt,
            wanted: device.sent.bytes(alloc)?,
            taken: 0,
            free: device.free,
            heard: Arc::try_clone(heard)?,
        })
    }
}

impl Sink for Port {
    ghost contents = { λ port. None };

    ghost faults = { λ port. 0 };

    fn put(&mut self, bytes: &[u8]) -> Result<usize, Failed> {
        if self.taken >= self.free {
            self.heard.is_standing.store(true, Ordering::SeqCst);
            wait_for(&self.rt, &self.heard.is_let_go, &self.heard.is_late);
        }
        let end = self.taken.saturating_add(bytes.len());
        let is_right = self
            .wanted
            .get(self.taken..end)
            .is_some_and(|wanted| wanted == bytes);
        if !is_right {
            self.heard.is_other.store(true, Ordering::SeqCst);
        }
        self.taken = end;
        self.heard.count.store(end as u64, Ordering::SeqCst);
        Ok(bytes.len())
    }
}

/// A link to the address, at which this device is.
pub fn link(
    rt: HostRuntime,
    alloc: Global,
    address: &str,
    device: &Device,
    heard: &Arc<Heard, Global>,
) -> Result<Link<Line, Port>, AllocError> {
    Ok(Link {
        address: String::from_str(alloc, address)?,
        source: Line::new(rt, alloc, device)?,
        sink: Port::new(rt, alloc, device, heard)?,
    })
}
