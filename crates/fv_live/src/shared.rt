//! Sinks that hold a runtime, for what runs on threads. They may wait, and show nothing of what was put.

ghost use Rattle.std.specs.Prelude.{None};

use fv_base::{Failed, Sink, one_more};
use std::alloc::{AllocError, Global};
use std::sync::{Arc, Condvar, Mutex, Wait};

/// Bytes that one thread puts and others may see.
#[derive(Drop)]
pub struct SharedBytes {
    bytes: Mutex<Vec<u8>>,
}

impl SharedBytes {
    /// No bytes.
    pub fn new(alloc: Global) -> SharedBytes {
        SharedBytes {
            bytes: Mutex::new(Vec::new(alloc)),
        }
    }

    /// What was put so far.
    pub fn so_far<R: Wait>(&self, rt: &R, alloc: Global) -> Result<Vec<u8>, AllocError> {
        let bytes = self.bytes.lock(rt);
        Vec::from_slice(alloc, bytes.as_slice())
    }
}

/// A sink that takes all bytes of a put, where other threads may see them. It fails when memory runs out.
#[derive(Drop)]
pub struct SharedSink<R: Wait + Drop> {
    rt: R,
    shared: Arc<SharedBytes, Global>,
    faults: u64,
}

impl<R: Wait + Drop> SharedSink<R> {
    /// A sink that puts there.
    pub fn new(rt: R, shared: Arc<SharedBytes, Global>) -> SharedSink<R> {
        SharedSink {
            rt,
            shared,
            faults: 0,
        }
    }
}

impl<R: Wait + Drop> Sink for SharedSink<R> {
    ghost contents = { λ sink. None };

    ghost faults = { λ sink. sink.faults };

    fn put(&mut self, bytes: &[u8]) -> Result<usize, Failed> {
        let mut shared = self.shared.bytes.lock(&self.rt);
        if shared.extend_from_slice(bytes).is_ok() {
            return Ok(bytes.len());
        }
        drop(shared);
        self.faults = one_more(self.faults);
        Err(Failed)
    }
}

/// A flag that is raised once.
#[derive(Drop)]
pub struct Flag {
    raised: Mutex<bool>,
    changed: Condvar,
}

impl Flag {
    /// Not raised yet.
    pub fn new() -> Flag {
        Flag {
            raised: Mutex::new(false),
            changed: Condvar::new(),
        }
    }

    /// Raises the flag.
    pub fn raise<R: Wait>(&self, rt: &R) {
        let mut raised = self.raised.lock(rt);
        *raised = true;
        drop(raised);
        self.changed.notify_all();
    }

    /// Waits until the flag was raised.
    pub fn wait<R: Wait>(&self, rt: &R) {
        let raised = self
            .changed
            .wait_while(rt, self.raised.lock(rt), |raised| !*raised);
        drop(raised);
    }
}

/// A sink whose puts return only after a flag was raised. They are then those of another sink.
#[derive(Drop)]
pub struct HeldSink<R: Wait + Drop, K: Sink> {
    rt: R,
    flag: Arc<Flag, Global>,
    sink: K,
}

impl<R: Wait + Drop, K: Sink> HeldSink<R, K> {
    /// The sink, held until the flag is raised.
    pub fn new(rt: R, flag: Arc<Flag, Global>, sink: K) -> HeldSink<R, K> {
        HeldSink { rt, flag, sink }
    }
}

impl<R: Wait + Drop, K: Sink> Sink for HeldSink<R, K> {
    ghost contents = { λ held. None };

    ghost faults = { λ held. K.faults held.sink };

    fn put(&mut self, bytes: &[u8]) -> Result<usize, Failed> {
        self.flag.wait(&self.rt);
        self.sink.put(bytes)
    }
}
