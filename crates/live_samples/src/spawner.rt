//! What starts threads by a closure. Nothing is said of which it started.

ghost use Rattle.std.specs.Prelude.{◌≡◌, ◌≤◌, ◌<◌, None, OnOk, OnErr, vec_len, vec_capacity};
ghost use Rattle.fv_base.specs.Told.{Rose};

use fv_base::{Failed, one_more};
use fv_live::{Host, Spawner, Work};
use std::alloc::{AllocError, Global};
use std::mem;
use std::net::{Net, TcpListener, TcpStream};
use std::thread::JoinHandle;

/// Starts threads by a closure, which gives the thread that runs a work, or drops the work and gives none.
#[derive(Drop)]
pub struct ClosureSpawner<F: Drop> {
    alloc: Global,
    by: F,
    failing: Vec<u64>,
    calls: u64,
    threads: Vec<JoinHandle<()>>,
    faults: u64,
}

impl<F: Drop> ClosureSpawner<F> {
    /// A spawner by this closure. The starts whose numbers, from 0, are in `failing` fail.
    pub fn new(alloc: Global, failing: Vec<u64>, by: F) -> ClosureSpawner<F>
        ensures { result.by ≡ by }
    {
        ClosureSpawner {
            alloc,
            by,
            failing,
            calls: 0,
            threads: Vec::new(alloc),
            faults: 0,
        }
    }

    // Whether this start is to fail.
    fn fails_next(&mut self) -> bool
        ensures closure { self.new.by ≡ self.old.by }
        ensures count { self.new.faults ≡ self.old.faults }
    {
        let call = self.calls;
        self.calls = call.wrapping_add(1);
        self.failing.contains(&call)
    }

    // Makes room for one thread more.
    fn make_room(&mut self) -> Result<(), AllocError>
        ensures room { OnOk result (vec_len self.new.threads < vec_capacity self.new.threads) }
        ensures closure { self.new.by ≡ self.old.by }
        ensures count { self.new.faults ≡ self.old.faults }
    {
        self.threads.reserve(1)
    }

    // Counts a start that failed.
    fn refuse(&mut self) -> Failed
        ensures closure { self.new.by ≡ self.old.by }
        ensures cause { Rose self.old.faults self.new.faults }
        ensures count { self.old.faults ≤ self.new.faults }
    {
        self.faults = one_more(self.faults);
        Failed
    }
}

impl<W: Work, F: FnMut(W) -> Option<JoinHandle<()>> + Drop> Spawner<W> for ClosureSpawner<F> {
    ghost roles = { λ spawner. None };

    ghost faults = { λ spawner. spawner.faults };

    ghost can_start = { λ spawner. F.IsAlwaysCallable spawner.by };

    fn start<R: Host + Net<Listener = TcpListener, Stream = TcpStream>>(
        &mut self,
        _rt: &R,
        work: W,
    ) -> Result<(), Failed>
        requires { F.IsAlwaysCallable self.old.by }
        ensures ready { F.IsAlwaysCallable self.new.by }
        ensures cause { OnErr result (Rose self.old.faults self.new.faults) }
        ensures calm { OnOk result (self.new.faults ≡ self.old.faults) }
        ensures count { self.old.faults ≤ self.new.faults }
    {
        let fails = self.fails_next();
        if fails || self.make_room().is_err() {
            return Err(self.refuse());
        }
        let Some(thread) = (self.by)(work) else {
            return Err(self.refuse());
        };
        self.threads.push_reserved(thread);
        Ok(())
    }

    fn finish<R: Host + Net<Listener = TcpListener, Stream = TcpStream>>(&mut self, rt: &R)
        requires { F.IsAlwaysCallable self.old.by }
        ensures ready { F.IsAlwaysCallable self.new.by }
        ensures calm { self.new.faults ≡ self.old.faults }
    {
        let threads = mem::replace(&mut self.threads, Vec::new(self.alloc));
        for thread in threads {
            thread.join(rt);
        }
    }
}
