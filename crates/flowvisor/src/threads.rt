//! Threads of the system. Nothing is said of which were started.

ghost use Rattle.std.specs.Prelude.{◌≡◌, ◌≤◌, ◌<◌, None, OnOk, OnErr, vec_len, vec_capacity};
ghost use Rattle.fv_base.specs.Told.{Rose};

use fv_base::{Failed, one_more};
use fv_live::{Host, Spawner, Work};
use std::alloc::{AllocError, Global};
use std::net::{Net, TcpListener, TcpStream};
use std::sync::Arc;
use std::sync::atomic::{AtomicBool, Ordering};
use std::thread::{JoinHandle, Threads};

/// Whether a thread has done its work.
#[derive(Drop)]
pub struct Done(AtomicBool);

impl Done {
    /// Says that the work is done.
    pub fn say(&self) {
        self.0.store(true, Ordering::SeqCst);
    }

    fn is_said(&self) -> bool {
        self.0.load(Ordering::SeqCst)
    }
}

#[derive(Drop)]
struct Thread {
    handle: JoinHandle<()>,
    done: Arc<Done, Global>,
}

/// Starts threads by a closure. It gives the thread that runs a work and then says that the work is done, or
/// drops the work and gives none.
#[derive(Drop)]
pub struct ThreadSpawner<F: Drop> {
    alloc: Global,
    by: F,
    threads: Vec<Thread>,
    faults: u64,
}

impl<F: Drop> ThreadSpawner<F> {
    /// No thread was started yet.
    pub fn new(alloc: Global, by: F) -> ThreadSpawner<F>
        ensures { result.by ≡ by }
    {
        ThreadSpawner {
            alloc,
            by,
            threads: Vec::new(alloc),
            faults: 0,
        }
    }
}

impl<F: Drop> ThreadSpawner<F> {
    // Joins the threads that have done their work.
    fn join_done<R: Threads>(&mut self, rt: &R)
        ensures closure { self.new.by ≡ self.old.by }
        ensures count { self.new.faults ≡ self.old.faults }
    {
        let mut at = 0;
        while at < self.threads.len() {
            if self.threads[at].done.is_said() {
                self.threads.swap_remove(at).handle.join(rt);
            } else {
                at += 1;
            }
        }
    }

    // Makes room for one thread more, and both ends of what it will say. So that a proxy that runs for long
    // doesn't keep each thread that it ever started, those that have done their work are joined first.
    fn make_ready<R: Threads>(
        &mut self,
        rt: &R,
    ) -> Result<(Arc<Done, Global>, Arc<Done, Global>), AllocError>
        ensures room { OnOk result (vec_len self.new.threads < vec_capacity self.new.threads) }
        ensures closure { self.new.by ≡ self.old.by }
        ensures count { self.new.faults ≡ self.old.faults }
    {
        if self.threads.len() == self.threads.capacity() {
            self.join_done(rt);
        }
        self.threads.reserve(1)?;
        let done = Arc::new(self.alloc, Done(AtomicBool::new(false)))?;
        let theirs = Arc::try_clone(&done)?;
        Ok((done, theirs))
    }
}

impl<W: Work, F: FnMut(W, Arc<Done, Global>) -> Option<JoinHandle<()>> + Drop> Spawner<W>
    for ThreadSpawner<F> {
    ghost roles = { λ spawner. None };

    ghost faults = { λ spawner. spawner.faults };

    ghost can_start = { λ spawner. F.IsAlwaysCallable spawner.by };

    fn start<R: Host + Net<Listener = TcpListener, Stream = TcpStream>>(
        &mut self,
        rt: &R,
        work: W,
    ) -> Result<(), Failed>
        requires { F.IsAlwaysCallable self.old.by }
        ensures ready { F.IsAlwaysCallable self.new.by }
        ensures cause { OnErr result (Rose self.old.faults self.new.faults) }
        ensures calm { OnOk result (self.new.faults ≡ self.old.faults) }
        ensures count { self.old.faults ≤ self.new.faults }
    {
        if let Ok((done, theirs)) = self.make_ready(rt) {
            if let Some(handle) = (self.by)(work, theirs) {
                self.threads.push_reserved(Thread { handle, done });
                return Ok(());
            }
        }
        self.faults = one_more(self.faults);
        Err(Failed)
    }

    fn finish<R: Host + Net<Listener = TcpListener, Stream = TcpStream>>(&mut self, rt: &R)
        requires { F.IsAlwaysCallable self.old.by }
        ensures ready { F.IsAlwaysCallable self.new.by }
        ensures calm { self.new.faults ≡ self.old.faults }
    {
        while let Some(thread) = self.threads.pop() {
            thread.handle.join(rt);
        }
    }
}
