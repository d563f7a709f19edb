//! What runs beside the others, on a thread of its own.

ghost use Rattle.std.specs.Prelude.{◌≡◌, ◌≤◌, ◌<◌, ◌+◌, ◌∷◌, [], ℕ, List, Option, Some, false, map, vec_len, vec_capacity, IsTrue, OnOk, OnErr};
ghost use Rattle.fv_base.specs.Counts.{one_more};
ghost use Rattle.fv_base.specs.Told.{Rose};
ghost use Rattle.fv_live.specs.Calls.{NoCallYet, fails_next, one_call_more};
ghost use Rattle.fv_live.specs.Roles.{Role, started};

use super::Host;
use super::calls::FailingCalls;
use fv_base::{Failed, one_more};
use std::alloc::{AllocError, Global};
use std::net::{Net, TcpListener, TcpStream};
use std::snapshot::Snapshot;
use std::thread::JoinHandle;

/// The body of one thread.
pub trait Work: Drop {
    /// Whom it serves, whether it reads or writes, and what it dials.
    ghost role: { Self → Role };

    /// Does the work, to its end.
    fn run<R: Host + Net<Listener = TcpListener, Stream = TcpStream>>(self, rt: &R);
}

/// What starts threads.
pub trait Spawner<W: Work>: Drop {
    /// The roles of the threads started, in the order of their starts, where they are shown.
    ghost roles: { Self → Option (List Role) };

    /// How often a call has failed.
    ghost faults: { Self → ℕ };

    /// It may be asked to start threads.
    ghost can_start: { Self → Type 0 };

    /// Starts a thread that runs the work. After `Failed` the work was dropped and never ran.
    fn start<R: Host + Net<Listener = TcpListener, Stream = TcpStream>>(
        &mut self,
        rt: &R,
        work: W,
    ) -> Result<(), Failed>
        requires { can_start self.old }
        ensures ready { can_start self.new }
        ensures started { OnOk result (roles self.new ≡ started (roles self.old) (W.role work ∷ [])) }
        ensures refused { OnErr result (roles self.new ≡ roles self.old) }
        ensures cause { OnErr result (Rose (faults self.old) (faults self.new)) }
        ensures calm { OnOk result (faults self.new ≡ faults self.old) }
        ensures count { faults self.old ≤ faults self.new };

    /// Waits until all threads that were started have ended.
    fn finish<R: Host + Net<Listener = TcpListener, Stream = TcpStream>>(&mut self, rt: &R)
        requires { can_start self.old }
        ensures ready { can_start self.new }
        ensures same { roles self.new ≡ roles self.old }
        ensures calm { faults self.new ≡ faults self.old };
}

/// A spawner that shows the roles of the threads that it started. It starts a thread by a closure that gives
/// the thread which runs a work, or drops the work and gives none. A start fails where the list says so,
/// where the closure gives no thread, and when memory runs out.
#[derive(Drop)]
pub struct MemorySpawner<W: Work, F: FnMut(W) -> Option<JoinHandle<()>> + Drop> {
    by: F,
    failing: FailingCalls,
    started: Vec<Snapshot<W>>,
    threads: Vec<JoinHandle<()>>,
    faults: u64,
}

impl<W: Work, F: FnMut(W) -> Option<JoinHandle<()>> + Drop> MemorySpawner<W, F> {
    /// A spawner by this closure. The starts whose numbers, from 0, are in `failing` fail.
    pub fn new(alloc: Global, failing: Vec<u64>, by: F) -> MemorySpawner<W, F>
        ensures none { result.started.items ≡ [] }
        ensures count { result.faults ≡ 0 }
        ensures failing { NoCallYet result.failing failing.items }
        ensures closure { result.by ≡ by }
        ensures idle { vec_len result.threads ≡ 0 }
    {
        MemorySpawner {
            by,
            failing: FailingCalls::new(failing),
            started: Vec::new(alloc),
            threads: Vec::new(alloc),
            faults: 0,
        }
    }

    /// How many starts failed.
    pub fn faults(&self) -> u64
        ensures { result ≡ self.now.faults }
    {
        self.faults
    }

    // Makes room for one start more.
    fn make_room(&mut self) -> Result<(), AllocError>
        ensures threads { OnOk result (vec_len self.new.threads < vec_capacity self.new.threads) }
        ensures room { OnOk result (vec_len self.new.started < vec_capacity self.new.started) }
        ensures started { self.new.started.items ≡ self.old.started.items }
        ensures closure { self.new.by ≡ self.old.by }
        ensures failing { self.new.failing ≡ self.old.failing }
        ensures count { self.new.faults ≡ self.old.faults }
        ensures running { vec_len self.new.threads ≡ vec_len self.old.threads }
    {
        self.started.reserve(1)?;
        self.threads.reserve(1)
    }
}

impl<W: Work, F: FnMut(W) -> Option<JoinHandle<()>> + Drop> Spawner<W> for MemorySpawner<W, F> {
    ghost roles = { λ spawner. Some (map (λ work. W.role work.value) spawner.started.items) };

    ghost faults = { λ spawner. spawner.faults };

    ghost can_start = { λ spawner. F.IsAlwaysCallable spawner.by };

    fn start<R: Host + Net<Listener = TcpListener, Stream = TcpStream>>(
        &mut self,
        _rt: &R,
        work: W,
    ) -> Result<(), Failed>
        requires { F.IsAlwaysCallable self.old.by }
        ensures ready { F.IsAlwaysCallable self.new.by }
        ensures started { OnOk result (Some (map (λ work. W.role work.value) self.new.started.items) ≡ started (Some (map (λ work. W.role work.value) self.old.started.items)) (W.role work ∷ [])) }
        ensures refused { OnErr result (Some (map (λ work. W.role work.value) self.new.started.items) ≡ Some (map (λ work. W.role work.value) self.old.started.items)) }
        ensures cause { OnErr result (Rose self.old.faults self.new.faults) }
        ensures calm { OnOk result (self.new.faults ≡ self.old.faults) }
        ensures count { self.old.faults ≤ self.new.faults }
        ensures listed { OnOk result (fails_next self.old.failing ≡ false) }
        ensures unasked { IsTrue (fails_next self.old.failing) → self.new.by ≡ self.old.by }
        ensures counted { OnErr result (self.new.faults ≡ one_more self.old.faults) }
        ensures made { self.new.failing ≡ one_call_more self.old.failing }
        ensures running { OnOk result (vec_len self.new.threads ≡ vec_len self.old.threads + 1) }
        ensures idle { OnErr result (vec_len self.new.threads ≡ vec_len self.old.threads) }
    {
        let fails = self.failing.next();
        if fails || self.make_room().is_err() {
            self.faults = one_more(self.faults);
            return Err(Failed);
        }
        let started = Snapshot::of(&work);
        let Some(thread) = (self.by)(work) else {
            self.faults = one_more(self.faults);
            return Err(Failed);
        };
        self.started.push_reserved(started);
        self.threads.push_reserved(thread);
        Ok(())
    }

    fn finish<R: Host + Net<Listener = TcpListener, Stream = TcpStream>>(&mut self, rt: &R)
        requires { F.IsAlwaysCallable self.old.by }
        ensures ready { F.IsAlwaysCallable self.new.by }
        ensures same { Some (map (λ work. W.role work.value) self.new.started.items) ≡ Some (map (λ work. W.role work.value) self.old.started.items) }
        ensures calm { self.new.faults ≡ self.old.faults }
        ensures ended { vec_len self.new.threads ≡ 0 }
        ensures closure { self.new.by ≡ self.old.by }
        ensures failing { self.new.failing ≡ self.old.failing }
    {
        while let Some(thread) = self.threads.pop() {
            thread.join(rt);
        }
    }
}
