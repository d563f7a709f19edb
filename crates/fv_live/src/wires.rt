//! What switches connect to.

ghost use Rattle.std.specs.Prelude.{◌≡◌, ◌≤◌, ◌+◌, ◌-◌, ◌^◌, ◌∷◌, [], ℕ, List, Option, Some, None, Bool, true, false, is_some, IsTrue, IsFalse, IfOk, IfSome, OnOk, OnErr};
ghost use Rattle.std.specs.Arc.{arc_value};
ghost use Rattle.std.specs.Str.{bytes_eq};
ghost use Rattle.std.specs.VecDeque.{deque_len};
ghost use Rattle.fv_base.specs.Counts.{count_at, is_declared};
ghost use Rattle.fv_base.specs.Told.{Rose};
ghost use Rattle.fv_live.specs.Calls.{NoCallYet, count_after, fails_next, one_call_more};
ghost use Rattle.fv_live.specs.Dialers.{IsFresh};
ghost use Rattle.fv_live.specs.Live.{count_more};
ghost use Rattle.fv_live.specs.Wires.{place_bytes};

use super::calls::FailingCalls;
use super::dialer::MemoryDialer;
use super::links::Links;
use super::{Dialer, Host, Source};
use fv_base::{Counts, Failed, Sink};
use std::alloc::{AllocError, Global};
use std::collections::VecDeque;
use std::net::{Net, TcpListener, TcpStream};
use std::sync::Arc;

/// What switches connect to.
pub trait Wires: Drop {
    /// The half of a connection that gives what the switch sends.
    type In: Source;

    /// The half of a connection that takes what the switch is sent.
    type Out: Sink;

    /// What connects to the controllers.
    type Dial: Dialer;

    /// Whether it listens.
    ghost listens: { Self → Bool };

    /// Where it listens.
    ghost place: { Self → List ℕ };

    /// How many connections it accepted, where it is shown.
    ghost accepted: { Self → Option ℕ };

    /// How often a call for a place has failed. An `accept` is for the place at which it listens.
    ghost faults: { Self → List ℕ → ℕ };

    /// Starts to listen at the place. After `Failed` it doesn't listen.
    fn listen<R: Host + Net<Listener = TcpListener, Stream = TcpStream>>(
        &mut self,
        rt: &R,
        at: &str,
    ) -> Result<(), Failed>
        requires { listens self.old ≡ false }
        ensures listens { OnOk result (listens self.new ≡ true) }
        ensures there { OnOk result (place self.new ≡ at.now) }
        ensures refused { OnErr result (listens self.new ≡ false) }
        ensures same { accepted self.new ≡ accepted self.old }
        ensures cause { OnErr result (Rose (faults self.old at.now) (faults self.new at.now)) }
        ensures calm { OnOk result ((at : List ℕ) → faults self.new at ≡ faults self.old at) }
        ensures count { (at : List ℕ) → faults self.old at ≤ faults self.new at };

    /// Gives both halves of the next connection. It listens as before, also after `Failed`.
    fn accept<R: Host + Net<Listener = TcpListener, Stream = TcpStream>>(
        &mut self,
        rt: &R,
    ) -> Result<(Self::In, Self::Out), Failed>
        requires { listens self.old ≡ true }
        ensures listens { listens self.new ≡ true }
        ensures there { place self.new ≡ place self.old }
        ensures given { OnOk result (accepted self.new ≡ count_more (accepted self.old) 1) }
        ensures refused { OnErr result (accepted self.new ≡ accepted self.old) }
        ensures cause { OnErr result (Rose (faults self.old (place self.old)) (faults self.new (place self.old))) }
        ensures calm { OnOk result ((at : List ℕ) → faults self.new at ≡ faults self.old at) }
        ensures count { (at : List ℕ) → faults self.old at ≤ faults self.new at };

    /// Stops listening, where it can. What was accepted goes on.
    fn close(&mut self)
        ensures same { accepted self.new ≡ accepted self.old }
        ensures calm { (at : List ℕ) → faults self.new at ≡ faults self.old at }
    {}

    /// A dialler with counts of its own.
    fn dialer(&self) -> Self::Dial;
}

/// Connections in memory, in the order in which they are accepted. A call fails where the list says so, an
/// `accept` also where no connection is left, and a `listen` when memory runs out. Each place for which
/// `listen` was called has a count of its own; where memory for that is wanted, it shares one with the others.
#[derive(Drop)]
pub struct MemoryWires<S: Source, K: Sink> {
    alloc: Global,
    place: Option<String>,
    connections: VecDeque<(S, K)>,
    accepted: u64,
    failing: FailingCalls,
    counts: Counts,
    links: Arc<Links<S, K>, Global>,
    ghost room: { accepted + deque_len connections ≤ 2 ^ 64 - 1 },
}

impl<S: Source, K: Sink> MemoryWires<S, K> {
    /// These connections, and diallers that give these links. Of the calls of `listen` and `accept` those
    /// whose numbers, from 0, are in `failing` fail.
    pub fn new(
        alloc: Global,
        connections: VecDeque<(S, K)>,
        failing: Vec<u64>,
        links: Arc<Links<S, K>, Global>,
    ) -> MemoryWires<S, K>
        ensures silent { result.place ≡ None }
        ensures accepted { result.accepted ≡ 0 }
        ensures connections { result.connections ≡ connections }
        ensures count { (at : List ℕ) → count_at result.counts at ≡ 0 }
        ensures failing { NoCallYet result.failing failing.items }
        ensures links { result.links ≡ links }
    {
        MemoryWires {
            alloc,
            place: None,
            connections,
            accepted: 0,
            failing: FailingCalls::new(failing),
            counts: Counts::new(alloc),
            links,
        }
    }

    /// How many calls for the place failed.
    pub fn faults(&self, at: &str) -> u64
        ensures { result ≡ count_at self.now.counts at.now }
    {
        self.counts.of(at)
    }

    // The place as a text of its own, with a count of its own.
    fn own_place(&mut self, at: &str) -> Result<String, AllocError>
        ensures text { IfOk result (λ place. place_bytes (Some place) ≡ at.now) }
        ensures declared { OnOk result (is_declared self.new.counts at.now ≡ true) }
        ensures count { (at : List ℕ) → count_at self.new.counts at ≡ count_at self.old.counts at }
        ensures place { self.new.place ≡ self.old.place }
        ensures connections { self.new.connections ≡ self.old.connections }
        ensures accepted { self.new.accepted ≡ self.old.accepted }
        ensures failing { self.new.failing ≡ self.old.failing }
    {
        self.counts.declare(at)?;
        String::from_str(self.alloc, at)
    }
}

impl<S: Source, K: Sink> Wires for MemoryWires<S, K> {
    type In = S;

    type Out = K;

    type Dial = MemoryDialer<S, K>;

    ghost listens = { λ wires. is_some wires.place };

    ghost place = { λ wires. place_bytes wires.place };

    ghost accepted = { λ wires. Some wires.accepted };

    ghost faults = { λ wires. count_at wires.counts };

    fn listen<R: Host + Net<Listener = TcpListener, Stream = TcpStream>>(
        &mut self,
        _rt: &R,
        at: &str,
    ) -> Result<(), Failed>
        requires { is_some self.old.place ≡ false }
        ensures listens { OnOk result (is_some self.new.place ≡ true) }
        ensures there { OnOk result (place_bytes self.new.place ≡ at.now) }
        ensures refused { OnErr result (is_some self.new.place ≡ false) }
        ensures same { Some self.new.accepted ≡ Some self.old.accepted }
        ensures cause { OnErr result (Rose (count_at self.old.counts at.now) (count_at self.new.counts at.now)) }
        ensures calm { OnOk result ((at : List ℕ) → count_at self.new.counts at ≡ count_at self.old.counts at) }
        ensures count { (at : List ℕ) → count_at self.old.counts at ≤ count_at self.new.counts at }
        ensures listed { OnOk result (fails_next self.old.failing ≡ false) }
        ensures made { self.new.failing ≡ one_call_more self.old.failing }
        ensures counted { OnErr result ((other : List ℕ) → count_at self.new.counts other ≡ count_after self.old.counts self.new.counts at.now other) }
        ensures declared { OnOk result (is_declared self.new.counts at.now ≡ true) }
        ensures own { (other : List ℕ) → IsFalse (bytes_eq at.now other) → IsTrue (is_declared self.new.counts at.now) → count_at self.new.counts other ≡ count_at self.old.counts other }
        ensures connections { self.new.connections ≡ self.old.connections }
    {
        let fails = self.failing.next();
        let place = self.own_place(at);
        let Ok(place) = place else {
            self.counts.raise(at);
            return Err(Failed);
        };
        if fails {
            self.counts.raise(at);
            return Err(Failed);
        }
        self.place = Some(place);
        Ok(())
    }

    fn accept<R: Host + Net<Listener = TcpListener, Stream = TcpStream>>(
        &mut self,
        _rt: &R,
    ) -> Result<(S, K), Failed>
        requires { is_some self.old.place ≡ true }
        ensures listens { is_some self.new.place ≡ true }
        ensures there { place_bytes self.new.place ≡ place_bytes self.old.place }
        ensures given { OnOk result (Some self.new.accepted ≡ count_more (Some self.old.accepted) 1) }
        ensures refused { OnErr result (Some self.new.accepted ≡ Some self.old.accepted) }
        ensures cause { OnErr result (Rose (count_at self.old.counts (place_bytes self.old.place)) (count_at self.new.counts (place_bytes self.old.place))) }
        ensures calm { OnOk result ((at : List ℕ) → count_at self.new.counts at ≡ count_at self.old.counts at) }
        ensures count { (at : List ℕ) → count_at self.old.counts at ≤ count_at self.new.counts at }
        ensures next { IfOk result (λ halves. self.old.connections.items ≡ halves ∷ self.new.connections.items) }
        ensures kept { OnErr result (self.new.connections.items ≡ self.old.connections.items) }
        ensures listed { OnOk result (fails_next self.old.failing ≡ false) }
        ensures none { OnErr result (fails_next self.old.failing ≡ false → self.old.connections.items ≡ []) }
        ensures counted { OnErr result ((at : List ℕ) → count_at self.new.counts at ≡ count_after self.old.counts self.new.counts (place_bytes self.old.place) at) }
        ensures made { self.new.failing ≡ one_call_more self.old.failing }
        ensures own { (at : List ℕ) → IsFalse (bytes_eq (place_bytes self.old.place) at) → IsTrue (is_declared self.old.counts (place_bytes self.old.place)) → count_at self.new.counts at ≡ count_at self.old.counts at }
    {
        if !self.failing.next() {
            if let Some(halves) = self.connections.pop_front() {
                self.accepted += 1;
                return Ok(halves);
            }
        }
        let Some(place) = &self.place else {
            unreachable!()
        };
        self.counts.raise(place);
        Err(Failed)
    }

    fn dialer(&self) -> MemoryDialer<S, K>
        ensures fresh { IsFresh result }
        ensures list { IfSome result.links (λ links. arc_value links ≡ arc_value self.now.links) }
    {
        MemoryDialer::new(self.alloc, Arc::try_clone(&self.links).ok())
    }
}
