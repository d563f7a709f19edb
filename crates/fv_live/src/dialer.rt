//! What connects to controllers.

ghost use Rattle.std.specs.Prelude.{◌≡◌, ◌≤◌, ℕ, List, Option, Some, false, IsTrue, IsFalse, IfSome, OnOk, OnErr};
ghost use Rattle.std.specs.Str.{bytes_eq};
ghost use Rattle.fv_base.specs.Counts.{count_at, is_declared};
ghost use Rattle.fv_base.specs.Told.{Rose};
ghost use Rattle.fv_live.specs.Calls.{count_after};
ghost use Rattle.fv_live.specs.Dialers.{IsFresh, IsOneDialMore, fails_dial, given_after};
ghost use Rattle.fv_live.specs.Live.{count_more};

use super::links::{Link, Links};
use super::{Host, Source};
use fv_base::{Counts, Failed, Sink};
use std::alloc::Global;
use std::net::{Net, TcpListener, TcpStream};
use std::sync::{Arc, Wait};

/// What connects to controllers. A connection that it gives is a link.
pub trait Dialer: Drop {
    /// The half of a link that gives what the controller sends.
    type In: Source;

    /// The half of a link that takes what the controller is sent.
    type Out: Sink;

    /// How many links it gave, where it is shown.
    ghost links: { Self → Option ℕ };

    /// How often a call for an address has failed.
    ghost faults: { Self → List ℕ → ℕ };

    /// Gives both halves of a new link to the address. `attempt` is how many dials in a row failed before
    /// this one; one over a network waits that many seconds first, 10 at most.
    fn dial<R: Host + Net<Listener = TcpListener, Stream = TcpStream>>(
        &mut self,
        rt: &R,
        to: &str,
        attempt: u32,
    ) -> Result<(Self::In, Self::Out), Failed>
        ensures given { OnOk result (links self.new ≡ count_more (links self.old) 1) }
        ensures refused { OnErr result (links self.new ≡ links self.old) }
        ensures cause { OnErr result (Rose (faults self.old to.now) (faults self.new to.now)) }
        ensures calm { OnOk result ((at : List ℕ) → faults self.new at ≡ faults self.old at) }
        ensures count { (at : List ℕ) → faults self.old at ≤ faults self.new at };
}

/// A dialler that gives links of a list that it shares with others. It fails where the list says so, where it
/// has no link to the address left, and after 2^64 - 1 links. Each address for which a dial failed has a count
/// of its own; where memory for that is wanted, it shares one with the addresses that weren't dialled.
#[derive(Drop)]
pub struct MemoryDialer<S: Source, K: Sink> {
    links: Option<Arc<Links<S, K>, Global>>,
    calls: u64,
    given: u64,
    counts: Counts,
}

impl<S: Source, K: Sink> MemoryDialer<S, K> {
    /// A dialler with counts of its own. With no list each dial fails.
    pub fn new(alloc: Global, links: Option<Arc<Links<S, K>, Global>>) -> MemoryDialer<S, K>
        ensures fresh { IsFresh result }
        ensures list { result.links ≡ links }
    {
        MemoryDialer {
            links,
            calls: 0,
            given: 0,
            counts: Counts::new(alloc),
        }
    }

    /// How many dials of the address failed.
    pub fn faults(&self, to: &str) -> u64
        ensures { result ≡ count_at self.now.counts to.now }
    {
        self.counts.of(to)
    }

    // The link that the next dial gives.
    fn next<R: Wait>(&mut self, rt: &R, to: &str) -> Option<Link<S, K>>
        ensures given { self.new.given ≡ given_after self.old.given result }
        ensures listed { IfSome result (λ link. fails_dial self.old ≡ false) }
        ensures made { IsOneDialMore self.old self.new }
        ensures same { self.new.counts ≡ self.old.counts }
    {
        let call = self.calls;
        self.calls = self.calls.saturating_add(1);
        let links = self.links.as_ref()?;
        if links.failing.contains(&call) || self.given == u64::MAX {
            return None;
        }
        let link = links.take(rt, to)?;
        self.given += 1;
        Some(link)
    }
}

impl<S: Source, K: Sink> Dialer for MemoryDialer<S, K> {
    type In = S;

    type Out = K;

    ghost links = { λ dialer. Some dialer.given };

    ghost faults = { λ dialer. count_at dialer.counts };

    fn dial<R: Host + Net<Listener = TcpListener, Stream = TcpStream>>(
        &mut self,
        rt: &R,
        to: &str,
        _attempt: u32,
    ) -> Result<(S, K), Failed>
        ensures given { OnOk result (Some self.new.given ≡ count_more (Some self.old.given) 1) }
        ensures refused { OnErr result (Some self.new.given ≡ Some self.old.given) }
        ensures cause { OnErr result (Rose (count_at self.old.counts to.now) (count_at self.new.counts to.now)) }
        ensures calm { OnOk result ((at : List ℕ) → count_at self.new.counts at ≡ count_at self.old.counts at) }
        ensures count { (at : List ℕ) → count_at self.old.counts at ≤ count_at self.new.counts at }
        ensures listed { OnOk result (fails_dial self.old ≡ false) }
        ensures made { IsOneDialMore self.old self.new }
        ensures counted { OnErr result ((at : List ℕ) → count_at self.new.counts at ≡ count_after self.old.counts self.new.counts to.now at) }
        ensures own { (at : List ℕ) → IsFalse (bytes_eq to.now at) → IsTrue (is_declared self.new.counts to.now) → count_at self.new.counts at ≡ count_at self.old.counts at }
    {
        let next = self.next(rt, to);
        let Some(link) = next else {
            let _declared = self.counts.declare(to);
            self.counts.raise(to);
            return Err(Failed);
        };
        Ok((link.source, link.sink))
    }
}
