ghost use Rattle.std.specs.Prelude.{◌≡◌, None, IfOk};

use expectations::{expect, expect_eq};
use fv_base::{Failed, MemoryFiles, MemorySink};
use fv_live::{Host, Links, MemorySource, MemoryWires, SharedSink, Wires};
use live_samples::{ClosureSpawner, POLICY, SWITCH, Sent, Still, nothing, source, words};
use live_serve::{Gate, SessionWork, Side};
use serve_samples::{Call, begin, status};
use std::alloc::{AllocError, Global};
use std::collections::VecDeque;
use std::net::{Net, TcpListener, TcpStream};
use std::sync::atomic::{AtomicU64, Ordering};
use std::sync::{Arc, Wait};
use std::test::Fail;
use std::thread;
use std::time::Duration;

/// How many sessions run at once, and how many connections come after one more.
const SESSIONS: usize = 16;

const LATER: usize = 2;

/// How many threads the first sessions have: a reader and a writer for the switch, for alice and for bob.
const WORKS: u64 = 96;

/// How many threads all sessions have: there is none for the one connection too many.
const WORKS_OF_ALL: u64 = 108;

/// How often what is waited for is looked at again.
const TURNS: u32 = 10_000;

// Waits until so many have come, for all turns at most.
fn wait_for<R: Host>(rt: &R, come: &AtomicU64, wanted: u64) {
    for _ in 0..TURNS {
        if come.load(Ordering::SeqCst) >= wanted {
            return;
        }
        thread::sleep(rt, Duration::from_millis(1));
    }
}

/// Holds every message until a connection behind the first ones is asked for.
#[derive(Drop)]
struct Held {
    later: Arc<AtomicU64, Global>,
}

impl Clone for Held {
    fn clone(&self) -> Result<Held, AllocError> {
        Ok(Held {
            later: Arc::try_clone(&self.later)?,
        })
    }
}

impl Gate for Held {
    fn pass<R: Host + Net<Listener = TcpListener, Stream = TcpStream>>(
        &self,
        rt: &R,
        _side: Side,
        _count: u64,
    ) {
        wait_for(rt, &self.later, 1);
    }
}

/// Wires of which each `accept` behind the first ones is counted, and waits until all threads of these have
/// ended.
#[derive(Drop)]
struct Paced<N: Wires> {
    wires: N,
    at_once: usize,
    later: Arc<AtomicU64, Global>,
    ended: Arc<AtomicU64, Global>,
}

impl<N: Wires> Paced<N> {
    fn pause<R: Host>(&mut self, rt: &R)
        ensures { self.new.wires ≡ self.old.wires }
    {
        if self.at_once > 0 {
            self.at_once -= 1;
            return;
        }
        self.later.fetch_add(1, Ordering::SeqCst);
        wait_for(rt, &self.ended, WORKS);
    }
}

impl<N: Wires> Wires for Paced<N> {
    type In = N::In;

    type Out = N::Out;

    type Dial = N::Dial;

    ghost listens = { λ paced. N.listens paced.wires };

    ghost place = { λ paced. N.place paced.wires };

    ghost accepted = { λ paced. N.accepted paced.wires };

    ghost faults = { λ paced. N.faults paced.wires };

    fn listen<R: Host + Net<Listener = TcpListener, Stream = TcpStream>>(
        &mut self,
        rt: &R,
        at: &str,
    ) -> Result<(), Failed> {
        self.wires.listen(rt, at)
    }

    fn accept<R: Host + Net<Listener = TcpListener, Stream = TcpStream>>(
        &mut self,
        rt: &R,
    ) -> Result<(N::In, N::Out), Failed> {
        self.pause(rt);
        self.wires.accept(rt)
    }

    fn dialer(&self) -> N::Dial {
        self.wires.dialer()
    }
}

// Wires to switches that are sent these.
fn wires<R: Wait + Copy>(
    rt: R,
    alloc: Global,
    switches: &[Sent],
) -> Result<MemoryWires<MemorySource, SharedSink<R>>, AllocError>
    ensures { IfOk result (λ wires. wires.place ≡ None) }
{
    let mut connections = VecDeque::new(alloc);
    for sent in switches {
        let sink = SharedSink::new(rt, Arc::try_clone(sent)?);
        connections.push_back((source(alloc, &SWITCH)?, sink))?;
    }
    let links = Arc::new(alloc, Links::new(Vec::new(alloc), Vec::new(alloc)))?;
    Ok(MemoryWires::new(alloc, connections, Vec::new(alloc), links))
}

#[test]
fn one_session_too_many_is_closed_and_later_ones_are_served(rt: HostRuntime) -> Result<(), Fail> {
    let alloc = rt.alloc();
    let switches = nothing(alloc, SESSIONS + 1 + LATER)?;
    let ended = Arc::new(alloc, AtomicU64::new(0))?;
    let gate = Held {
        later: Arc::new(alloc, AtomicU64::new(0))?,
    };
    let mut files = MemoryFiles::new(alloc);
    files.add("policy", POLICY.as_bytes())?;
    let wires = Paced {
        wires: wires(rt, alloc, &switches)?,
        at_once: SESSIONS + 1,
        later: Arc::try_clone(&gate.later)?,
        ended: Arc::try_clone(&ended)?,
    };
    let mut call = Call {
        words: words(alloc, &["serve", "policy", "here", "19"])?,
        files,
        wires,
        gate,
        err: MemorySink::new(alloc),
    };
    let mut spawner = ClosureSpawner::new(
        alloc,
        Vec::new(alloc),
        |work: SessionWork<_, Still, Held>| begin(rt, &ended, work),
    );
    let status = status(&rt, alloc, &mut call, &mut spawner);
    expect_eq!(status, 0);
    expect_eq!(ended.load(Ordering::SeqCst), WORKS_OF_ALL);
    let one_too_many = switches.get(SESSIONS).ok_or("no seventeenth connection")?;
    expect!(one_too_many.so_far(&rt, alloc)?.is_empty());
    Ok(())
}
