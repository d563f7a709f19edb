//! Connections are accepted one after another, and sessions of them begun.

ghost use Rattle.std.specs.Prelude.{◌≡◌, ◌≤◌, map, true, IsTrue, OnOk, OnErr, IfErr};
ghost use Rattle.fv_base.specs.Told.{Rose};
ghost use Rattle.fv_live.specs.Roles.{started};
ghost use Rattle.live_serve.specs.declared.group.StartFault.TheVariants.{Start};
ghost use Rattle.live_serve.specs.Roles.{controller_of, group, Partly};
ghost use Rattle.live_serve.specs.Running.{outside, EndsBy, IsRunCause};

use crate::connection::{Connection, SESSIONS, Sessions};
use crate::group::{StartFault, WorkFacts, start_group};
use crate::work::SessionWork;
use flowspace::Policy;
use fv_live::{Clock, Host, Spawner, Wires};
use live_session::Gate;
use std::alloc::Global;
use std::net::{Net, TcpListener, TcpStream};
use std::sync::{Arc, Wait};

/// How a run under a policy ends.
#[derive(Clone, Copy)]
pub(crate) enum RunEnd {
    /// All connections were accepted.
    Done,
    /// Memory ran out.
    NoMemory,
    /// It couldn't listen or accept.
    WireFault,
    /// A thread wasn't started.
    NoThread,
}

/// Whether no other session may run. At least `begun` were begun.
fn is_full<R: Wait>(rt: &R, sessions: &Sessions, begun: u32) -> bool
    ensures { IsTrue result → 16 ≤ begun }
{
    begun >= SESSIONS && sessions.are_full(rt)
}

/// Starts the threads of one connection. Where all were started, a session more runs, and they are given the
/// halves.
fn open<
    R: Host + Net<Listener = TcpListener, Stream = TcpStream>,
    N: Wires,
    C: Clock + Clone,
    G: Gate + Clone,
    P: Spawner<SessionWork<N, C, G>>,
>(
    rt: &R,
    policy: &Policy,
    sessions: &Arc<Sessions, Global>,
    halves: (N::In, N::Out),
    wires: &N,
    facts: &WorkFacts<'_, C, G>,
    spawner: &mut P,
) -> Result<(), StartFault>
    requires can { P.can_start spawner.old }
    ensures can { P.can_start spawner.new }
    ensures started { OnOk result (P.roles spawner.new ≡ started (P.roles spawner.old) (group (map controller_of policy.now.slices))) }
    ensures part { OnErr result (Partly (P.roles spawner.old) (group (map controller_of policy.now.slices)) (P.roles spawner.new)) }
    ensures cause { IfErr result (λ fault. fault ≡ Start → Rose (P.faults spawner.old) (P.faults spawner.new)) }
    ensures count { P.faults spawner.old ≤ P.faults spawner.new }
{
    let Ok(theirs) = Arc::try_clone(sessions) else {
        return Err(StartFault::Memory);
    };
    let Ok((connection, mut seat)) = Connection::<N>::new(facts.alloc, policy, theirs) else {
        return Err(StartFault::Memory);
    };
    let slices = policy.slices();
    if let Err(fault) = start_group(rt, &connection, &mut seat, wires, slices, facts, spawner) {
        connection.cancel(rt);
        return Err(fault);
    }
    sessions.begin(rt);
    let (source, sink) = halves;
    connection.begin(rt, source, sink);
    Ok(())
}

/// Accepts so many connections, and starts a session for each. Closes a connection at once where 16 sessions
/// run, or threads of 48 connections.
pub(crate) fn accept_all<
    R: Host + Net<Listener = TcpListener, Stream = TcpStream>,
    N: Wires,
    C: Clock + Clone,
    G: Gate + Clone,
    P: Spawner<SessionWork<N, C, G>>,
>(
    rt: &R,
    policy: &Policy,
    count: u32,
    wires: &mut N,
    facts: &WorkFacts<'_, C, G>,
    spawner: &mut P,
) -> RunEnd
    requires listens { N.listens wires.old ≡ true }
    requires can { P.can_start spawner.old }
    ensures can { P.can_start spawner.new }
    ensures cause { IsRunCause (map controller_of policy.now.slices) count (outside (N.accepted wires.old) (P.roles spawner.old) (N.faults wires.old (N.place wires.old)) (P.faults spawner.old)) (outside (N.accepted wires.new) (P.roles spawner.new) (N.faults wires.new (N.place wires.old)) (P.faults spawner.new)) result }
{
    let Ok(sessions) = Arc::new(facts.alloc, Sessions::new()) else {
        return RunEnd::NoMemory;
    };
    let mut accepted = 0;
    let mut begun = 0;
    while accepted < count {
        let Ok(halves) = wires.accept(rt) else {
            return RunEnd::WireFault;
        };
        accepted += 1;
        if is_full(rt, &sessions, begun) {
            drop(halves);
            continue;
        }
        if let Err(fault) = open(rt, policy, &sessions, halves, wires, facts, spawner) {
            return run_end(fault);
        }
        begun += 1;
    }
    RunEnd::Done
}

/// How a run ends by a fault in starting a connection's threads.
fn run_end(fault: StartFault) -> RunEnd
    ensures { EndsBy fault result }
{
    match fault {
        StartFault::Start => RunEnd::NoThread,
        StartFault::Memory => RunEnd::NoMemory,
    }
}
