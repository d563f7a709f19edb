ghost use Rattle.std.specs.Prelude.{◌≡◌, None, IfOk};

use crate::gate::{Order, TO_ALICE, TO_BOB};
use expectations::{expect, expect_eq};
use fv_base::{MemoryFiles, MemorySink};
use fv_live::{Links, MemorySource, MemoryWires, SharedSink, Work};
use live_samples::{
    ALICE, BOB, ClosureSpawner, LANE, POLICY, SWITCH, Sent, Still, all_hold, link, nothing, source,
    words,
};
use live_serve::SessionWork;
use serve_samples::{Call, status};
use std::alloc::{AllocError, Global};
use std::collections::VecDeque;
use std::sync::{Arc, Wait};
use std::test::Fail;
use std::thread;
use wire_samples::bytes;

// Wires to switches that are sent these, and to controllers that are.
fn wires<R: Wait + Copy>(
    rt: R,
    alloc: Global,
    switches: &[Sent],
    alice: &[Sent],
    bob: &[Sent],
) -> Result<MemoryWires<MemorySource, SharedSink<R>>, AllocError>
    ensures { IfOk result (λ wires. wires.place ≡ None) }
{
    let mut connections = VecDeque::new(alloc);
    for sent in switches {
        let sink = SharedSink::new(rt, Arc::try_clone(sent)?);
        connections.push_back((source(alloc, &SWITCH)?, sink))?;
    }
    let mut links = Vec::new(alloc);
    for sent in alice {
        links.push(link(rt, alloc, ALICE, &ASKED_BY_ALICE, sent)?)?;
    }
    for sent in bob {
        links.push(link(rt, alloc, BOB, &ASKED_BY_BOB, sent)?)?;
    }
    let links = Arc::new(alloc, Links::new(links, Vec::new(alloc)))?;
    Ok(MemoryWires::new(alloc, connections, Vec::new(alloc), links))
}

// What controllers ask.
const ASKED_BY_ALICE: [&str; 3] = ["0102000800000001", "0102000800000002", "0102000800000003"];

const ASKED_BY_BOB: [&str; 2] = ["010200080000000b", "010200080000000c"];

#[test]
fn two_switches_are_served_beside_each_other(rt: HostRuntime) -> Result<(), Fail> {
    let alloc = rt.alloc();
    let switches = nothing(alloc, 2)?;
    let alice = nothing(alloc, 2)?;
    let bob = nothing(alloc, 2)?;
    let lane = bytes(alloc, &LANE)?;
    let mut files = MemoryFiles::new(alloc);
    files.add("policy", POLICY.as_bytes())?;
    let mut call = Call {
        words: words(alloc, &["serve", "policy", "here", "2"])?,
        files,
        wires: wires(rt, alloc, &switches, &alice, &bob)?,
        gate: Order::new(alloc, lane, &switches, &alice, &bob)?,
        err: MemorySink::new(alloc),
    };
    let mut spawner = ClosureSpawner::new(
        alloc,
        Vec::new(alloc),
        |work: SessionWork<_, Still, Order>| { thread::spawn(&rt, move || work.run(&rt)).ok() },
    );
    let status = status(&rt, alloc, &mut call, &mut spawner);
    expect_eq!(status, 0);
    expect!(call.err.as_slice().is_empty());
    expect_eq!(call.gate.held_too_long(), 0);
    expect!(all_hold(&rt, alloc, &switches, &bytes(alloc, &LANE)?));
    expect!(all_hold(&rt, alloc, &alice, &TO_ALICE[0]));
    expect!(all_hold(&rt, alloc, &alice, &TO_ALICE[1]));
    expect!(all_hold(&rt, alloc, &bob, &TO_BOB));
    Ok(())
}
