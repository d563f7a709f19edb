use expectations::expect_eq;
use fv_base::{Failed, MemorySink};
use fv_live::{Dialer, Link, Links, MemoryDialer, MemorySource, MemoryWires, Source, Wires};
use std::alloc::{AllocError, Global};
use std::collections::VecDeque;
use std::sync::Arc;
use std::test::Fail;

type Halves = (MemorySource, MemorySink);

// Halves of which one gives this byte.
fn halves(alloc: Global, byte: u8) -> Result<Halves, AllocError> {
    let source = MemorySource::new(vec![in alloc; byte]?, usize::MAX, Vec::new(alloc));
    Ok((source, MemorySink::new(alloc)))
}

// A link to the address whose source gives this byte.
fn link(
    alloc: Global,
    address: &str,
    byte: u8,
) -> Result<Link<MemorySource, MemorySink>, AllocError> {
    let address = String::from_str(alloc, address)?;
    let (source, sink) = halves(alloc, byte)?;
    Ok(Link {
        address,
        source,
        sink,
    })
}

// The byte that the halves give, where there are any.
fn byte_of(given: Result<Halves, Failed>) -> Option<u8> {
    let (mut source, _sink) = given.ok()?;
    let mut into = [0];
    let _count = source.take(&mut into);
    Some(into[0])
}

#[test]
fn connections_are_accepted_in_their_order(rt: HostRuntime) -> Result<(), Fail> {
    let alloc = rt.alloc();
    let mut connections = VecDeque::new(alloc);
    connections.push_back(halves(alloc, 1)?)?;
    connections.push_back(halves(alloc, 2)?)?;
    let links = Arc::new(alloc, Links::new(Vec::new(alloc), Vec::new(alloc)))?;
    let failing = vec![in alloc; 0, 3]?;
    let mut wires = MemoryWires::new(alloc, connections, failing, links);
    expect_eq!(wires.listen(&rt, "there"), Err(Failed));
    assert!(rt; wires.listen(&rt, "here").is_ok());
    expect_eq!(byte_of(wires.accept(&rt)), Some(1));
    expect_eq!(byte_of(wires.accept(&rt)), None);
    expect_eq!(byte_of(wires.accept(&rt)), Some(2));
    expect_eq!(byte_of(wires.accept(&rt)), None);
    expect_eq!(wires.faults("there"), 1);
    expect_eq!(wires.faults("here"), 2);
    expect_eq!(wires.faults("elsewhere"), 0);
    Ok(())
}

#[test]
fn each_link_is_given_once(rt: HostRuntime) -> Result<(), Fail> {
    let alloc = rt.alloc();
    let mut waiting = Vec::new(alloc);
    waiting.push(link(alloc, "alice", 1)?)?;
    waiting.push(link(alloc, "bob", 11)?)?;
    waiting.push(link(alloc, "alice", 2)?)?;
    let links = Arc::new(alloc, Links::new(waiting, Vec::new(alloc)))?;
    let wires = MemoryWires::new(alloc, VecDeque::new(alloc), Vec::new(alloc), links);
    let mut first = wires.dialer();
    let mut second = wires.dialer();
    expect_eq!(byte_of(first.dial(&rt, "alice", 0)), Some(1));
    expect_eq!(byte_of(second.dial(&rt, "alice", 0)), Some(2));
    expect_eq!(byte_of(first.dial(&rt, "alice", 0)), None);
    expect_eq!(byte_of(second.dial(&rt, "bob", 0)), Some(11));
    expect_eq!(first.faults("alice"), 1);
    expect_eq!(first.faults("bob"), 0);
    expect_eq!(second.faults("alice"), 0);
    Ok(())
}

#[test]
fn dials_fail_where_the_list_says_so(rt: HostRuntime) -> Result<(), Fail> {
    let alloc = rt.alloc();
    let mut waiting = Vec::new(alloc);
    waiting.push(link(alloc, "alice", 1)?)?;
    let links = Arc::new(alloc, Links::new(waiting, vec![in alloc; 0, 1]?))?;
    let mut dialer = MemoryDialer::new(alloc, Some(links));
    expect_eq!(byte_of(dialer.dial(&rt, "alice", 0)), None);
    expect_eq!(byte_of(dialer.dial(&rt, "bob", 1)), None);
    expect_eq!(byte_of(dialer.dial(&rt, "alice", 2)), Some(1));
    expect_eq!(dialer.faults("alice"), 1);
    expect_eq!(dialer.faults("bob"), 1);
    Ok(())
}
