use expectations::{expect, expect_eq};
use fv_base::{Failed, MemorySink, Sink};
use fv_live::{
    Clock, Flag, HeldSink, MemoryClock, MemorySource, NeverSource, SharedBytes, SharedSink, Source,
};
use std::sync::Arc;
use std::test::Fail;
use std::thread;

#[test]
fn source_gives_its_bytes_in_pieces_and_then_its_end(rt: HostRuntime) -> Result<(), Fail> {
    let alloc = rt.alloc();
    let bytes = Vec::from_slice(alloc, b"abcde")?;
    let mut source = MemorySource::new(bytes, 3, vec![in alloc; 1]?);
    let mut into = [0; 4];
    expect_eq!(source.take(&mut into), Ok(3));
    expect_eq!(into, *b"abc\0");
    expect_eq!(source.take(&mut into), Err(Failed));
    expect_eq!(source.faults(), 1);
    expect_eq!(source.take(&mut into), Ok(2));
    expect_eq!(into, *b"dec\0");
    expect_eq!(source.take(&mut into), Ok(0));
    expect_eq!(NeverSource.take(&mut into), Ok(0));
    Ok(())
}

#[test]
fn clock_stays_at_its_last_moment(rt: HostRuntime) -> Result<(), Fail> {
    let mut clock = MemoryClock::new(vec![in rt.alloc(); 7, 5]?);
    expect_eq!(clock.now(), 7);
    expect_eq!(clock.now(), 5);
    expect_eq!(clock.now(), 5);
    Ok(())
}

#[test]
fn shared_bytes_are_seen_by_others(rt: HostRuntime) -> Result<(), Fail> {
    let alloc = rt.alloc();
    let shared = Arc::new(alloc, SharedBytes::new(alloc))?;
    let mut sink = SharedSink::new(&rt, shared.clone()?);
    expect_eq!(sink.put(b"abc"), Ok(3));
    expect_eq!(shared.so_far(&rt, alloc)?.as_slice(), b"abc".as_slice());
    Ok(())
}

#[test]
fn held_sink_puts_once_its_flag_is_raised(rt: HostRuntime) -> Result<(), Fail> {
    let alloc = rt.alloc();
    let shared = Arc::new(alloc, SharedBytes::new(alloc))?;
    let flag = Arc::new(alloc, Flag::new())?;
    let sink = SharedSink::new(&rt, shared.clone()?);
    let mut held = HeldSink::new(&rt, flag.clone()?, sink);
    let (put, before) = thread::join(
        &rt,
        || held.put(b"abc"),
        || {
            let before = shared.so_far(&rt, alloc);
            flag.raise(&rt);
            before
        },
    );
    expect_eq!(put, Ok(3));
    expect!(before?.is_empty());
    expect_eq!(shared.so_far(&rt, alloc)?.as_slice(), b"abc".as_slice());
    Ok(())
}
