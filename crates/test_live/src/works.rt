use crate::notes::Note;
use expectations::{expect, expect_eq};
use fv_base::Failed;
use fv_live::{MemorySpawner, SharedBytes, Spawner, Work};
use std::sync::Arc;
use std::test::Fail;
use std::thread;
use std::thread::JoinHandle;

#[test]
fn works_run_on_threads_but_where_a_start_fails(rt: HostRuntime) -> Result<(), Fail> {
    let alloc = rt.alloc();
    let bytes = Arc::new(alloc, SharedBytes::new(alloc))?;
    let failing = vec![in alloc; 1]?;
    let mut spawner = MemorySpawner::new(alloc, failing, |work: Note| {
        thread::spawn(&rt, move || work.run(&rt)).ok()
    });
    for byte in 1..=3 {
        let note = Note {
            bytes: bytes.clone()?,
            byte,
        };
        let started = spawner.start(&rt, note);
        expect_eq!(started.is_err(), byte == 2);
    }
    spawner.finish(&rt);
    expect_eq!(spawner.faults(), 1);
    let mut seen = bytes.so_far(&rt, alloc)?;
    seen.sort()?;
    expect_eq!(seen.as_slice(), [1, 3].as_slice());
    Ok(())
}

#[test]
fn start_that_is_refused_fails(rt: HostRuntime) -> Result<(), Fail> {
    let alloc = rt.alloc();
    let bytes = Arc::new(alloc, SharedBytes::new(alloc))?;
    let mut spawner = MemorySpawner::new(
        alloc,
        Vec::new(alloc),
        |_work: Note| None::<JoinHandle<()>>,
    );
    let note = Note {
        bytes: bytes.clone()?,
        byte: 1,
    };
    expect_eq!(spawner.start(&rt, note), Err(Failed));
    spawner.finish(&rt);
    expect_eq!(spawner.faults(), 1);
    expect!(bytes.so_far(&rt, alloc)?.is_empty());
    Ok(())
}
