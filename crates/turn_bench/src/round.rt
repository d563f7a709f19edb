//! A round: threads begin together, and ask until the time is up.

use crate::asker::{Asker, mutex_askers, turn_askers};
use crossbeam_utils::CachePadded;
use std::alloc::{AllocError, Global};
use std::io;
use std::rt::Clock;
use std::sync::atomic::{AtomicBool, Ordering};
use std::sync::{Arc, Barrier, Mutex, Wait};
use std::thread::{self, JoinHandle, Threads};
use std::time::{Duration, Instant};

/// The signals for threads to begin and to end.
#[derive(Drop)]
struct Signals {
    begin: Barrier,
    is_over: CachePadded<AtomicBool>,
}

/// How many turns there were, and in which time.
#[derive(Clone, Copy, Debug)]
pub struct Round {
    pub turns: u64,
    pub micros: u128,
}

/// The rounds of so many threads by the turn lock alone, with a mutex held around each turn, and under a mutex
/// alone.
#[derive(Clone, Copy, Debug)]
pub struct Rounds {
    pub alone: Round,
    pub held: Round,
    pub mutex: Round,
}

// Asks until the round is over, at least once, and counts.
fn ask_on<A: Asker, R: Wait>(rt: &R, asker: A, signals: &Signals) -> u64 {
    let mut asker = asker;
    let mut turns = 0u64;
    signals.begin.wait(rt);
    for _ in rt.forever() {
        asker.ask(rt);
        turns = turns.saturating_add(1);
        if signals.is_over.load(Ordering::SeqCst) {
            return turns;
        }
    }
    unreachable!()
}

// Starts a thread for each who asks.
fn start<R: Wait + Threads + Copy + Send + 'static, A: Asker + Send + 'static>(
    rt: R,
    alloc: Global,
    askers: Vec<A>,
    signals: &Arc<Signals, Global>,
) -> Result<Vec<JoinHandle<u64>>, AllocError> {
    let mut threads = Vec::with_capacity(alloc, askers.len())?;
    for asker in askers {
        let signals = Arc::try_clone(signals)?;
        threads.push(thread::spawn(&rt, move || ask_on(&rt, asker, &signals))?)?;
    }
    Ok(threads)
}

// Has them all ask, each on a thread of its own, until the time is up.
fn play<R: Wait + Threads + Clock + Copy + Send + 'static, A: Asker + Send + 'static>(
    rt: R,
    alloc: Global,
    askers: Vec<A>,
    time: Duration,
) -> io::Result<Round> {
    let signals = Arc::new(
        alloc,
        Signals {
            begin: Barrier::new(askers.len().saturating_add(1)),
            is_over: CachePadded::new(AtomicBool::new(time.is_zero())),
        },
    )?;
    let threads = start(rt, alloc, askers, &signals)?;
    let begin = Instant::now(&rt)?;
    signals.begin.wait(&rt);
    thread::sleep(&rt, time);
    signals.is_over.store(true, Ordering::SeqCst);
    let mut turns = 0u64;
    for thread in threads {
        turns = turns.saturating_add(thread.join(&rt));
    }
    Ok(Round {
        turns,
        micros: begin.elapsed(&rt)?.as_micros(),
    })
}

/// All rounds of so many threads, of which each takes so long.
pub fn play_all<R: Wait + Threads + Clock + Copy + Send + 'static>(
    rt: R,
    alloc: Global,
    threads: usize,
    time: Duration,
) -> io::Result<Rounds> {
    let hold = CachePadded::new(Mutex::new(()));
    Ok(Rounds {
        alone: play(rt, alloc, turn_askers(alloc, threads, None)?, time)?,
        held: play(rt, alloc, turn_askers(alloc, threads, Some(hold))?, time)?,
        mutex: play(rt, alloc, mutex_askers(alloc, threads)?, time)?,
    })
}
