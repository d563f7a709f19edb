//! Threads that ask one counter, by way of a turn lock or of a mutex.

ghost use Rattle.std.specs.Prelude.{◌≡◌};
ghost use Rattle.std.specs.Arc.{arc_value};
ghost use Rattle.turn_desk.specs.Seats.{IsSeatOf};

use crate::counter::Counter;
use crossbeam_utils::CachePadded;
use std::alloc::{AllocError, Global};
use std::sync::{Arc, Mutex, Wait};
use turn_desk::{Object, TurnDesk, TurnSeat};

/// What one thread asks by.
pub trait Asker: Drop {
    /// Asks once.
    fn ask<R: Wait>(&mut self, rt: &R);
}

/// A turn lock, and the mutex that is held around each turn where there is one.
#[derive(Drop)]
pub struct Turns {
    desk: TurnDesk<Counter>,
    hold: Option<CachePadded<Mutex<()>>>,
}

/// One seat at a turn lock.
#[derive(Drop)]
pub struct TurnAsker {
    turns: Arc<Turns, Global>,
    seat: TurnSeat<Counter>,
    ghost same: { IsSeatOf (arc_value turns).desk seat },
}

/// The turns that each of several seats may take.
const TURNS_EACH: u64 = 1 << 48;

/// So many seats at a turn lock.
pub fn turn_askers(
    alloc: Global,
    threads: usize,
    hold: Option<CachePadded<Mutex<()>>>,
) -> Result<Vec<TurnAsker>, AllocError> {
    let (desk, mut seat) = TurnDesk::new(alloc, Counter::new())?;
    let turns = Arc::new(alloc, Turns { desk, hold })?;
    let mut askers = Vec::with_capacity(alloc, threads)?;
    for _ in 0..threads {
        let calls = seat.left().min(TURNS_EACH);
        askers.push(TurnAsker {
            turns: Arc::try_clone(&turns)?,
            seat: turns.desk.split(&mut seat, calls),
        })?;
    }
    Ok(askers)
}

impl Asker for TurnAsker {
    fn ask<R: Wait>(&mut self, rt: &R) {
        let turns = &*self.turns;
        let held = turns.hold.as_ref().map(|hold| hold.lock(rt));
        let _reply = turns.desk.submit(rt, &mut self.seat, ());
        drop(held);
    }
}

/// One who asks under a mutex.
#[derive(Drop)]
pub struct MutexAsker {
    counter: Arc<CachePadded<Mutex<Counter>>, Global>,
}

/// So many who ask under one mutex.
pub fn mutex_askers(alloc: Global, threads: usize) -> Result<Vec<MutexAsker>, AllocError> {
    let counter = Arc::new(alloc, CachePadded::new(Mutex::new(Counter::new())))?;
    let mut askers = Vec::with_capacity(alloc, threads)?;
    for _ in 0..threads {
        askers.push(MutexAsker {
            counter: Arc::try_clone(&counter)?,
        })?;
    }
    Ok(askers)
}

impl Asker for MutexAsker {
    fn ask<R: Wait>(&mut self, rt: &R) {
        let mut counter = self.counter.lock(rt);
        counter.act(());
    }
}
