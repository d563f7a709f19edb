//! What has come so far, for those who wait for it.

use fv_live::Flag;
use live_session::Side;
use std::alloc::{AllocError, Global};
use std::sync::{Arc, Mutex, Wait};

/// What may come.
#[derive(Clone, Copy, PartialEq, Eq)]
pub enum Mark {
    /// The message at this place of the side's stream came to the gate.
    AtGate(Side, u64),
    /// The gate held a message for all turns.
    HeldTooLong,
    /// A put that stands still has begun.
    Standing(Side),
    /// The side was sent as much as is waited for.
    Sent(Side),
    /// The side's reader has ended.
    Read(Side),
    /// The side's writer has ended.
    Wrote(Side),
}

/// The marks that came, and a flag that is raised by one of them.
#[derive(Drop)]
pub struct Notes {
    marks: Mutex<Vec<Mark>>,
    raised_by: Mark,
    flag: Arc<Flag, Global>,
}

impl Notes {
    /// None came yet.
    pub fn new(alloc: Global, raised_by: Mark) -> Result<Arc<Notes, Global>, AllocError> {
        let notes = Notes {
            marks: Mutex::new(Vec::new(alloc)),
            raised_by,
            flag: Arc::new(alloc, Flag::new())?,
        };
        Ok(Arc::new(alloc, notes)?)
    }

    /// The flag.
    pub fn flag(&self) -> Result<Arc<Flag, Global>, AllocError> {
        Arc::try_clone(&self.flag)
    }

    /// This came. Without memory it isn't noted.
    pub fn note<R: Wait>(&self, rt: &R, mark: Mark) {
        let mut marks = self.marks.lock(rt);
        if !marks.contains(&mark) {
            let _noted = marks.push(mark);
        }
        drop(marks);
        if mark == self.raised_by {
            self.flag.raise(rt);
        }
    }

    /// How many came.
    pub fn count<R: Wait>(&self, rt: &R) -> usize {
        let marks = self.marks.lock(rt);
        marks.len()
    }

    /// Whether all of these came.
    pub fn has_all<R: Wait>(&self, rt: &R, all: &[Mark]) -> bool {
        let marks = self.marks.lock(rt);
        all.iter().all(|mark| marks.contains(mark))
    }

    /// Whether the first of these came before the second.
    pub fn has_first<R: Wait>(&self, rt: &R, first: Mark, second: Mark) -> bool {
        let marks = self.marks.lock(rt);
        let first = marks.iter().position(|mark| *mark == first);
        let second = marks.iter().position(|mark| *mark == second);
        matches!((first, second), (Some(first), Some(second)) if first < second)
    }

    /// Whether no message was held for all turns.
    pub fn is_right<R: Wait>(&self, rt: &R) -> bool {
        let marks = self.marks.lock(rt);
        !marks.contains(&Mark::HeldTooLong)
    }
}
