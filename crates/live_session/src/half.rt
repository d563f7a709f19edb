//! Handing the writing half of a link to its writer. None of it has a clause.

use std::alloc::{AllocError, Global};
use std::sync::{Condvar, Mutex, Wait};

// The half of the newest link, how many links were handed over and are done, and whether there will be no more.
#[derive(Drop)]
struct Place<K: Drop> {
    half: Option<K>,
    handed: u64,
    done: u64,
    closed: bool,
}

/// One writing half, on its way from a slice's reader to its writer.
#[derive(Drop)]
pub struct Half<K: Drop> {
    place: Mutex<Place<K>>,
    changed: Condvar,
}

impl<K: Drop> Half<K> {
    /// No half yet. It always succeeds.
    pub fn new(_alloc: Global) -> Result<Half<K>, AllocError> {
        Ok(Half {
            place: Mutex::new(Place {
                half: None,
                handed: 0,
                done: 0,
                closed: false,
            }),
            changed: Condvar::new(),
        })
    }

    // Hands over the half of a link.
    pub(crate) fn put<R: Wait>(&self, rt: &R, half: K) {
        let mut place = self.place.lock(rt);
        place.half = Some(half);
        place.handed = place.handed.wrapping_add(1);
        drop(place);
        self.changed.notify_all();
    }

    // No more links come.
    pub(crate) fn close<R: Wait>(&self, rt: &R) {
        let mut place = self.place.lock(rt);
        place.closed = true;
        drop(place);
        self.changed.notify_all();
    }

    /// The half of the next link, for which it waits; `None` once there will be none.
    pub fn take<R: Wait>(&self, rt: &R) -> Option<K> {
        let mut place = self.changed.wait_while(rt, self.place.lock(rt), |place| {
            place.half.is_none() && !place.closed
        });
        place.half.take()
    }

    /// The writer of the newest link has ended.
    pub fn end<R: Wait>(&self, rt: &R) {
        let mut place = self.place.lock(rt);
        place.done = place.handed;
        drop(place);
        self.changed.notify_all();
    }

    // Waits until the writer of each link has ended.
    pub(crate) fn wait_for_end<R: Wait>(&self, rt: &R) {
        let place = self.changed.wait_while(
            rt,
            self.place.lock(rt),
            |place| place.done != place.handed,
        );
        drop(place);
    }
}
