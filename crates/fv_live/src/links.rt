//! Links that diallers in memory share.

ghost use Rattle.std.specs.Prelude.{◌≡◌};
ghost use Rattle.fv_live.specs.Links.{first_link, place_of_link, without_link};

use super::Source;
use fv_base::Sink;
use std::sync::{Mutex, Wait};

/// A link that a dialler gives for the address.
#[derive(Drop)]
pub struct Link<S: Source, K: Sink> {
    /// What is dialled to get it.
    pub address: String,
    /// What the controller sends.
    pub source: S,
    /// What the controller is sent.
    pub sink: K,
}

/// The links that some diallers give, and which of their calls fail.
#[derive(Drop)]
pub struct Links<S: Source, K: Sink> {
    pub(crate) failing: Vec<u64>,
    waiting: Mutex<Vec<Link<S, K>>>,
}

impl<S: Source, K: Sink> Links<S, K> {
    /// These links. Each is given once, by whichever dialler asks first; of an address, the first of the list
    /// comes first. Of each dialler the dials whose numbers, from 0, are in `failing` fail.
    pub fn new(waiting: Vec<Link<S, K>>, failing: Vec<u64>) -> Links<S, K>
        ensures { result.failing ≡ failing }
    {
        Links {
            failing,
            waiting: Mutex::new(waiting),
        }
    }

    /// The first link to the address that no dialler gave yet.
    pub(crate) fn take<R: Wait>(&self, rt: &R, to: &str) -> Option<Link<S, K>> {
        let mut waiting = self.waiting.lock(rt);
        take_first(&mut waiting, to)
    }
}

// The place of the first link to the address, or how many links there are.
fn place<S: Source, K: Sink>(links: &[Link<S, K>], to: &str) -> usize
    ensures { result ≡ place_of_link links.now to.now }
{
    for (i, link) in links.iter().enumerate() {
        if link.address.as_str() == to {
            return i;
        }
    }
    links.len()
}

// Takes the first link to the address out of the list.
fn take_first<S: Source, K: Sink>(links: &mut Vec<Link<S, K>>, to: &str) -> Option<Link<S, K>>
    ensures first { result ≡ first_link links.old.items to.now }
    ensures rest { links.new.items ≡ without_link links.old.items to.now }
{
    let at = place(links, to);
    if at < links.len() {
        Some(links.remove(at))
    } else {
        None
    }
}
