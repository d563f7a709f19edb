//! The switch's numbers of the packets that are held, in order, so that one is found without a walk over the
//! packets.

ghost use Rattle.std.specs.Prelude.{ℕ, ◌≡◌, ◌≤◌, ◌<◌, ◌==◌, not, [], ◌∷◌, length, filter, IsTrue, IfOk, slice_index_or};
ghost use Rattle.std.specs.List.{list_any};
ghost use Rattle.std.specs.List.Sorted.{IsPermutation, IsNonDecreasing};

use std::alloc::{AllocError, Global};
use std::marker::Model;

/// How many numbers there is room for.
const ROOM: usize = 256;

/// At most 256 numbers of the switch, each as often as it was added. After `new` no call takes memory.
#[derive(Drop)]
pub(crate) struct Physicals {
    // ascending
    all: Vec<u32>,
}

impl Model for Physicals {
    ghost use Rattle.std.specs.Prelude.{◌≤◌, ℕ, List, vec_capacity};
    ghost use Rattle.std.specs.List.Sorted.{IsNonDecreasing};

    ghost Value = { List ℕ };

    ghost view = { λ p. p.all.items };

    ghost invariant = { λ p. IsNonDecreasing p.all.items × (256 ≤ vec_capacity p.all) };
}

/// Where the number goes: lower ones stand before, others from there on.
fn place_for(all: &[u32], physical: u32) -> usize
    requires { IsNonDecreasing all.now }
    ensures within { result ≤ length all.now }
    ensures before { (k d : ℕ) → k < result → slice_index_or all.now k d ≤ physical }
    ensures after { (k d : ℕ) → result ≤ k → k < length all.now → physical ≤ slice_index_or all.now k d }
{
    all.partition_point(|other| *other < physical)
}

impl Physicals {
    pub(crate) fn new(alloc: Global) -> Result<Physicals, AllocError>
        ensures { IfOk result (λ p. p ≡ []) }
    {
        Ok(Physicals {
            all: Vec::with_capacity(alloc, ROOM)?,
        })
    }

    pub(crate) fn contains(&self, physical: u32) -> bool
        ensures { result ≡ list_any (λ other. other == physical) self.now }
    {
        self.all.binary_search(&physical).is_ok()
    }

    pub(crate) fn add(&mut self, physical: u32)
        requires { length self.old < 256 }
        ensures { IsPermutation (physical ∷ self.old) self.new }
    {
        let place = place_for(&self.all, physical);
        match self.all.insert(place, physical) {
            Ok(()) => {}
            Err(_) => unreachable!(),
        }
    }

    /// Takes the number out once, if it is there.
    pub(crate) fn remove(&mut self, physical: u32)
        ensures { IsTrue (list_any (λ other. other == physical) self.old) → IsPermutation self.old (physical ∷ self.new) }
    {
        if let Ok(place) = self.all.binary_search(&physical) {
            self.all.remove(place);
        }
    }

    /// Takes the number out as often as it is there.
    pub(crate) fn remove_all(&mut self, physical: u32)
        ensures { self.new ≡ filter (λ other. not (other == physical)) self.old }
    {
        self.all.retain(|other| *other != physical);
    }

    pub(crate) fn clear(&mut self)
        ensures { self.new ≡ [] }
    {
        self.all.clear();
    }
}
