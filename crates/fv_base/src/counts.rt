//! Counts of faults by name, which the objects in memory keep.

ghost use Rattle.std.specs.Prelude.{◌≡◌, ◌≤◌, List, ℕ, false, ◌||◌, ◌&&◌, is_ok, IsTrue, IsFalse};
ghost use Rattle.std.specs.Str.{bytes_eq};
ghost use Rattle.fv_base.specs.Counts.{count_at, is_declared, count_place, raised_at};
ghost use Rattle.fv_base.specs.Told.{Rose};

use super::one_more;
use std::alloc::{AllocError, Global};

// A name, and how many calls for it failed.
#[derive(Drop)]
struct Count {
    name: String,
    faults: u64,
}

// The place of the count of the name, or how many counts there are.
fn place(counts: &[Count], name: &str) -> usize
    ensures { result ≡ count_place counts.now name.now }
{
    for (i, count) in counts.iter().enumerate() {
        if count.name.as_str() == name {
            return i;
        }
    }
    counts.len()
}

/// How many calls failed for each of the names that are declared, as paths, places or addresses. All other
/// names share one count. A count stays at the last value of a u64.
#[derive(Drop)]
pub struct Counts {
    alloc: Global,
    declared: Vec<Count>,
    elsewhere: u64,
}

impl Counts {
    /// No name is declared, and nothing failed yet.
    pub fn new(alloc: Global) -> Counts
        ensures declared { (at : List ℕ) → is_declared result at ≡ false }
        ensures count { (at : List ℕ) → count_at result at ≡ 0 }
    {
        Counts {
            alloc,
            declared: Vec::new(alloc),
            elsewhere: 0,
        }
    }

    /// Declares a name: from now on it has a count of its own, which begins where the shared one stands.
    /// Where it has one already, nothing changes.
    pub fn declare(&mut self, name: &str) -> Result<(), AllocError>
        ensures count { (at : List ℕ) → count_at self.new at ≡ count_at self.old at }
        ensures declared { (at : List ℕ) → is_declared self.new at ≡ (is_declared self.old at || (is_ok result && bytes_eq name.now at)) }
    {
        if place(&self.declared, name) < self.declared.len() {
            return Ok(());
        }
        let name = String::from_str(self.alloc, name)?;
        let faults = self.elsewhere;
        self.declared.push(Count { name, faults })?;
        Ok(())
    }

    /// How many calls for the name failed.
    pub fn of(&self, name: &str) -> u64
        ensures { result ≡ count_at self.now name.now }
    {
        let at = place(&self.declared, name);
        if at < self.declared.len() {
            self.declared[at].faults
        } else {
            self.elsewhere
        }
    }

    /// One more fault for the name, on its own count or on that of the names that aren't declared.
    pub fn raise(&mut self, name: &str)
        ensures rose { Rose (count_at self.old name.now) (count_at self.new name.now) }
        ensures count { (at : List ℕ) → count_at self.old at ≤ count_at self.new at }
        ensures exact { (at : List ℕ) → count_at self.new at ≡ raised_at self.old name.now at }
        ensures own { (at : List ℕ) → IsFalse (bytes_eq name.now at) → IsTrue (is_declared self.old at) → count_at self.new at ≡ count_at self.old at }
        ensures declared { (at : List ℕ) → is_declared self.new at ≡ is_declared self.old at }
    {
        let at = place(&self.declared, name);
        if at < self.declared.len() {
            let count = &mut self.declared[at];
            count.faults = one_more(count.faults);
        } else {
            self.elsewhere = one_more(self.elsewhere);
        }
    }
}
