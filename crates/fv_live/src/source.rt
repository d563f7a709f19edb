//! Where bytes come from.

ghost use Rattle.std.specs.Prelude.{◌≡◌, ◌≤◌, ◌<◌, ℕ, List, [], Option, Some, None, length, drop, take, min, option_map, vec_len, IfOk, IfSome, OnOk, OnErr};
ghost use Rattle.std.specs.Result.{result_ok};
ghost use Rattle.fv_base.specs.Counts.{one_more};
ghost use Rattle.fv_base.specs.Memory.{Starts, called, moved};
ghost use Rattle.fv_base.specs.Told.{Rose};
ghost use Rattle.fv_live.specs.Live.{Moved, IsUsedUp};

use fv_base::{Failed, Plan, one_more};

/// Where bytes come from.
pub trait Source: Drop {
    /// What is left, where it is shown.
    ghost left: { Self → Option (List ℕ) };

    /// How often a call has failed.
    ghost faults: { Self → ℕ };

    /// Moves the first bytes of what is left over the front of `into`, and answers how many; where it is
    /// shown, the rest of `into` stays. `Ok(0)` is the end of input. After `Failed` what is left is as
    /// before.
    fn take(&mut self, into: &mut [u8]) -> Result<usize, Failed>
        requires { 0 < length into.old }
        ensures within { IfOk result (λ n. n ≤ length into.old) }
        ensures moved { IfOk result (λ n. Moved (left self.old) (take n into.new) (left self.new)) }
        ensures rest { IfOk result (λ n. IfSome (left self.old) (λ _. drop n into.new ≡ drop n into.old)) }
        ensures end { IfOk result (λ n. n ≡ 0 → IsUsedUp (left self.old)) }
        ensures refused { OnErr result (left self.new ≡ left self.old) }
        ensures cause { OnErr result (Rose (faults self.old) (faults self.new)) }
        ensures calm { OnOk result (faults self.new ≡ faults self.old) }
        ensures count { faults self.old ≤ faults self.new };
}

/// Bytes in memory. A take fails only where its plan says so.
#[derive(Drop)]
pub struct MemorySource {
    bytes: Vec<u8>,
    from: usize,
    plan: Plan,
    faults: u64,
    ghost within: { from ≤ vec_len bytes },
}

impl MemorySource {
    /// These bytes. A take moves at most `most` of them, and the takes whose numbers, from 0, are in `failing`
    /// fail. Where `most` is 0 each take fails.
    pub fn new(bytes: Vec<u8>, most: usize, failing: Vec<u64>) -> MemorySource
        ensures told { ⟦<MemorySource as Source>⟧.left result ≡ Some bytes.items }
        ensures count { ⟦<MemorySource as Source>⟧.faults result ≡ 0 }
        ensures plan { Starts result.plan most failing.items }
    {
        MemorySource {
            bytes,
            from: 0,
            plan: Plan::new(most, failing),
            faults: 0,
        }
    }

    /// How many takes failed.
    pub fn faults(&self) -> u64
        ensures { result ≡ ⟦<MemorySource as Source>⟧.faults self.now }
    {
        self.faults
    }
}

impl Source for MemorySource {
    ghost left = { λ source. Some (drop source.from source.bytes.items) };

    ghost faults = { λ source. source.faults };

    fn take(&mut self, into: &mut [u8]) -> Result<usize, Failed>
        requires { 0 < length into.old }
        ensures within { IfOk result (λ n. n ≤ length into.old) }
        ensures moved { IfOk result (λ n. Moved (Some (drop self.old.from self.old.bytes.items)) (take n into.new) (Some (drop self.new.from self.new.bytes.items))) }
        ensures rest { IfOk result (λ n. drop n into.new ≡ drop n into.old) }
        ensures end { IfOk result (λ n. n ≡ 0 → IsUsedUp (Some (drop self.old.from self.old.bytes.items))) }
        ensures refused { OnErr result (drop self.new.from self.new.bytes.items ≡ drop self.old.from self.old.bytes.items) }
        ensures cause { OnErr result (Rose self.old.faults self.new.faults) }
        ensures calm { OnOk result (self.new.faults ≡ self.old.faults) }
        ensures count { self.old.faults ≤ self.new.faults }
        ensures exact { result_ok result ≡ option_map (λ most. min (length (drop self.old.from self.old.bytes.items)) most) (moved self.old.plan (length into.old)) }
        ensures counted { OnErr result (self.new.faults ≡ one_more self.old.faults) }
        ensures plan { self.new.plan ≡ called self.old.plan }
    {
        let Some(most) = self.plan.next(into.len()) else {
            self.faults = one_more(self.faults);
            return Err(Failed);
        };
        let left = &self.bytes[self.from..];
        let count = left.len().min(most);
        into[..count].copy_from_slice(&left[..count]);
        self.from += count;
        Ok(count)
    }
}

/// A source that never fails, and gives its end at once.
#[derive(Drop)]
pub struct NeverSource;

impl Source for NeverSource {
    ghost left = { λ source. Some [] };

    ghost faults = { λ source. 0 };

    fn take(&mut self, _into: &mut [u8]) -> Result<usize, Failed> {
        Ok(0)
    }
}
