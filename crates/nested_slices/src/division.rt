//! How a slice is divided: what becomes of slots, readers and rules.

ghost use Rattle.std.specs.Prelude.{◌≡◌, ◌+◌, ◌*◌, ◌<◌, ◌≤◌, ◌^◌, ◌++◌, filter_map, option_map, All, IfSome, OnOk};
ghost use Rattle.of10_model.specs.Meet.{both};
ghost use Rattle.flowspace.specs.Faults.{NamesSlots};
ghost use Rattle.nested_slices.specs.Flat.{outer_slot, inner_slot, outer_readers, inner_readers, kept, part, parts};
ghost use Rattle.nested_slices.specs.Space.{Fits, FitsBehind};

use flowspace::{Rule, is_written_by};
use match_meet::meet;
use std::alloc::AllocError;
use std::marker::Model;

/// A slice that is divided: the slot of its holder, how many other outer slices there are, and the inner
/// rules in rule order.
#[derive(Drop)]
pub(crate) struct Division<'a> {
    pub(crate) slot: u8,
    pub(crate) others: u8,
    pub(crate) rules: &'a [Rule],
}

impl<'a> Model for Division<'a> {
    ghost use Rattle.nested_slices.specs.Flat.{DivisionView};

    ghost Value = { DivisionView };

    ghost view = { λ d. record { slot = d.slot; others = d.others; rules = d.rules.now } };
}

/// The switch that either names: each one where neither does, and none where they name two.
fn common_switch(a: Option<u64>, b: Option<u64>) -> Option<Option<u64>>
    ensures { result ≡ both a b }
{
    match (a, b) {
        (None, other) => Some(other),
        (value, None) => Some(value),
        (Some(x), Some(y)) => (x == y).then_some(a),
    }
}

/// The bit of a slot, as a number.
fn power(slot: u8) -> u64
    requires { slot ≤ 32 }
    ensures { result ≡ 2 ^ slot }
{
    1 << slot
}

impl<'a> Division<'a> {
    fn outer_slot(&self, slot: u8) -> u8
        ensures { result ≡ outer_slot self.now slot }
    {
        if self.slot < slot { slot - 1 } else { slot }
    }

    fn outer_writer(&self, writer: Option<u8>) -> Option<u8>
        ensures { result ≡ option_map (outer_slot self.now) writer }
    {
        match writer {
            Some(slot) => Some(self.outer_slot(slot)),
            None => None,
        }
    }

    fn inner_writer(&self, writer: Option<u8>) -> Option<u8>
        requires { IfSome writer (λ t. self.now.others + t < 32) }
        ensures { result ≡ option_map (inner_slot self.now) writer }
    {
        match writer {
            Some(slot) => Some(self.others + slot),
            None => None,
        }
    }

    fn without_holder(&self, bits: u32) -> u64
        requires { Fits self.now }
        ensures { result ≡ outer_readers self.now bits }
    {
        let bits = u64::from(bits);
        let holder = power(self.slot);
        bits % holder + bits / power(self.slot + 1) * holder
    }

    fn outer_readers(&self, bits: u32) -> u64
        requires fits { Fits self.now }
        requires known { bits < 2 ^ (self.now.others + 1) }
        ensures value { result ≡ outer_readers self.now bits }
        ensures small { result < 2 ^ self.now.others }
    {
        self.without_holder(bits)
    }

    fn kept_readers(&self, bits: u32) -> u32
        requires fits { Fits self.now }
        requires known { bits < 2 ^ (self.now.others + 1) }
        ensures { result ≡ outer_readers self.now bits }
    {
        self.outer_readers(bits) as u32
    }

    fn both_readers(&self, outer: u32, inner: u32) -> u32
        requires fits { Fits self.now }
        requires known { outer < 2 ^ (self.now.others + 1) }
        requires behind { inner * 2 ^ self.now.others + 2 ^ self.now.others ≤ 2 ^ 32 }
        ensures { result ≡ outer_readers self.now outer + inner_readers self.now inner }
    {
        (self.outer_readers(outer) + u64::from(inner) * power(self.others)) as u32
    }

    /// A rule that the holder doesn't write, as it stands in the flat policy.
    fn kept(&self, outer: &Rule) -> Rule
        requires fits { Fits self.now }
        requires known { NamesSlots (self.now.others + 1) outer.now }
        ensures { result ≡ kept self.now outer.now }
    {
        Rule {
            writer: self.outer_writer(outer.writer),
            readers: self.kept_readers(outer.readers),
            ..*outer
        }
    }

    /// What a rule that the holder writes and an inner one allow together.
    fn part(&self, outer: &Rule, inner: &Rule) -> Option<Rule>
        requires fits { Fits self.now }
        requires known { NamesSlots (self.now.others + 1) outer.now }
        requires behind { FitsBehind self.now inner.now }
        ensures { result ≡ part self.now outer.now inner.now }
    {
        Some(Rule {
            switch: common_switch(outer.switch, inner.switch)?,
            priority: 0,
            pattern: meet(&outer.pattern, &inner.pattern)?,
            writer: self.inner_writer(inner.writer),
            readers: self.both_readers(outer.readers, inner.readers),
        })
    }

    /// Adds what an outer rule and these inner ones allow together.
    fn add_parts(&self, to: &mut Vec<Rule>, outer: &Rule, rules: &[Rule]) -> Result<(), AllocError>
        requires fits { Fits self.now }
        requires known { NamesSlots (self.now.others + 1) outer.now }
        requires behind { All (FitsBehind self.now) rules.now }
        ensures { OnOk result (to.new.items ≡ to.old.items ++ filter_map (part self.now outer.now) rules.now) }
    {
        for inner in rules {
            if let Some(rule) = self.part(outer, inner) {
                to.push(rule)?;
            }
        }
        Ok(())
    }

    /// Adds what comes of an outer rule.
    pub(crate) fn add(&self, to: &mut Vec<Rule>, outer: &Rule) -> Result<(), AllocError>
        requires fits { Fits self.now }
        requires known { NamesSlots (self.now.others + 1) outer.now }
        ensures { OnOk result (to.new.items ≡ to.old.items ++ parts self.now outer.now) }
    {
        if is_written_by(outer, usize::from(self.slot)) {
            self.add_parts(to, outer, self.rules)
        } else {
            to.push(self.kept(outer))?;
            Ok(())
        }
    }
}
