//! An accepted policy.

ghost use Rattle.std.specs.Prelude.{◌≡◌, ◌≤◌, length, All, IfOk, IfSome, Err};
ghost use Rattle.flowspace.specs.Slices.{IsPlainSlice, slot_named};
ghost use Rattle.flowspace.specs.Rules.{IsPlainRule};
ghost use Rattle.flowspace.specs.Swaps.{AreSwaps, IsPlainSwap, swaps_on};
ghost use Rattle.flowspace.specs.Order.{in_order, rules_on};
ghost use Rattle.flowspace.specs.Policies.{IsPolicy};
ghost use Rattle.flowspace.specs.Loading.{GivesPolicy, load_of, load_ports_of, fault_before_order};

use crate::fault::PolicyFault;
use crate::loading::fault_of;
use crate::order::{in_rule_order, ordered_rules};
use crate::rules::Rule;
use crate::slices::{Slice, copies, slot_named};
use crate::swaps::{Swap, fault_of_swaps, held_swaps};
use crate::switch::SwitchPolicy;
use std::alloc::{AllocError, Global};
use std::marker::Model;

/// An accepted policy.
#[derive(Drop)]
pub struct Policy {
    slices: Vec<Slice>,
    rules: Vec<Rule>,
    swaps: Vec<Swap>,
}

impl Model for Policy {
    ghost use Rattle.std.specs.Prelude.{length};
    ghost use Rattle.flowspace.specs.Policies.{PolicyView, IsPolicy};
    ghost use Rattle.flowspace.specs.Swaps.{AreSwaps};

    ghost Value = { PolicyView };

    ghost view = { λ p. record { slices = p.slices.items; rules = p.rules.items; swaps = p.swaps.items } };

    ghost invariant = { λ p. IsPolicy p.slices.items p.rules.items × AreSwaps (length p.slices.items) p.swaps.items };
}

impl Policy {
    /// The policy of these slices, whose places are their slots, and of these rules, as they stand in
    /// the file; else the first fault. The faults are, in order: too many slices or rules, a name twice, and
    /// along the file a rule that names no slice or whose writer reads. Then follow too many rules of one
    /// writer, and in rule order a rule that takes headers of an earlier one for another slice. Memory is
    /// needed only for the last of these.
    pub fn load(alloc: Global, slices: Vec<Slice>, rules: Vec<Rule>) -> Result<Policy, PolicyFault>
        requires some_slice { 1 ≤ length slices.items }
        requires plain_slices { All IsPlainSlice slices.items }
        requires plain_rules { All IsPlainRule rules.items }
        ensures answer { GivesPolicy result (load_of slices.items rules.items) }
        ensures early { IfSome (fault_before_order slices.items rules.items) (λ fault. result ≡ Err fault) }
    {
        Policy::load_ports(alloc, slices, rules, Vec::new(alloc))
    }

    /// The policy of these slices and rules, and of these swaps as they stand in the file; else the first
    /// fault. The faults are, in order: one of `load`, along the swaps one of a slice that isn't there, and
    /// too many swaps. Then follows, along the swaps, one that names a number which an earlier swap of its
    /// slice names on a common switch. Memory is needed only for an overlap of rules.
    pub fn load_ports(
        alloc: Global,
        slices: Vec<Slice>,
        rules: Vec<Rule>,
        swaps: Vec<Swap>,
    ) -> Result<Policy, PolicyFault>
        requires some_slice { 1 ≤ length slices.items }
        requires plain_slices { All IsPlainSlice slices.items }
        requires plain_rules { All IsPlainRule rules.items }
        requires plain_swaps { All IsPlainSwap swaps.items }
        ensures answer { GivesPolicy result (load_ports_of slices.items rules.items swaps.items) }
        ensures early { IfSome (fault_before_order slices.items rules.items) (λ fault. result ≡ Err fault) }
    {
        match fault_of(alloc, &slices, &rules) {
            Ok(None) => match fault_of_swaps(slices.len(), &swaps) {
                None => Ok(Policy {
                    slices,
                    rules,
                    swaps,
                }),
                Some(fault) => Err(fault),
            },
            Ok(Some(fault)) => Err(fault),
            Err(_) => Err(PolicyFault::Memory),
        }
    }

    /// The same policy, with memory of its own.
    pub fn copy(&self, alloc: Global) -> Result<Policy, AllocError>
        ensures { IfOk result (λ p. p ≡ self.now) }
    {
        Ok(Policy {
            slices: copies(alloc, &self.slices)?,
            rules: Vec::from_slice(alloc, &self.rules)?,
            swaps: Vec::from_slice(alloc, &self.swaps)?,
        })
    }

    /// The slices, by their slots.
    pub fn slices(&self) -> &[Slice]
        ensures value { result.now ≡ self.now.slices }
        ensures policy { IsPolicy self.now.slices self.now.rules }
    {
        &self.slices
    }

    /// How many slices there are, 1 to 32.
    pub fn slice_count(&self) -> u8
        ensures { result ≡ length self.now.slices }
    {
        self.slices.len() as u8
    }

    /// The slot of the slice that has a name, if one has it.
    pub fn slot_named(&self, name: &str) -> Option<u8>
        ensures { result ≡ slot_named self.now.slices name.now }
    {
        let slot = slot_named(&self.slices, name)?;
        Some(slot as u8)
    }

    /// The rules, as they stand in the file.
    pub fn rules(&self) -> &[Rule]
        ensures value { result.now ≡ self.now.rules }
        ensures policy { IsPolicy self.now.slices self.now.rules }
    {
        &self.rules
    }

    /// The rules in rule order: at descending priority, and those of one priority as they stand in the
    /// file.
    pub fn in_rule_order(&self, alloc: Global) -> Result<Vec<Rule>, AllocError>
        ensures { IfOk result (λ v. v.items ≡ in_order self.now.rules) }
    {
        in_rule_order(alloc, &self.rules)
    }

    /// The swaps, as they stand in the file.
    pub fn swaps(&self) -> &[Swap]
        ensures value { result.now ≡ self.now.swaps }
        ensures policy { AreSwaps (length self.now.slices) self.now.swaps }
    {
        &self.swaps
    }

    /// The policy of the switch with this datapath id.
    pub fn of_switch(&self, alloc: Global, datapath: u64) -> Result<SwitchPolicy, AllocError>
        ensures { IfOk result (λ p. (p.slices ≡ self.now.slices) × (p.rules ≡ rules_on datapath self.now.rules) × (p.swaps ≡ swaps_on datapath self.now.swaps)) }
    {
        let slices = copies(alloc, &self.slices)?;
        let rules = ordered_rules(alloc, &self.rules, datapath)?;
        let swaps = held_swaps(alloc, &self.swaps, datapath)?;
        SwitchPolicy::of(alloc, slices, rules, swaps)
    }
}
