//! A policy as it holds on one switch.

ghost use Rattle.std.specs.Prelude.{◌≡◌, ◌<◌, ◌↔◌, false, nat_lt, length, map, filter, slice_get, All, Some, IfOk, IfSome, IfNone, IsTrue, option_map};
ghost use Rattle.std.specs.List.{list_any};
ghost use Rattle.flowspace.specs.Rules.{is_written_by};
ghost use Rattle.flowspace.specs.Order.{first_of, first_rule, writer_of, readers_of};
ghost use Rattle.flowspace.specs.Policies.{IsSwitchPolicy};
ghost use Rattle.flowspace.specs.Owners.{owner_of_match, is_rule_at, has_port, HasPort};
ghost use Rattle.flowspace.specs.Places.{IsWritesOf, first_cover, first_written};
ghost use Rattle.flowspace.specs.Slices.{slot_named};
ghost use Rattle.flowspace.specs.Swaps.{AreSwaps, pairs_of, swapped};

use crate::owners::{is_in_port, owner_of};
use crate::rules::Rule;
use crate::slices::{Slice, slot_named};
use crate::swaps::Swap;
use crate::turns::turns_by_slot;
use crate::writes::{SliceWrites, writes_by_slot};
use of10_match::{Header12, Match};
use std::alloc::{AllocError, Global};
use std::collections::BTreeMap;
use std::marker::Model;

/// A policy as it holds on one switch.
#[derive(Drop)]
pub struct SwitchPolicy {
    slices: Vec<Slice>,
    rules: Vec<Rule>,
    swaps: Vec<Swap>,
    /// What each slice writes, by slots.
    writes: Vec<SliceWrites>,
    /// For each number that a slice's swaps name the other one, by slots.
    turns: Vec<BTreeMap<u16, u16>>,
}

impl Model for SwitchPolicy {
    ghost use Rattle.std.specs.Prelude.{length, ◌≡◌};
    ghost use Rattle.flowspace.specs.Policies.{SwitchView, IsSwitchPolicy};
    ghost use Rattle.flowspace.specs.Places.{AreWrites};
    ghost use Rattle.flowspace.specs.Swaps.{AreSwaps, AreTurns};

    ghost Value = { SwitchView };

    ghost view = { λ p. record { slices = p.slices.items; rules = p.rules.items; swaps = p.swaps.items } };

    ghost invariant = { λ p. IsSwitchPolicy p.slices.items p.rules.items × (length p.writes.items ≡ length p.slices.items) × AreWrites p.rules.items p.writes.items × AreSwaps (length p.slices.items) p.swaps.items × (length p.turns.items ≡ length p.slices.items) × AreTurns p.swaps.items p.turns.items };
}

fn first_place(rules: &[Rule], h: &Header12) -> Option<usize>
    ensures value { result ≡ first_of rules.now h.now }
    ensures within { IfSome result (λ place. place < length rules.now) }
{
    rules.iter().position(|rule| rule.pattern.matches(h))
}

impl SwitchPolicy {
    /// The policy of slices, of rules that stand in rule order and of swaps.
    pub(crate) fn of(
        alloc: Global,
        slices: Vec<Slice>,
        rules: Vec<Rule>,
        swaps: Vec<Swap>,
    ) -> Result<SwitchPolicy, AllocError>
        requires policy { IsSwitchPolicy slices.items rules.items }
        requires swaps { AreSwaps (length slices.items) swaps.items }
        ensures { IfOk result (λ p. (p.slices ≡ slices.items) × (p.rules ≡ rules.items) × (p.swaps ≡ swaps.items)) }
    {
        let writes = writes_by_slot(alloc, &rules, slices.len())?;
        let turns = turns_by_slot(alloc, &swaps, slices.len())?;
        Ok(SwitchPolicy {
            slices,
            rules,
            swaps,
            writes,
            turns,
        })
    }

    /// The slices, by their slots.
    pub fn slices(&self) -> &[Slice]
        ensures value { result.now ≡ self.now.slices }
        ensures policy { IsSwitchPolicy self.now.slices self.now.rules }
    {
        &self.slices
    }

    /// The rules that hold on the switch, in rule order.
    pub fn rules(&self) -> &[Rule]
        ensures value { result.now ≡ self.now.rules }
        ensures policy { IsSwitchPolicy self.now.slices self.now.rules }
    {
        &self.rules
    }

    /// The slot of the slice that has a name, if one has it.
    pub fn slot_named(&self, name: &str) -> Option<u8>
        ensures { result ≡ slot_named self.now.slices name.now }
    {
        let slot = slot_named(&self.slices, name)?;
        Some(slot as u8)
    }

    /// The swaps that hold on the switch, as they stand in the file.
    pub fn swaps(&self) -> &[Swap]
        ensures value { result.now ≡ self.now.swaps }
        ensures policy { AreSwaps (length self.now.slices) self.now.swaps }
    {
        &self.swaps
    }

    /// Whether a swap of some slice holds on the switch.
    pub fn has_swaps(&self) -> bool
        ensures { result ≡ nat_lt 0 (length self.now.swaps) }
    {
        !self.swaps.is_empty()
    }

    /// The number under which a slice sees the port of this number, and that of the port which it sees
    /// under it: the other one of the slice's swap that names the number. It is the number itself where
    /// none does, or no slice has the slot.
    pub fn swapped(&self, slot: u8, port: u16) -> u16
        ensures { result ≡ swapped (pairs_of self.now.swaps slot) port }
    {
        match self.turns.get(usize::from(slot)) {
            Some(turn) => turn.get(&port).copied().unwrap_or(port),
            None => port,
        }
    }

    /// The place in rule order of the first rule whose match has the header.
    pub fn first(&self, h: &Header12) -> Option<u16>
        ensures { result ≡ first_of self.now.rules h.now }
    {
        let place = first_place(&self.rules, h)?;
        Some(place as u16)
    }

    /// The first rule in rule order whose match has the header.
    pub fn first_rule(&self, h: &Header12) -> Option<&Rule>
        ensures { option_map (λ rule. rule.now) result ≡ first_rule self.now.rules h.now }
    {
        let place = self.first(h)?;
        self.rules.get(usize::from(place))
    }

    /// The slot of the slice that may write the header.
    pub fn writer(&self, h: &Header12) -> Option<u8>
        ensures { result ≡ writer_of self.now.rules h.now }
    {
        self.first_rule(h)?.writer
    }

    /// The slots of the slices that may read the header: bit k is slot k.
    pub fn readers(&self, h: &Header12) -> u32
        ensures { result ≡ readers_of self.now.rules h.now }
    {
        self.first_rule(h).map_or(0, |rule| rule.readers)
    }

    /// The slot of the slice that has a rule to write each header of the match; `None` where no slice
    /// has one.
    pub fn owner_of(&self, m: &Match) -> Option<u8>
        ensures { result ≡ owner_of_match self.now.rules m.now }
    {
        owner_of(&self.rules, m)
    }

    /// Whether a slice has a port of this number: a physical one or the switch's own (OpenFlow 1.0.0,
    /// section 5.2.1), from which some rule lets the slice write packets.
    pub fn has_port(&self, slot: u8, port: u16) -> bool
        ensures value { result ≡ has_port self.now.rules slot port }
        ensures ports { IsTrue result ↔ HasPort self.now.rules slot port }
    {
        is_in_port(port) && self.has_rule_at(slot, port)
    }

    /// What the slice at a slot writes; `None` where no slice has the slot.
    fn writes_of(&self, slot: u8) -> Option<&SliceWrites>
        ensures some { IfSome result (λ own. IsWritesOf self.now.rules slot own.now) }
        ensures none { IfNone result (All (λ rule. is_written_by slot rule ≡ false) self.now.rules) }
    {
        self.writes.get(usize::from(slot))
    }

    fn has_rule_at(&self, slot: u8, port: u16) -> bool
        ensures { result ≡ list_any (is_rule_at slot port) self.now.rules }
    {
        match self.writes_of(slot) {
            Some(own) => own.ports.take_from(port),
            None => false,
        }
    }

    /// The places of the rules that a slice writes, in rule order: none where it writes none, or no slice
    /// has the slot.
    pub fn write_places(&self, slot: u8) -> &[u16]
        ensures value { map (slice_get self.now.rules) result.now ≡ map Some (filter (is_written_by slot) self.now.rules) }
        ensures within { All (λ place. place < length self.now.rules) result.now }
    {
        match self.writes_of(slot) {
            Some(own) => &own.places,
            None => &[],
        }
    }

    /// The place of the first rule that the slice writes and whose match has each header of `m`; `None` where
    /// there is none. Where the port of entry isn't counted each rule takes any.
    pub fn first_cover(&self, slot: u8, m: &Match, by_port: bool) -> Option<u16>
        ensures { result ≡ first_cover self.now.rules slot by_port m.now }
    {
        match self.writes_of(slot) {
            Some(own) => own.index(by_port).least(m.pattern()),
            None => None,
        }
    }

    /// The place of the first rule that the slice writes and whose match has the header; `None` where there is
    /// none. Where the port of entry isn't counted each rule takes any.
    pub fn first_written(&self, slot: u8, h: &Header12, by_port: bool) -> Option<u16>
        ensures { result ≡ first_written self.now.rules slot by_port h.now }
    {
        match self.writes_of(slot) {
            Some(own) => own.index(by_port).least_of_header(h),
            None => None,
        }
    }
}
