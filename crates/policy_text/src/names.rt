//! The slices that rules and port tables name.

ghost use Rattle.std.specs.Prelude.{◌≡◌, IfOk, map, nat_eq, option_map};
ghost use Rattle.std.specs.List.{list_any};
ghost use Rattle.policy_text.specs.Reading.{GivesAsText};
ghost use Rattle.policy_text.specs.Ports.{port_slot};
ghost use Rattle.policy_text.specs.Rules.{are_different, bits_below, known_slot, slots_of, writer_slot};
ghost use Rattle.flowspace.specs.Slices.{slot_named};

use crate::fault::ReadFault;
use flowspace::{PolicyFault, Slice};
use std::alloc::{AllocError, Global};
use std::collections::{BTreeMap, BTreeSet};
use std::marker::Model;

/// Slices that are found by their names.
#[derive(Drop)]
pub struct Names<'a> {
    slices: &'a [Slice],
    slots: BTreeMap<&'a str, usize>,
}

impl<'a> Model for Names<'a> {
    ghost use Rattle.std.specs.Prelude.{ℕ, ◌≡◌, List};
    ghost use Rattle.std.specs.BTreeMap.{get_by};
    ghost use Rattle.std.specs.Ordering.{nat_cmp};
    ghost use Rattle.std.specs.Cmp.Lexicographic.{slice_cmp};
    ghost use Rattle.flowspace.specs.declared.slices.Slice.{Slice};
    ghost use Rattle.flowspace.specs.Slices.{slot_named};

    ghost Value = { List Slice };

    ghost view = { λ n. n.slices.now };

    ghost invariant = { λ n. (name : List ℕ) → get_by (λ k. slice_cmp nat_cmp name k.now) n.slots ≡ slot_named n.slices.now name };
}

impl<'a> Names<'a> {
    /// The slot of a name is the place of the first slice that has it.
    pub fn of(alloc: Global, slices: &'a [Slice]) -> Result<Names<'a>, AllocError>
        ensures { IfOk result (λ n. n ≡ slices.now) }
    {
        let mut slots = BTreeMap::new(alloc);
        let mut slot = slices.len();
        while slot > 0 {
            let place = slot - 1;
            slots.insert(slices[place].name.as_str(), place)?;
            slot = place;
        }
        Ok(Names { slices, slots })
    }

    fn slot_named(&self, name: &'a str) -> Option<usize>
        ensures { result ≡ slot_named self.now name.now }
    {
        self.slots.get(&name).copied()
    }
}

fn named_slot<'a>(names: &Names<'a>, index: u64, name: &'a str) -> Result<usize, ReadFault>
    ensures { GivesAsText (λ slot. slot) result (known_slot index (slot_named names.now name.now)) }
{
    match names.slot_named(name) {
        Some(slot) => Ok(slot),
        None => Err(ReadFault::Refused(PolicyFault::UnknownSlice(index))),
    }
}

/// The slot of the writer of rule `index`.
pub fn writer<'a>(
    names: &Names<'a>,
    index: u64,
    name: Option<&'a str>,
) -> Result<Option<u8>, ReadFault>
    ensures { GivesAsText (λ w. w) result (writer_slot names.now index (option_map (λ s. s.now) name.entry)) }
{
    match name {
        None => Ok(None),
        Some(name) => {
            let slot = named_slot(names, index, name)?;
            Ok(Some((slot % 256) as u8))
        }
    }
}

/// The slot that port table `index` names.
pub fn port_slot<'a>(names: &Names<'a>, index: u64, name: &'a str) -> Result<u8, ReadFault>
    ensures { GivesAsText (λ slot. slot) result (port_slot index (slot_named names.now name.now)) }
{
    match names.slot_named(name) {
        Some(slot) => Ok((slot % 256) as u8),
        None => Err(ReadFault::Refused(PolicyFault::UnknownPortSlice(index))),
    }
}

/// The slots of the readers of rule `index`.
pub fn slots<'a>(
    alloc: Global,
    names: &Names<'a>,
    index: u64,
    readers: &[&'a str],
) -> Result<Vec<usize>, ReadFault>
    ensures { GivesAsText (λ v. v.items) result (slots_of names.now index (map (λ s. s.now) readers.now)) }
{
    let mut slots = Vec::new(alloc);
    let mut rest = readers;
    while let [name, after @ ..] = rest {
        slots.push(named_slot(names, index, name)?)?;
        rest = after;
    }
    Ok(slots)
}

fn has(slots: &[usize], slot: usize) -> bool
    ensures { result ≡ list_any (nat_eq slot) slots.now }
{
    slots.iter().any(|other| slot == *other)
}

fn few_are_different(slots: &[usize]) -> bool
    ensures { result ≡ are_different slots.now }
{
    let mut rest = slots;
    while let [first, after @ ..] = rest {
        if has(after, *first) {
            return false;
        }
        rest = after;
    }
    true
}

fn many_are_different(alloc: Global, slots: &[usize]) -> Result<bool, AllocError>
    ensures { IfOk result (λ different. different ≡ are_different slots.now) }
{
    let mut seen = BTreeSet::new(alloc);
    for slot in slots {
        if !seen.insert(*slot)? {
            return Ok(false);
        }
    }
    Ok(true)
}

/// Whether no slot stands twice.
pub fn are_different(alloc: Global, slots: &[usize]) -> Result<bool, AllocError>
    ensures { IfOk result (λ different. different ≡ are_different slots.now) }
{
    if slots.len() <= 32 {
        Ok(few_are_different(slots))
    } else {
        many_are_different(alloc, slots)
    }
}

/// The slots as bits: bit k is slot k.
pub fn bits(slots: &[usize]) -> u32
    ensures { result ≡ bits_below 32 slots.now }
{
    let mut bits = 0u32;
    for slot in 0..32u32 {
        if has(slots, slot as usize) {
            bits += 1 << slot;
        }
    }
    bits
}
