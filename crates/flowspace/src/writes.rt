//! Which rules a slice writes on a switch, from which ports they take packets and what they include, found
//! once.

ghost use Rattle.std.specs.Prelude.{ℕ, ◌≡◌, ◌<◌, ◌≤◌, if◌then◌else◌, length, IfOk};
ghost use Rattle.std.specs.List.{list_any};
ghost use Rattle.of10_model.specs.Normal.{IsNormal};
ghost use Rattle.flowspace.specs.Owners.{is_rule_at};
ghost use Rattle.flowspace.specs.Places.{AreWritePlaces, takes_at, counted, IsCoverIndex, IsWritesOf, AreWrites};

use crate::rules::{Rule, is_written_by};
use of10_match::Match;
use of10_model::Pattern;
use pattern_index::PatternIndex;
use std::alloc::{AllocError, Global};
use std::collections::BTreeSet;

/// The ports from which the rules of a slice take packets.
#[derive(Drop)]
pub(crate) enum EntryPorts {
    /// A rule leaves the port free.
    Every,
    /// Each rule names its port; these are the ports.
    Named(BTreeSet<u16>),
}

/// What a slice writes on a switch.
#[derive(Drop)]
pub(crate) struct SliceWrites {
    /// The places of the slice's write rules, in rule order.
    pub(crate) places: Vec<u16>,
    pub(crate) ports: EntryPorts,
    /// The patterns of these rules, by their places.
    pub(crate) covers: PatternIndex,
    /// The same, where each takes any in_port.
    pub(crate) covers_aside: PatternIndex,
}

/// The places of the rules that the slice writes.
fn write_places(alloc: Global, rules: &[Rule], slot: usize) -> Result<Vec<u16>, AllocError>
    requires { length rules.now ≤ 2048 }
    ensures { IfOk result (λ v. AreWritePlaces rules.now slot v.items) }
{
    let mut places = Vec::new(alloc);
    for (place, rule) in rules.iter().enumerate() {
        if is_written_by(rule, slot) {
            places.push(place as u16)?;
        }
    }
    Ok(places)
}

/// The ports from which the rules that the slice writes take packets.
fn entry_ports(alloc: Global, rules: &[Rule], slot: usize) -> Result<EntryPorts, AllocError>
    ensures { IfOk result (λ ports. (port : ℕ) → takes_at ports port ≡ list_any (is_rule_at slot port) rules.now) }
{
    let mut named = BTreeSet::new(alloc);
    for rule in rules {
        if is_written_by(rule, slot) {
            match rule.pattern.pattern().in_port {
                None => return Ok(EntryPorts::Every),
                Some(port) => {
                    named.insert(port)?;
                }
            }
        }
    }
    Ok(EntryPorts::Named(named))
}

fn counted(m: &Match, by_port: bool) -> Pattern
    ensures value { result ≡ counted by_port m.now }
    ensures normal { IsNormal m.now }
{
    let pattern = *m.pattern();
    if by_port {
        pattern
    } else {
        Pattern {
            in_port: None,
            ..pattern
        }
    }
}

/// The patterns of the rules that the slice writes, by their places; each takes any in_port where that isn't
/// counted.
fn cover_index(
    alloc: Global,
    rules: &[Rule],
    slot: usize,
    by_port: bool,
) -> Result<PatternIndex, AllocError>
    requires { length rules.now ≤ 2048 }
    ensures { IfOk result (IsCoverIndex by_port rules.now slot) }
{
    let mut index = PatternIndex::new(alloc);
    for (place, rule) in rules.iter().enumerate() {
        if is_written_by(rule, slot) {
            index.put(alloc, &counted(&rule.pattern, by_port), place as u16)?;
        }
    }
    Ok(index)
}

fn writes_of(alloc: Global, rules: &[Rule], slot: usize) -> Result<SliceWrites, AllocError>
    requires { length rules.now ≤ 2048 }
    ensures { IfOk result (λ own. IsWritesOf rules.now slot own) }
{
    Ok(SliceWrites {
        places: write_places(alloc, rules, slot)?,
        ports: entry_ports(alloc, rules, slot)?,
        covers: cover_index(alloc, rules, slot, true)?,
        covers_aside: cover_index(alloc, rules, slot, false)?,
    })
}

/// What each slice writes, by slots, of which there are so many.
pub(crate) fn writes_by_slot(
    alloc: Global,
    rules: &[Rule],
    slots: usize,
) -> Result<Vec<SliceWrites>, AllocError>
    requires { length rules.now ≤ 2048 }
    ensures count { IfOk result (λ v. length v.items ≡ slots) }
    ensures each { IfOk result (λ v. AreWrites rules.now v.items) }
{
    let mut writes = Vec::with_capacity(alloc, slots)?;
    for slot in 0..slots {
        writes.push(writes_of(alloc, rules, slot)?)?;
    }
    Ok(writes)
}

impl EntryPorts {
    pub(crate) fn take_from(&self, port: u16) -> bool
        ensures { result ≡ takes_at self.now port }
    {
        match self {
            EntryPorts::Every => true,
            EntryPorts::Named(ports) => ports.contains(&port),
        }
    }
}

impl SliceWrites {
    /// The index in which in_port is counted, or the other.
    pub(crate) fn index(&self, by_port: bool) -> &PatternIndex
        ensures { result.now ≡ (if by_port then self.now.covers else self.now.covers_aside) }
    {
        if by_port {
            &self.covers
        } else {
            &self.covers_aside
        }
    }
}
