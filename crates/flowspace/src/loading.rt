//! The first fault of slices and rules.

ghost use Rattle.std.specs.Prelude.{◌≡◌, ◌^◌, [], length, nat_lt, bytes_eq, count_by, IfOk, IfSome, Ok, Some, find, option_map};
ghost use Rattle.std.specs.List.{list_any};
ghost use Rattle.flowspace.specs.declared.fault.What.TheVariants.{Writes};
ghost use Rattle.flowspace.specs.Rules.{is_written_by, is_slot_or_none, is_own_reader, is_refused};
ghost use Rattle.flowspace.specs.Loading.{excess, first_along, name_fault, rule_fault, writes_fault, overlap_fault, fault_before_order, fault_of};

use crate::fault::{Field, PolicyFault, What};
use crate::limits::{RULES, SLICES, WRITES};
use crate::order::{FiledRule, ordered_with_places};
use crate::refusal::is_refused;
use crate::rules::{Rule, has_slot, is_written_by};
use crate::slices::Slice;
use std::alloc::{AllocError, Global};

/// There are more than the limit.
pub(crate) fn excess(what: What, limit: usize, count: usize) -> Option<PolicyFault>
    ensures { result ≡ excess what limit count }
{
    (count > limit).then_some(PolicyFault::TooMany(what, count as u64))
}

fn is_named(before: &[Slice], name: &str) -> bool
    ensures { result ≡ list_any (λ earlier. bytes_eq earlier.name name.now) before.now }
{
    before.iter().any(|earlier| earlier.name.as_str() == name)
}

fn name_fault(before: &[Slice], slice: &Slice) -> Option<PolicyFault>
    ensures { result ≡ name_fault before.now slice.now }
{
    let place = before.len() as u64;
    is_named(before, slice.name.as_str()).then_some(PolicyFault::DuplicateSlice(place))
}

fn first_repeated_name(slices: &[Slice]) -> Option<PolicyFault>
    ensures { result ≡ first_along name_fault [] slices.now }
{
    for (place, slice) in slices.iter().enumerate() {
        let fault = name_fault(&slices[..place], slice);
        if fault.is_some() {
            return fault;
        }
    }
    None
}

fn are_slots(slots: usize, bits: u32) -> bool
    ensures { result ≡ nat_lt bits (2 ^ slots) }
{
    slots >= 32 || bits >> slots == 0
}

fn is_slot(slots: usize, writer: Option<u8>) -> bool
    ensures { result ≡ is_slot_or_none slots writer }
{
    writer.is_none_or(|slot| usize::from(slot) < slots)
}

fn is_own_reader(rule: &Rule) -> bool
    ensures { result ≡ is_own_reader rule.now }
{
    rule.writer.is_some_and(|slot| has_slot(rule.readers, slot))
}

fn rule_fault(slots: usize, before: &[Rule], rule: &Rule) -> Option<PolicyFault>
    ensures { result ≡ rule_fault slots before.now rule.now }
{
    let place = before.len() as u64;
    if !is_slot(slots, rule.writer) || !are_slots(slots, rule.readers) {
        Some(PolicyFault::UnknownSlice(place))
    } else if is_own_reader(rule) {
        Some(PolicyFault::Improper(place, Field::Read))
    } else {
        None
    }
}

fn first_rule_fault(slots: usize, rules: &[Rule]) -> Option<PolicyFault>
    ensures { result ≡ first_along (rule_fault slots) [] rules.now }
{
    for (place, rule) in rules.iter().enumerate() {
        let fault = rule_fault(slots, &rules[..place], rule);
        if fault.is_some() {
            return fault;
        }
    }
    None
}

fn writes_of(rules: &[Rule], slot: usize) -> usize
    ensures { result ≡ count_by (is_written_by slot) rules.now }
{
    rules
        .iter()
        .filter(|rule| is_written_by(rule, slot))
        .count()
}

// The next slice's slot is the number of those before it.
fn writes_fault(rules: &[Rule], before: &[Slice]) -> Option<PolicyFault>
    ensures { result ≡ excess Writes 256 (count_by (is_written_by (length before.now)) rules.now) }
{
    excess(What::Writes, WRITES, writes_of(rules, before.len()))
}

fn first_full_slice(slices: &[Slice], rules: &[Rule]) -> Option<PolicyFault>
    ensures { result ≡ first_along (writes_fault rules.now) [] slices.now }
{
    for (slot, _slice) in slices.iter().enumerate() {
        let fault = writes_fault(rules, &slices[..slot]);
        if fault.is_some() {
            return fault;
        }
    }
    None
}

fn first_refusing<'a>(before: &'a [FiledRule], later: &Rule) -> Option<&'a FiledRule>
    ensures { option_map (λ filed. filed.now) result ≡ find (λ earlier. is_refused earlier.rule later.now) before.now }
{
    before
        .iter()
        .find(|earlier| is_refused(&earlier.rule, later))
}

fn overlap_fault(before: &[FiledRule], later: &FiledRule) -> Option<PolicyFault>
    ensures { result ≡ overlap_fault before.now later.now }
{
    let earlier = first_refusing(before, &later.rule)?;
    Some(PolicyFault::Overlap(earlier.place, later.place))
}

fn first_overlap(ordered: &[FiledRule]) -> Option<PolicyFault>
    ensures { result ≡ first_along overlap_fault [] ordered.now }
{
    for (index, later) in ordered.iter().enumerate() {
        let fault = overlap_fault(&ordered[..index], later);
        if fault.is_some() {
            return fault;
        }
    }
    None
}

/// The first fault of slices and rules; `None` where they make a policy.
#[tactic(auto, unfolding(crate::specs::Loading::fault_of))]
pub(crate) fn fault_of(
    alloc: Global,
    slices: &[Slice],
    rules: &[Rule],
) -> Result<Option<PolicyFault>, AllocError>
    ensures fault { IfOk result (λ fault. fault ≡ fault_of slices.now rules.now) }
    ensures early { IfSome (fault_before_order slices.now rules.now) (λ fault. result ≡ Ok (Some fault)) }
{
    let fault = excess(What::Slices, SLICES, slices.len())
        .or_else(|| excess(What::Rules, RULES, rules.len()))
        .or_else(|| first_repeated_name(slices))
        .or_else(|| first_rule_fault(slices.len(), rules))
        .or_else(|| first_full_slice(slices, rules));
    if fault.is_some() {
        return Ok(fault);
    }
    let ordered = ordered_with_places(alloc, rules)?;
    Ok(first_overlap(&ordered))
}
