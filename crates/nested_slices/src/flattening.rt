//! A policy whose slice is divided by its holder, as one flat policy.

ghost use Rattle.std.specs.Prelude.{◌≡◌, ◌<◌, ◌≤◌, ◌||◌, length, slice_get, All, None, Err, IfOk, IfErr, IfSome, IfNone};
ghost use Rattle.flowspace.specs.Slices.{IsPlainSlice};
ghost use Rattle.flowspace.specs.Rules.{IsPlainRule};
ghost use Rattle.flowspace.specs.Policies.{IsPolicy, AreNormal};
ghost use Rattle.flowspace.specs.Loading.{load_of};
ghost use Rattle.nested_slices.specs.Flat.{flat};
ghost use Rattle.nested_slices.specs.Refused.{has_swaps, unwritten, early_fault, told_flat, told_fault, flatten_of, shares_of, AreWithin, GivesFlat, IsFlatFault, IsNestFault};
ghost use Rattle.nested_slices.specs.Space.{IsGiven, WritesWhatBothWrite, OthersWriteAsBefore, HasPiecesOfBoth, GoesOnToWriters, GoesOnToReaders};

use crate::counting::flat_count;
use crate::division::Division;
use crate::fault::NestFault;
use crate::making::{by_place, divided, flat_slices};
use crate::normal::see_all_normal;
use crate::shares::{share_fault, shares_of};
use flowspace::limits::{RULES, SLICES};
use flowspace::{Policy, PolicyFault, Rule, Slice, What};
use std::alloc::{AllocError, Global};

/// The slices and the rules of a flat policy.
#[derive(Drop)]
struct FlatParts {
    slices: Vec<Slice>,
    rules: Vec<Rule>,
}

fn have_swaps(outer: &Policy, inner: &Policy) -> bool
    ensures { result ≡ (has_swaps outer.now || has_swaps inner.now) }
{
    !outer.swaps().is_empty() || !inner.swaps().is_empty()
}

fn unwritten(rules: &[Rule]) -> Option<usize>
    ensures { result ≡ unwritten rules.now }
{
    rules.iter().position(|rule| rule.writer.is_none())
}

fn early_fault(outer: &Policy, slot: u8, inner: &Policy) -> Option<NestFault>
    requires { slot < length outer.now.slices }
    ensures value { result ≡ early_fault outer.now slot inner.now }
    ensures given { IsGiven outer.now slot inner.now }
{
    let holder = &outer.slices()[usize::from(slot)];
    let rules = inner.rules();
    if have_swaps(outer, inner) {
        return Some(NestFault::Swaps);
    }
    match unwritten(rules) {
        Some(place) => Some(NestFault::Reader(place as u64)),
        None => share_fault(&shares_of(inner.slices()), holder),
    }
}

/// More slices or rules than a policy may have. It takes no memory.
fn too_many(outer: &Policy, slot: u8, inner: &Policy) -> Option<PolicyFault>
    requires { slot < length outer.now.slices }
    ensures told { IfSome result (λ fault. load_of (flat outer.now slot inner.now).slices (flat outer.now slot inner.now).rules ≡ Err fault) }
    ensures few { IfSome result IsFlatFault }
    ensures slices { IfNone result (length (flat outer.now slot inner.now).slices ≤ 32) }
    ensures rules { IfNone result (length (flat outer.now slot inner.now).rules ≤ 2048) }
{
    let slices = outer.slices().len() - 1 + inner.slices().len();
    if slices > SLICES {
        return Some(PolicyFault::TooMany(What::Slices, slices as u64));
    }
    let rules = flat_count(outer.rules(), slot, inner.rules());
    if rules > RULES as u64 {
        return Some(PolicyFault::TooMany(What::Rules, rules));
    }
    None
}

fn flat_rules(
    alloc: Global,
    outer: &Policy,
    slot: u8,
    inner: &Policy,
) -> Result<Vec<Rule>, AllocError>
    requires given { IsGiven outer.now slot inner.now }
    requires slices { length (flat outer.now slot inner.now).slices ≤ 32 }
    requires rules { length (flat outer.now slot inner.now).rules ≤ 2048 }
    ensures { IfOk result (λ v. v.items ≡ (flat outer.now slot inner.now).rules) }
{
    let outer_rules = outer.in_rule_order(alloc)?;
    let inner_rules = inner.in_rule_order(alloc)?;
    let division = Division {
        slot,
        others: outer.slice_count() - 1,
        rules: &inner_rules,
    };
    let parts = divided(alloc, &division, &outer_rules)?;
    by_place(alloc, &parts)
}

#[tactic(auto, unfolding(crate::specs::Flat::flat))]
fn flat_parts(
    alloc: Global,
    outer: &Policy,
    slot: u8,
    inner: &Policy,
) -> Result<FlatParts, AllocError>
    requires given { IsGiven outer.now slot inner.now }
    requires slices { length (flat outer.now slot inner.now).slices ≤ 32 }
    requires rules { length (flat outer.now slot inner.now).rules ≤ 2048 }
    ensures slices { IfOk result (λ parts. parts.slices.items ≡ (flat outer.now slot inner.now).slices) }
    ensures rules { IfOk result (λ parts. parts.rules.items ≡ (flat outer.now slot inner.now).rules) }
{
    Ok(FlatParts {
        slices: flat_slices(alloc, outer.slices(), slot, inner.slices())?,
        rules: flat_rules(alloc, outer, slot, inner)?,
    })
}

fn told_fault(fault: PolicyFault) -> NestFault
    ensures { result ≡ told_fault fault }
{
    match fault {
        PolicyFault::Memory => NestFault::Memory,
        other => NestFault::Refused(other),
    }
}

fn loaded(alloc: Global, parts: FlatParts) -> Result<Policy, NestFault>
    requires some_slice { 1 ≤ length parts.slices.items }
    requires plain_slices { All IsPlainSlice parts.slices.items }
    requires plain_rules { All IsPlainRule parts.rules.items }
    ensures answer { GivesFlat result (told_flat (load_of parts.slices.items parts.rules.items)) }
    ensures normal { AreNormal parts.rules.items }
{
    see_all_normal(&parts.rules);
    match Policy::load(alloc, parts.slices, parts.rules) {
        Ok(policy) => Ok(policy),
        Err(fault) => Err(told_fault(fault)),
    }
}

fn flat_policy(alloc: Global, outer: &Policy, slot: u8, inner: &Policy) -> Result<Policy, NestFault>
    requires given { IsGiven outer.now slot inner.now }
    requires none_early { early_fault outer.now slot inner.now ≡ None }
    ensures answer { GivesFlat result (told_flat (load_of (flat outer.now slot inner.now).slices (flat outer.now slot inner.now).rules)) }
    ensures few { IfErr result IsNestFault }
{
    if let Some(fault) = too_many(outer, slot, inner) {
        return Err(NestFault::Refused(fault));
    }
    match flat_parts(alloc, outer, slot, inner) {
        Ok(parts) => loaded(alloc, parts),
        Err(_) => Err(NestFault::Memory),
    }
}

fn flattened(alloc: Global, outer: &Policy, slot: u8, inner: &Policy) -> Result<Policy, NestFault>
    requires { slot < length outer.now.slices }
    ensures answer { GivesFlat result (flatten_of outer.now slot inner.now) }
    ensures few { IfErr result IsNestFault }
    ensures given { IsGiven outer.now slot inner.now }
{
    match early_fault(outer, slot, inner) {
        Some(fault) => Err(fault),
        None => flat_policy(alloc, outer, slot, inner),
    }
}

/// The policy that comes of the outer one where the holder of the slice at a slot divides that slice by the
/// inner one. Its slices are the outer slices without the holder, and then the inner ones. Its rules are the
/// outer rules in rule order, where each rule that the holder writes is replaced by what that rule and the
/// inner rules, in rule order, allow together. Or its first fault.
pub fn flatten(alloc: Global, outer: &Policy, slot: u8, inner: &Policy) -> Result<Policy, NestFault>
    requires { slot < length outer.now.slices }
    ensures answer { GivesFlat result (flatten_of outer.now slot inner.now) }
    ensures accepted { IfOk result (λ p. IsPolicy p.slices p.rules) }
    ensures few { IfErr result IsNestFault }
    ensures inner { IfOk result (WritesWhatBothWrite outer.now slot inner.now) }
    ensures others { IfOk result (OthersWriteAsBefore outer.now slot inner.now) }
    ensures pieces { IfOk result (HasPiecesOfBoth outer.now slot inner.now) }
    ensures beyond_writers { IfOk result (GoesOnToWriters outer.now slot inner.now) }
    ensures beyond_readers { IfOk result (GoesOnToReaders outer.now slot inner.now) }
    ensures sums { IfOk result (λ p. IfSome (slice_get outer.now.slices slot) (AreWithin (shares_of inner.now.slices))) }
{
    flattened(alloc, outer, slot, inner)
}
