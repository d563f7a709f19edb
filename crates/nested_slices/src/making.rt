//! The slices and the rules of a flat policy.

ghost use Rattle.std.specs.Prelude.{◌≡◌, ◌+◌, ◌<◌, ◌≤◌, ◌++◌, length, All, IfOk, OnOk};
ghost use Rattle.flowspace.specs.Faults.{NamesSlots};
ghost use Rattle.nested_slices.specs.Flat.{flat_slices, divided, by_place};
ghost use Rattle.nested_slices.specs.Space.{Fits};

use crate::division::Division;
use flowspace::{Rule, Slice};
use std::alloc::{AllocError, Global};

fn add_copies(alloc: Global, to: &mut Vec<Slice>, slices: &[Slice]) -> Result<(), AllocError>
    ensures { OnOk result (to.new.items ≡ to.old.items ++ slices.now) }
{
    for slice in slices {
        to.push(slice.copy(alloc)?)?;
    }
    Ok(())
}

/// The outer slices without the holder, and then the inner ones.
pub(crate) fn flat_slices(
    alloc: Global,
    outer: &[Slice],
    slot: u8,
    inner: &[Slice],
) -> Result<Vec<Slice>, AllocError>
    requires { slot < length outer.now }
    ensures { IfOk result (λ v. v.items ≡ flat_slices outer.now slot inner.now) }
{
    let holder = usize::from(slot);
    let mut flat = Vec::new(alloc);
    add_copies(alloc, &mut flat, &outer[..holder])?;
    add_copies(alloc, &mut flat, &outer[holder + 1..])?;
    add_copies(alloc, &mut flat, inner)?;
    Ok(flat)
}

/// What comes of the outer rules, one after another.
pub(crate) fn divided(
    alloc: Global,
    division: &Division<'_>,
    outer: &[Rule],
) -> Result<Vec<Rule>, AllocError>
    requires fits { Fits division.now }
    requires known { All (NamesSlots (division.now.others + 1)) outer.now }
    ensures { IfOk result (λ v. v.items ≡ divided division.now outer.now) }
{
    let mut parts = Vec::new(alloc);
    for rule in outer {
        division.add(&mut parts, rule)?;
    }
    Ok(parts)
}

/// The same rules, each with how many stand behind it as its priority.
pub(crate) fn by_place(alloc: Global, rules: &[Rule]) -> Result<Vec<Rule>, AllocError>
    requires { length rules.now ≤ 2048 }
    ensures { IfOk result (λ v. v.items ≡ by_place rules.now) }
{
    let mut placed = Vec::with_capacity(alloc, rules.len())?;
    let mut behind = rules.len() as u32;
    for rule in rules {
        behind -= 1;
        placed.push(Rule {
            priority: behind,
            ..*rule
        })?;
    }
    Ok(placed)
}
