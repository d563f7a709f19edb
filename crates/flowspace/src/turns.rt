//! The swaps of each slice on a switch, found by their numbers.

ghost use Rattle.std.specs.Prelude.{◌≡◌, length, IfOk};
ghost use Rattle.flowspace.specs.Swaps.{AreTurns, IsTurnOf, pairs_of};

use crate::swaps::Swap;
use std::alloc::{AllocError, Global};
use std::collections::BTreeMap;

fn numbers_of(swap: &Swap) -> (u16, u16)
    ensures { result ≡ (swap.now.shown, swap.now.physical) }
{
    (swap.shown, swap.physical)
}

/// The numbers that the swaps of the slice at a slot name: the one that is shown, and the physical one.
fn pairs_of(alloc: Global, swaps: &[Swap], slot: usize) -> Result<Vec<(u16, u16)>, AllocError>
    ensures { IfOk result (λ v. v.items ≡ pairs_of swaps.now slot) }
{
    swaps
        .iter()
        .filter(|swap| swap.is_of(slot))
        .map(|swap| numbers_of(swap))
        .collect(alloc)
}

/// For each number that pairs name the other one of the first such pair.
fn turn(alloc: Global, pairs: &[(u16, u16)]) -> Result<BTreeMap<u16, u16>, AllocError>
    ensures { IfOk result (IsTurnOf pairs.now) }
{
    let mut others = BTreeMap::new(alloc);
    let mut left = pairs.len();
    while left > 0 {
        let place = left - 1;
        let (shown, physical) = pairs[place];
        others.insert(physical, shown)?;
        others.insert(shown, physical)?;
        left = place;
    }
    Ok(others)
}

/// This for each slice, by slots, of which there are so many.
pub(crate) fn turns_by_slot(
    alloc: Global,
    swaps: &[Swap],
    slots: usize,
) -> Result<Vec<BTreeMap<u16, u16>>, AllocError>
    ensures count { IfOk result (λ v. length v.items ≡ slots) }
    ensures each { IfOk result (λ v. AreTurns swaps.now v.items) }
{
    let mut turns = Vec::with_capacity(alloc, slots)?;
    for slot in 0..slots {
        turns.push(turn(alloc, &pairs_of(alloc, swaps, slot)?)?)?;
    }
    Ok(turns)
}
