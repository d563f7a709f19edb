//! Which booked pairs a change of policy takes away.

ghost use Rattle.std.specs.Prelude.{◌≡◌, ◌++◌, length, All, IfOk, OnOk};
ghost use Rattle.flow_book.specs.Order.{ArePairsInOrder};
ghost use Rattle.policy_change.specs.Planned.{stays, planned_of, planned, books_of};

use flow_book::{Booked, FlowBook, SliceState};
use flowspace::{Slice, SwitchPolicy};
use std::alloc::{AllocError, Global};

/// Whether a pair of the slice at a slot of the new policy stays.
fn stays(new: &SwitchPolicy, slot: Option<u8>, booked: &Booked) -> bool
    ensures { result ≡ stays new.now.rules slot booked.now }
{
    match slot {
        Some(slot) => new.first_cover(slot, &booked.pattern, true).is_some(),
        None => false,
    }
}

/// Adds the pairs of a slice that don't stay.
fn add_planned(
    to: &mut Vec<Booked>,
    new: &SwitchPolicy,
    slice: &Slice,
    book: &FlowBook,
) -> Result<(), AllocError>
    ensures pairs { OnOk result (to.new.items ≡ to.old.items ++ planned_of new.now slice.now book.now.booked) }
    ensures order { ArePairsInOrder book.now.booked }
{
    let slot = new.slot_named(slice.name.as_str());
    for index in 0..book.count() {
        if let Some(booked) = book.at(index) {
            if !stays(new, slot, &booked) {
                to.push(booked)?;
            }
        }
    }
    Ok(())
}

/// The pairs that don't stay, of all slices.
pub(crate) fn planned(
    alloc: Global,
    slices: &[Slice],
    new: &SwitchPolicy,
    states: &[SliceState],
) -> Result<Vec<Booked>, AllocError>
    requires { length states.now ≡ length slices.now }
    ensures pairs { IfOk result (λ v. v.items ≡ planned new.now slices.now (books_of states.now)) }
    ensures order { IfOk result (λ v. All (λ state. ArePairsInOrder state.book.booked) states.now) }
{
    let mut pairs = Vec::new(alloc);
    for (slice, state) in slices.iter().zip(states) {
        add_planned(&mut pairs, new, slice, &state.book)?;
    }
    Ok(pairs)
}
