//! Entries that a switch removed from its table (OpenFlow 1.0.0, section 5.4.2).

ghost use Rattle.std.specs.Prelude.{ℕ, ◌≡◌, Some, IfOk};
ghost use Rattle.slice_words.specs.Answers.{removal_told};
ghost use Rattle.switch_side.specs.declared.change.Change.TheVariants.{Released};
ghost use Rattle.switch_side.specs.Carrying.{carried, CallsOf, AllCalled, while_up, owner_turn, removed_turn, turning};

use crate::change::Change;
use crate::dispatch::{Dispatch, one};
use flow_book::{Booked, SliceState};
use of10_ctl::Frame;
use of10_flow::FlowRemoved;
use rule_index::RuleIndex;
use std::alloc::{AllocError, Global};

/// What a slice that is up is sent, where it booked the entry's pair and asked for a report.
fn told(
    alloc: Global,
    up: bool,
    booked: Option<Booked>,
    entry: &FlowRemoved,
) -> Result<Vec<Frame>, AllocError>
    ensures { IfOk result (λ v. v.items ≡ while_up up (removal_told booked entry.now)) }
{
    match booked {
        Some(booked) if up && booked.asked => {
            let message = FlowRemoved { xid: 0, ..*entry };
            one(alloc, message.encode(alloc)?)
        }
        _ => Ok(Vec::new(alloc)),
    }
}

/// The entry's pair leaves the book of the slice at a slot.
fn released(
    alloc: Global,
    slot: u8,
    up: bool,
    booked: Option<Booked>,
    entry: &FlowRemoved,
) -> Result<Dispatch, AllocError>
    ensures { IfOk result (λ d. carried d ≡ turning (Some (record { slot = slot; messages = while_up up (removal_told booked entry.now); change = Released entry.now.pattern entry.now.priority }))) }
{
    let messages = told(alloc, up, booked, entry)?;
    let change = Change::Released {
        pattern: entry.pattern,
        priority: entry.priority,
    };
    Dispatch::turning(alloc, slot, messages, change)
}

/// What follows for the slice that owns the entry's match.
fn owned(
    alloc: Global,
    states: &[SliceState],
    slot: u8,
    entry: &FlowRemoved,
) -> Result<Dispatch, AllocError>
    ensures { (called : ℕ → CallsOf) → AllCalled called states.now → IfOk result (λ d. carried d ≡ turning (owner_turn called states.now entry.now (Some slot))) }
{
    let Some(state) = states.get(usize::from(slot)) else {
        return Ok(Dispatch::nothing(alloc));
    };
    let booked = state.book.booked(&entry.pattern, entry.priority);
    released(alloc, slot, state.up, booked, entry)
}

/// What follows from a FLOW_REMOVED; from one whose match nobody owns nothing.
pub(crate) fn flow_removed(
    alloc: Global,
    index: &RuleIndex,
    states: &[SliceState],
    entry: &FlowRemoved,
) -> Result<Dispatch, AllocError>
    ensures { (called : ℕ → CallsOf) → AllCalled called states.now → IfOk result (λ d. carried d ≡ turning (removed_turn called index.now states.now entry.now)) }
{
    match index.owner_of(&entry.pattern) {
        None => Ok(Dispatch::nothing(alloc)),
        Some(slot) => owned(alloc, states, slot, entry),
    }
}
