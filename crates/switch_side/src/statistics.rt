//! Statistics that a switch replies, part by part (OpenFlow 1.0.0, section 5.3.5). What a slice asked for is
//! collected until the last part has come.

ghost use Rattle.std.specs.Prelude.{ℕ, ◌≡◌, ◌/◌, ◌^◌, true, List, Some, option_and_then, IfOk};
ghost use Rattle.std.specs.List.{concat};
ghost use Rattle.xid_map.specs.Collections.{CollectionCall, CollectionsStand};
ghost use Rattle.stats_filter.specs.Asking.{type_sent};
ghost use Rattle.slice_words.specs.Statistics.{collects};
ghost use Rattle.desk_words.specs.Histories.{is_part, kept_entries};
ghost use Rattle.switch_side.specs.Carrying.{carried, CallsOf, AllCalled, turning, collecting_turn, statistics_turn, request_seen};

use crate::change::Change;
use crate::dispatch::Dispatch;
use crate::last_part::all_replied;
use crate::requests::{SeenRequest, request_seen};
use flow_book::SliceState;
use flowspace::SwitchPolicy;
use of10_action::Bytes;
use of10_stats::protocol::{DESC, FLOW, PORT, QUEUE};
use of10_stats::{StatsPart, entry_size};
use stats_filter::{keep, type_sent};
use std::alloc::{AllocError, Global};
use xid_map::{AskKind, Collections, Issued};

/// Bytes of what the switch says of itself (OpenFlow 1.0.0, section 5.3.5, OFPST_DESC).
const DESCRIPTION: usize = 1056;

/// Of a part's entries those that the slice at a slot keeps for its request, one behind another. Behind the
/// first entry that isn't well formed nothing is taken.
fn kept_entries(
    alloc: Global,
    policy: &SwitchPolicy,
    slot: u8,
    asked: AskKind,
    kind: u16,
    body: &[u8],
) -> Result<Vec<u8>, AllocError>
    requires { type_sent asked ≡ Some kind }
    ensures { IfOk result (λ v. v.items ≡ concat (kept_entries policy.now.rules slot kind body.now)) }
{
    let mut kept = Vec::new(alloc);
    let mut rest = body;
    while let Some(size) = entry_size(kind, rest) {
        let (entry, later) = rest.split_at(size);
        if keep(policy, slot, asked, entry) {
            kept.extend_from_slice(entry)?;
        }
        rest = later;
    }
    Ok(kept)
}

/// Whether the request collects statistics of the type.
fn collects(collections: &Collections, request: &Issued, kind: u16) -> bool
    ensures value { (calls : List CollectionCall) → CollectionsStand calls collections.now → result ≡ collects request.now kind calls }
    ensures sent { result ≡ true → type_sent request.now.asked.kind ≡ Some kind }
{
    type_sent(request.asked.kind) == Some(kind) && collections.entries(request.number).is_some()
}

/// What follows from a part for a slice that asked for it, if its request collects such entries.
fn followed(
    alloc: Global,
    policy: &SwitchPolicy,
    seen: &SeenRequest<'_>,
    part: &StatsPart,
    body: &[u8],
) -> Result<Dispatch, AllocError>
    ensures { (called : CallsOf) → CollectionsStand called.collections seen.now.state.now.collections → IfOk result (λ d. carried d ≡ turning (collecting_turn policy.now.rules called seen.now.slot part.now body.now seen.now.request)) }
{
    let request = &seen.request;
    let collections = &seen.state.collections;
    if !collects(collections, request, part.kind) {
        return Ok(Dispatch::nothing(alloc));
    }
    let number = request.number;
    let kind = request.asked.kind;
    let kept = kept_entries(alloc, policy, seen.slot, kind, part.kind, body)?;
    if part.more {
        let entries = Bytes::from_vec(kept);
        let change = Change::Collected {
            number,
            kind,
            entries,
        };
        return Dispatch::turning(alloc, seen.slot, Vec::new(alloc), change);
    }
    let messages = all_replied(alloc, collections, request, part.kind, &kept)?;
    Dispatch::turning(alloc, seen.slot, messages, Change::Finished { number })
}

/// What follows from a part under a transaction id for the slice whose request has that id.
fn answered(
    alloc: Global,
    policy: &SwitchPolicy,
    states: &[SliceState],
    xid: u32,
    part: &StatsPart,
    body: &[u8],
) -> Result<Dispatch, AllocError>
    ensures { (called : ℕ → CallsOf) → AllCalled called states.now → IfOk result (λ d. carried d ≡ turning (option_and_then (collecting_turn policy.now.rules (called (xid / 2 ^ 24)) (xid / 2 ^ 24) part.now body.now) (request_seen called states.now xid))) }
{
    match request_seen(states, xid) {
        None => Ok(Dispatch::nothing(alloc)),
        Some(seen) => followed(alloc, policy, &seen, part, body),
    }
}

/// Whether a part has the form of its type: what the switch says of itself comes whole in one part, the other
/// types that are asked for in any number of entries.
fn is_part(kind: u16, body: &[u8]) -> bool
    ensures { result ≡ is_part kind body.now }
{
    match kind {
        DESC => body.len() == DESCRIPTION,
        FLOW | PORT | QUEUE => true,
        _ => false,
    }
}

/// What follows from a part of statistics under a transaction id; from one that isn't in the form of its type, or
/// is for no request that collects it, nothing.
pub(crate) fn statistics(
    alloc: Global,
    policy: &SwitchPolicy,
    states: &[SliceState],
    xid: u32,
    part: &StatsPart,
    body: &[u8],
) -> Result<Dispatch, AllocError>
    ensures { (called : ℕ → CallsOf) → AllCalled called states.now → IfOk result (λ d. carried d ≡ turning (statistics_turn called policy.now.rules states.now xid part.now body.now)) }
{
    if !is_part(part.kind, body) {
        return Ok(Dispatch::nothing(alloc));
    }
    answered(alloc, policy, states, xid, part, body)
}
