//! What a slice is sent with the last part of statistics: all that was collected (OpenFlow 1.0.0, section
//! 5.3.5).

ghost use Rattle.std.specs.Prelude.{ℕ, ◌≡◌, ◌≤◌, true, List, length, take, Some, IfOk};
ghost use Rattle.of10_stats.specs.declared.protocol.TheConstants.{FLOW};
ghost use Rattle.of10_stats.specs.Replies.{IsEntry};
ghost use Rattle.xid_map.specs.Collections.{CollectionCall, CollectionsStand, is_among, collecting, gathered};
ghost use Rattle.stats_filter.specs.Asking.{type_sent};
ghost use Rattle.stats_filter.specs.Keeping.{entries_in};
ghost use Rattle.stats_filter.specs.Replies.{replies_for};
ghost use Rattle.stats_filter.specs.Laws.{FitPages};
ghost use Rattle.slice_words.specs.Statistics.{collected_replies};
ghost use Rattle.switch_side.specs.Collecting.{calls_with, kept_within, with_kept, with_flow, with_flows, sums_in, sums_told};

use crate::dispatch::one;
use of10_ctl::Frame;
use of10_stats::protocol::FLOW;
use of10_stats::{entry_size, flow_entry};
use stats_filter::{PAGE, aggregate, replies};
use std::alloc::{AllocError, Global};
use xid_map::{AskKind, Collections, Issued};

/// How many bytes of entries, which stand one behind another, have room: those in front of the first that is
/// too long for the room which those before it leave.
fn kept_end(kind: u16, entries: &[u8], room: usize) -> usize
    ensures within { result ≤ length entries.now }
    ensures kept { take result entries.now ≡ kept_within room (entries_in kind entries.now) }
{
    let mut end = 0;
    while let Some(size) = entry_size(kind, &entries[end..]) {
        if size > room - end {
            break;
        }
        end += size;
    }
    end
}

/// What a request has collected, with these entries more where there is room.
fn with_last(
    alloc: Global,
    collections: &Collections,
    number: u64,
    kind: u16,
    last: &[u8],
) -> Result<Vec<u8>, AllocError>
    ensures { (calls : List CollectionCall) → CollectionsStand calls collections.now → is_among number (collecting calls) ≡ true → IfOk result (λ v. v.items ≡ with_kept (entries_in kind last.now) (gathered number calls)) }
{
    let Some(collected) = collections.entries(number) else {
        return Ok(Vec::new(alloc));
    };
    let mut entries = Vec::from_slice(alloc, collected)?;
    let end = kept_end(kind, last, collections.room(number) as usize);
    entries.extend_from_slice(&last[..end])?;
    Ok(entries)
}

/// Whether each of the entries, which stand one behind another, has place in one reply.
fn are_small(kind: u16, entries: &[u8]) -> bool
    ensures { result ≡ true → FitPages (entries_in kind entries.now) }
{
    let mut rest = entries;
    while let Some(size) = entry_size(kind, rest) {
        if size > PAGE {
            return false;
        }
        rest = rest.split_at(size).1;
    }
    true
}

/// Sums of packets, bytes and flows with one flow more. Past the end of their types they go on from zero.
fn with_flow(sums: (u64, u64, u32), entry: &[u8]) -> (u64, u64, u32)
    requires { IsEntry FLOW entry.now }
    ensures { result ≡ with_flow entry.now sums }
{
    let (_, packets, bytes) = flow_entry(entry);
    (
        sums.0.wrapping_add(packets),
        sums.1.wrapping_add(bytes),
        sums.2.wrapping_add(1),
    )
}

/// The same with flows that stand one behind another.
fn with_flows(sums: (u64, u64, u32), entries: &[u8]) -> (u64, u64, u32)
    ensures { result ≡ with_flows (entries_in FLOW entries.now) sums }
{
    let mut sums = sums;
    let mut rest = entries;
    while let Some(size) = entry_size(FLOW, rest) {
        let (entry, later) = rest.split_at(size);
        sums = with_flow(sums, entry);
        rest = later;
    }
    sums
}

/// The reply with what a request sums, with these flows more.
fn sums_replied(
    alloc: Global,
    collections: &Collections,
    request: &Issued,
    last: &[u8],
) -> Result<Vec<Frame>, AllocError>
    ensures { (calls : List CollectionCall) → CollectionsStand calls collections.now → is_among request.now.number (collecting calls) ≡ true → IfOk result (λ v. v.items ≡ sums_told (with_flows (entries_in FLOW last.now) (sums_in (gathered request.now.number calls))) request.now.asked.xid) }
{
    let sums = collections.sums(request.number).unwrap_or((0, 0, 0));
    let (packets, bytes, flows) = with_flows(sums, last);
    let reply = aggregate(alloc, packets, bytes, flows, request.asked.xid)?;
    one(alloc, reply)
}

/// The replies with the entries that a request collects, with these more. That one has place in no reply would
/// be answered as out of memory; but each came in a message.
fn entries_replied(
    alloc: Global,
    collections: &Collections,
    request: &Issued,
    kind: u16,
    last: &[u8],
) -> Result<Vec<Frame>, AllocError>
    requires { type_sent request.now.asked.kind ≡ Some kind }
    ensures { (calls : List CollectionCall) → CollectionsStand calls collections.now → is_among request.now.number (collecting calls) ≡ true → IfOk result (λ v. v.items ≡ replies_for request.now.asked.kind (with_kept (entries_in kind last.now) (gathered request.now.number calls)) request.now.asked.xid) }
{
    let entries = with_last(alloc, collections, request.number, kind, last)?;
    if !are_small(kind, &entries) {
        return Err(AllocError);
    }
    replies(alloc, request.asked.kind, &entries, request.asked.xid)
}

/// The replies with what a request has collected, with these entries of the last part more.
pub(crate) fn all_replied(
    alloc: Global,
    collections: &Collections,
    request: &Issued,
    kind: u16,
    last: &[u8],
) -> Result<Vec<Frame>, AllocError>
    requires { type_sent request.now.asked.kind ≡ Some kind }
    ensures { (calls : List CollectionCall) → CollectionsStand calls collections.now → is_among request.now.number (collecting calls) ≡ true → IfOk result (λ v. v.items ≡ collected_replies request.now.asked.kind (gathered request.now.number (calls_with request.now.asked.kind request.now.number last.now calls)) request.now.asked.xid) }
{
    match request.asked.kind {
        AskKind::Aggregate => sums_replied(alloc, collections, request, last),
        _ => entries_replied(alloc, collections, request, kind, last),
    }
}
