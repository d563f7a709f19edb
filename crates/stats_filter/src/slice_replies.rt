//! The replies that a slice gets.

ghost use Rattle.std.specs.Prelude.{ℕ, ◌≡◌, ◌<◌, ◌≤◌, ◌∷◌, Some, IfOk, IsSome, length, take, drop};
ghost use Rattle.std.specs.List.{All};
ghost use Rattle.of10_stats.specs.Replies.{entry_size_of};
ghost use Rattle.stats_filter.specs.Asking.{type_sent};
ghost use Rattle.stats_filter.specs.Keeping.{entries_in};
ghost use Rattle.stats_filter.specs.Replies.{pages, later_pages, reply_with, replies_for, sum_reply, table_reply};
ghost use Rattle.stats_filter.specs.Laws.{FitPages};

use crate::asking::type_sent;
use of10_ctl::kind::STATS_REPLY;
use of10_ctl::{Frame, begin};
use of10_model::wire::{put_u16, put_u32, put_u64};
use of10_stats::entry_size;
use of10_stats::protocol::{AGGREGATE, MORE, TABLE};
use std::alloc::{AllocError, Global};
use xid_map::AskKind;

/// Bytes of the entries of one reply: 65,535 less its head.
pub const PAGE: usize = 65_523;

/// A reply of a type of statistics with this body, behind which more replies come or none.
fn reply(alloc: Global, kind: u16, more: bool, xid: u32, body: &[u8]) -> Result<Frame, AllocError>
    requires { length body.now ≤ 65523 }
    ensures { IfOk result (λ f. f ≡ reply_with kind more xid body.now) }
{
    let mut bytes = begin(alloc, STATS_REPLY, xid, 4 + body.len())?;
    put_u16(&mut bytes, kind)?;
    put_u16(&mut bytes, if more { MORE } else { 0 })?;
    bytes.extend_from_slice(body)?;
    Ok(Frame::of(bytes))
}

/// How many bytes of the entries, which stand one behind another, the first page takes: whole entries, as many
/// as fit.
fn page_end(kind: u16, entries: &[u8]) -> usize
    requires { FitPages (entries_in kind entries.now) }
    ensures within { result ≤ length entries.now }
    ensures small { result ≤ 65523 }
    ensures page { pages (entries_in kind entries.now) ≡ take result entries.now ∷ later_pages (entries_in kind (drop result entries.now)) }
    ensures goes_on { IsSome (entry_size_of kind (drop result entries.now)) → 0 < result }
    ensures later { FitPages (entries_in kind (drop result entries.now)) }
{
    let mut end = 0;
    while let Some(size) = entry_size(kind, &entries[end..]) {
        if end + size > PAGE {
            break;
        }
        end += size;
    }
    end
}

/// The replies to a request of the kind with these entries, which stand one behind another (OpenFlow 1.0.0,
/// section 5.3.5). There is one reply at least. Each reply has whole entries in their order, as many as fit
/// 65,535 bytes. All replies but the last have MORE. Behind the first entry that isn't well formed nothing is
/// taken.
pub fn replies(
    alloc: Global,
    kind: AskKind,
    entries: &[u8],
    xid: u32,
) -> Result<Vec<Frame>, AllocError>
    requires small { (sent : ℕ) → type_sent kind ≡ Some sent → All (λ entry. length entry ≤ 65523) (entries_in sent entries.now) }
    ensures { IfOk result (λ frames. frames.items ≡ replies_for kind entries.now xid) }
{
    let mut frames = Vec::new(alloc);
    let Some(sent) = type_sent(kind) else {
        return Ok(frames);
    };
    let mut rest = entries;
    loop {
        let (page, later) = rest.split_at(page_end(sent, rest));
        let more = entry_size(sent, later).is_some();
        frames.push(reply(alloc, sent, more, xid, page)?)?;
        if !more {
            return Ok(frames);
        }
        rest = later;
    }
}

/// The reply with sums over flows (OpenFlow 1.0.0, section 5.3.5, OFPST_AGGREGATE).
#[tactic(auto, unfolding(crate::specs::Replies::sum_reply))]
pub fn aggregate(
    alloc: Global,
    packets: u64,
    bytes: u64,
    flows: u32,
    xid: u32,
) -> Result<Frame, AllocError>
    ensures { IfOk result (λ f. f ≡ sum_reply packets bytes flows xid) }
{
    let mut body = Vec::with_capacity(alloc, 24)?;
    put_u64(&mut body, packets)?;
    put_u64(&mut body, bytes)?;
    put_u32(&mut body, flows)?;
    put_u32(&mut body, 0)?;
    reply(alloc, AGGREGATE, false, xid, &body)
}

/// The reply with the one table that a slice has (OpenFlow 1.0.0, section 5.3.5, OFPST_TABLE): as many entries
/// as its quota, so many of them in use.
#[tactic(auto, unfolding(crate::specs::Replies::table_reply))]
pub fn table_reply(alloc: Global, active: u32, quota: u32, xid: u32) -> Result<Frame, AllocError>
    ensures { IfOk result (λ f. f ≡ table_reply active quota xid) }
{
    let mut body = Vec::with_capacity(alloc, 64)?;
    body.extend_from_slice(&[0; 4])?;
    body.extend_from_slice(b"flowvisor")?;
    body.extend_from_slice(&[0; 23])?;
    put_u32(&mut body, 0x003f_ffff)?;
    put_u32(&mut body, quota)?;
    put_u32(&mut body, active)?;
    body.extend_from_slice(&[0; 16])?;
    reply(alloc, TABLE, false, xid, &body)
}
