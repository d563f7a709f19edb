//! Replies of a switch to barriers (OpenFlow 1.0.0, section 5.3.7) and to questions for queues (section 5.3.4).

ghost use Rattle.std.specs.Prelude.{ℕ, ◌≡◌, ◌/◌, ◌^◌, [], Some, IfOk};
ghost use Rattle.of10_message.specs.Queues.{queues_of_view, AreQueues};
ghost use Rattle.slice_words.specs.Statistics.{barrier_told, queues_told};
ghost use Rattle.switch_side.specs.Carrying.{carried, CallsOf, AllCalled, turning, answer_turn, barrier_turn, queues_turn};

use crate::change::Change;
use crate::dispatch::{Dispatch, one};
use crate::requests::{SeenRequest, request_seen, slot_of};
use flow_book::SliceState;
use flowspace::SwitchPolicy;
use of10_ctl::kind::BARRIER_REPLY;
use of10_ctl::{Frame, message};
use of10_message::{QueuesView, queues_reply};
use std::alloc::{AllocError, Global};
use xid_map::{AskKind, Issued};

/// What follows for a slice that is sent a reply, if it is.
fn answered(
    alloc: Global,
    xid: u32,
    messages: Vec<Frame>,
    number: u64,
) -> Result<Dispatch, AllocError>
    ensures { IfOk result (λ d. carried d ≡ turning (answer_turn (xid / 2 ^ 24) messages.items number)) }
{
    if messages.is_empty() {
        return Ok(Dispatch::nothing(alloc));
    }
    let slot = slot_of(xid);
    Dispatch::turning(alloc, slot, messages, Change::Replied { number })
}

/// What a slice is sent of a reply to a barrier that came for its request: once, and only where it asked for
/// one.
fn barrier_told(alloc: Global, request: &Issued) -> Result<Vec<Frame>, AllocError>
    ensures { IfOk result (λ v. v.items ≡ barrier_told (Some request.now)) }
{
    if !matches!(request.asked.kind, AskKind::Barrier) || request.done {
        return Ok(Vec::new(alloc));
    }
    one(
        alloc,
        message(alloc, BARRIER_REPLY, request.asked.xid, &[])?,
    )
}

/// What a slice is sent of the queues of a port: once, and only where it asked for that port's.
fn queues_told(
    alloc: Global,
    request: &Issued,
    queues: &QueuesView<'_>,
) -> Result<Vec<Frame>, AllocError>
    requires { AreQueues (queues_of_view queues.now) }
    ensures { IfOk result (λ v. v.items ≡ queues_told (Some request.now) queues.now.body.now) }
{
    let asks = matches!(request.asked.kind, AskKind::QueueConfig);
    if !asks || request.asked.port != queues.port || request.done {
        return Ok(Vec::new(alloc));
    }
    one(alloc, queues_reply(alloc, request.asked.xid, queues.body)?)
}

/// What follows from a BARRIER_REPLY under a transaction id; from one that is for no barrier of a slice nothing.
pub(crate) fn barrier(
    alloc: Global,
    states: &[SliceState],
    xid: u32,
) -> Result<Dispatch, AllocError>
    ensures { (called : ℕ → CallsOf) → AllCalled called states.now → IfOk result (λ d. carried d ≡ turning (barrier_turn called states.now xid)) }
{
    match request_seen(states, xid) {
        None => Ok(Dispatch::nothing(alloc)),
        Some(SeenRequest { request, .. }) => {
            answered(alloc, xid, barrier_told(alloc, &request)?, request.number)
        }
    }
}

/// What follows from what the switch says of the queues of a port under a transaction id; from what is for no
/// question of a slice nothing.
pub(crate) fn queues(
    alloc: Global,
    policy: &SwitchPolicy,
    states: &[SliceState],
    xid: u32,
    queues: &QueuesView<'_>,
) -> Result<Dispatch, AllocError>
    requires { AreQueues (queues_of_view queues.now) }
    ensures { (called : ℕ → CallsOf) → AllCalled called states.now → IfOk result (λ d. carried d ≡ turning (queues_turn called policy.now.rules states.now xid (queues_of_view queues.now))) }
{
    let slot = slot_of(xid);
    if !policy.has_port(slot, queues.port) {
        return Ok(Dispatch::nothing(alloc));
    }
    match request_seen(states, xid) {
        None => Ok(Dispatch::nothing(alloc)),
        Some(SeenRequest { request, .. }) => answered(
            alloc,
            xid,
            queues_told(alloc, &request, queues)?,
            request.number,
        ),
    }
}
