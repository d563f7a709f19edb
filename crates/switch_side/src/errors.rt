//! Errors of a switch for what slices asked of it (OpenFlow 1.0.0, section 5.4.4).

ghost use Rattle.std.specs.Prelude.{ℕ, ◌≡◌, Some, IfOk};
ghost use Rattle.of10_ctl.specs.Frames.{error_of};
ghost use Rattle.of10_message.specs.Errors.{error_of_view};
ghost use Rattle.slice_words.specs.Messages.{quoted};
ghost use Rattle.slice_words.specs.Answers.{error_told};
ghost use Rattle.switch_side.specs.Carrying.{carried, CallsOf, AllCalled, while_up, failure_turn, error_turn, turning};

use crate::change::Change;
use crate::dispatch::{Dispatch, one};
use crate::requests::{SeenRequest, request_seen};
use flow_book::SliceState;
use of10_ctl::{Frame, error_frame};
use of10_message::{ErrorView, pair_in};
use std::alloc::{AllocError, Global};
use xid_map::Asked;

/// The error for a slice's request, under the slice's own transaction id and with the request's first bytes.
fn own_error(alloc: Global, asked: &Asked, error: &ErrorView<'_>) -> Result<Frame, AllocError>
    ensures { IfOk result (λ f. f ≡ error_of asked.now.xid error.now.class error.now.code (quoted asked.now)) }
{
    let length = usize::from(asked.first_len).min(asked.first.len());
    error_frame(
        alloc,
        asked.xid,
        error.class,
        error.code,
        &asked.first[..length],
    )
}

/// What a slice that is up is sent, where it is the first error for the request.
fn told(
    alloc: Global,
    seen: &SeenRequest<'_>,
    error: &ErrorView<'_>,
) -> Result<Vec<Frame>, AllocError>
    ensures { IfOk result (λ v. v.items ≡ while_up seen.now.state.now.up (error_told (Some seen.now.request) error.now.class error.now.code)) }
{
    if !seen.state.up || seen.request.failed {
        return Ok(Vec::new(alloc));
    }
    one(alloc, own_error(alloc, &seen.request.asked, error)?)
}

/// The request has failed, and with it the pair that the error carries.
fn failed(
    alloc: Global,
    xid: u32,
    seen: &SeenRequest<'_>,
    error: &ErrorView<'_>,
) -> Result<Dispatch, AllocError>
    ensures { IfOk result (λ d. carried d ≡ turning (Some (failure_turn xid (error_of_view error.now) seen.now.slot seen.now.state.now seen.now.request))) }
{
    let messages = told(alloc, seen, error)?;
    let change = Change::Failed {
        number: seen.request.number,
        pair: pair_in(xid, error.cause),
    };
    Dispatch::turning(alloc, seen.slot, messages, change)
}

/// What follows from an ERROR under a transaction id; from one for no request that is remembered nothing.
pub(crate) fn error(
    alloc: Global,
    states: &[SliceState],
    xid: u32,
    error: &ErrorView<'_>,
) -> Result<Dispatch, AllocError>
    ensures { (called : ℕ → CallsOf) → AllCalled called states.now → IfOk result (λ d. carried d ≡ turning (error_turn called states.now xid (error_of_view error.now))) }
{
    match request_seen(states, xid) {
        None => Ok(Dispatch::nothing(alloc)),
        Some(seen) => failed(alloc, xid, &seen, error),
    }
}
