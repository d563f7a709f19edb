ghost use Rattle.std.specs.Prelude.{◌≡◌, ◌+◌, ◌≤◌, IfOk, length, take, vec_capacity};
ghost use Rattle.of10_ctl.specs.declared.kind.TheConstants.{ERROR, ECHO_REPLY};
ghost use Rattle.of10_ctl.specs.Heads.{head_bytes};
ghost use Rattle.of10_ctl.specs.Frames.{message_of, error_of, echo_reply_to};
ghost use Rattle.of10_ctl.specs.Kinds.{IsOf};

use crate::body::BodyView;
use crate::frame::{Frame, HEADER};
use crate::kind::{ECHO_REPLY, ERROR};
use of10_model::wire::{put_u16, set_u16, set_u32};
use std::alloc::{AllocError, Global};

/// Bytes of the message at fault that an error message carries at most (OpenFlow 1.0.0, section 5.4.4:
/// at least 64).
const CAUSE: usize = 64;

/// The header of a message of version 1 that has so many bytes in all (OpenFlow 1.0.0, section 5.1).
pub fn header(kind: u8, xid: u32, length: u16) -> [u8; 8]
    ensures { result ≡ head_bytes kind length xid }
{
    let mut head = [1, kind, 0, 0, 0, 0, 0, 0];
    set_u16(&mut head, 2, length);
    set_u32(&mut head, 4, xid);
    head
}

/// The header of a message of version 1 whose body will have so many bytes, with room for them.
pub fn begin(alloc: Global, kind: u8, xid: u32, body: usize) -> Result<Vec<u8>, AllocError>
    requires { body ≤ 65527 }
    ensures value { IfOk result (λ v. v.items ≡ head_bytes kind (8 + body) xid) }
    ensures room { IfOk result (λ v. 8 + body ≤ vec_capacity v) }
{
    let mut bytes = Vec::with_capacity(alloc, 8 + body)?;
    bytes.extend_from_slice(&header(kind, xid, HEADER + body as u16))?;
    Ok(bytes)
}

/// The message of version 1 with this type, transaction and body (OpenFlow 1.0.0, section 5.1).
pub fn message(alloc: Global, kind: u8, xid: u32, body: &[u8]) -> Result<Frame, AllocError>
    requires { length body.now ≤ 65527 }
    ensures value { IfOk result (λ f. f ≡ message_of kind xid body.now) }
    ensures kind { IfOk result (λ f. IsOf kind f) }
{
    let mut bytes = begin(alloc, kind, xid, body.len())?;
    bytes.extend_from_slice(body)?;
    Ok(Frame::of(bytes))
}

/// The reply to an ECHO_REQUEST under this transaction with this body (OpenFlow 1.0.0, section 5.5).
pub fn echo_reply(alloc: Global, xid: u32, body: &BodyView<'_>) -> Result<Frame, AllocError>
    ensures value { IfOk result (λ f. f ≡ echo_reply_to xid body.now) }
    ensures kind { IfOk result (λ f. IsOf ECHO_REPLY f) }
{
    message(alloc, ECHO_REPLY, xid, body.as_slice())
}

/// What an error message carries of the message at fault.
fn first(cause: &[u8]) -> &[u8]
    ensures value { result.now ≡ take 64 cause.now }
    ensures few { length result.now ≤ 64 }
{
    if cause.len() < CAUSE {
        cause
    } else {
        &cause[..CAUSE]
    }
}

/// The error message with this class and code, about a message whose bytes are `cause` (OpenFlow 1.0.0,
/// section 5.4.4). It carries the first 64 of them, or all of fewer.
#[tactic(auto, using(crate::proofs::Reading::error_written))]
pub fn error_frame(
    alloc: Global,
    xid: u32,
    class: u16,
    code: u16,
    cause: &[u8],
) -> Result<Frame, AllocError>
    ensures value { IfOk result (λ f. f ≡ error_of xid class code cause.now) }
    ensures kind { IfOk result (λ f. IsOf ERROR f) }
{
    let carried = first(cause);
    let mut bytes = begin(alloc, ERROR, xid, 4 + carried.len())?;
    put_u16(&mut bytes, class)?;
    put_u16(&mut bytes, code)?;
    bytes.extend_from_slice(carried)?;
    Ok(Frame::of(bytes))
}
