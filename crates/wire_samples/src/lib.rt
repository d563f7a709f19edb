//! Bytes and frames for the tests of other crates.
//!
//! Digits that spell no bytes, or bytes that are no frame, are a mistake in a test. Where a maker has no other
//! answer they are answered as out of memory, so that the test fails.
#![tactic(auto)]

ghost use Rattle.std.specs.Prelude.{◌≡◌, Ok, IfNone, IfOk, IfSome};
ghost use Rattle.hex.specs.Hex.{decode_of};
ghost use Rattle.of10_ctl.specs.Frames.{IsFrame};
ghost use Rattle.of10_ctl.specs.Kinds.{IsOf};
ghost use Rattle.wire_samples.specs.Digits.{digits_in};

use of10_ctl::{Frame, is_frame};
use std::alloc::{AllocError, Global};

/// The match of the TCP packets to port 80, as the digits of its 40 bytes.
pub const TO_TCP_80: &str =
    "0038204f 000000000000000000000000000000000000 0800 0006 000000000000000000000000 0050";

fn digits(alloc: Global, pieces: &[&str]) -> Result<Vec<u8>, AllocError>
    ensures { IfOk result (λ v. v.items ≡ digits_in pieces.now) }
{
    let mut digits = pieces.concat(alloc)?.into_bytes();
    digits.retain(|c| *c != b' ');
    Ok(digits)
}

/// The bytes whose hexadecimal digits the pieces have, one after the other; blanks are disregarded.
pub fn bytes(alloc: Global, pieces: &[&str]) -> Result<Vec<u8>, AllocError>
    ensures { IfOk result (λ v. decode_of (digits_in pieces.now) ≡ Ok v.items) }
{
    let digits = digits(alloc, pieces)?;
    match hex::decode(alloc, digits.as_slice()) {
        Ok(bytes) => Ok(bytes),
        Err(_) => Err(AllocError),
    }
}

/// The frame that these bytes are, if they are one.
pub fn frame_of(alloc: Global, bytes: &[u8]) -> Result<Option<Frame>, AllocError>
    ensures same { IfOk result (λ found. IfSome found (λ f. f ≡ bytes.now)) }
    ensures none { IfOk result (λ found. IfNone found (IsFrame bytes.now → ⊥)) }
{
    if is_frame(bytes) {
        Ok(Some(Frame::of(Vec::from_slice(alloc, bytes)?)))
    } else {
        Ok(None)
    }
}

/// The message of this type that these bytes are, if they are one.
pub fn message_of(alloc: Global, kind: u8, bytes: &[u8]) -> Result<Option<Frame>, AllocError>
    ensures same { IfOk result (λ found. IfSome found (λ f. f ≡ bytes.now)) }
    ensures kind { IfOk result (λ found. IfSome found (λ f. IsOf kind f)) }
    ensures none { IfOk result (λ found. IfNone found (IsOf kind bytes.now → ⊥)) }
{
    Ok(match frame_of(alloc, bytes)? {
        Some(frame) if frame.is_of(kind) => Some(frame),
        _ => None,
    })
}

/// The frame of the pieces' digits.
pub fn frame(alloc: Global, pieces: &[&str]) -> Result<Frame, AllocError>
    ensures { IfOk result (λ f. decode_of (digits_in pieces.now) ≡ Ok f) }
{
    let bytes = bytes(alloc, pieces)?;
    frame_of(alloc, &bytes)?.ok_or(AllocError)
}
