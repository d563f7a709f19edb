//! Requests as they are remembered.

ghost use Rattle.std.specs.Prelude.{◌≡◌, ◌++◌, length, take, min};
ghost use Rattle.of10_action.specs.Actions.{padding};
ghost use Rattle.of10_ctl.specs.Frames.{IsFrame};
ghost use Rattle.of10_message.specs.Heads.{xid_of};

use of10_ctl::Frame;
use xid_map::{AskKind, Asked};

/// The first 64 bytes of a message, with zeros behind a shorter one.
fn first_bytes(bytes: &[u8]) -> [u8; 64]
    ensures { result ≡ take 64 (bytes.now ++ padding 64) }
{
    let mut first = [0; 64];
    let size = bytes.len().min(64);
    first[..size].copy_from_slice(&bytes[..size]);
    first
}

/// A message as the request that is remembered.
pub(crate) fn asked(frame: &Frame, kind: AskKind, port: u16) -> Asked
    ensures value { result ≡ record { xid = xid_of frame.now; first = take 64 (frame.now ++ padding 64); first_len = min (length frame.now) 64; kind = kind; port = port } }
    ensures frame { IsFrame frame.now }
{
    let bytes = frame.as_slice();
    Asked {
        xid: frame.head().xid,
        first: first_bytes(bytes),
        first_len: bytes.len().min(64) as u8,
        kind,
        port,
    }
}
