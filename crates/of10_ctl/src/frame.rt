ghost use Rattle.std.specs.Prelude.{◌≡◌, ◌↔◌, ◌+◌, ◌<◌, ◌≤◌, ◌^◌, IsTrue, IfOk, drop, length};
ghost use Rattle.of10_ctl.specs.Heads.{head_of, length_field};
ghost use Rattle.of10_ctl.specs.Frames.{IsFrame, is_bad, told_size};
ghost use Rattle.of10_ctl.specs.Kinds.{IsOf, is_of};
ghost use Rattle.of10_ctl.specs.Numbers.{with_number};

use crate::head::Head;
use of10_model::wire::{set_u16, u16_at, u32_at};
use std::alloc::{AllocError, Global};
use std::marker::Model;

/// Bytes of the header (OpenFlow 1.0.0, section 5.1).
pub(crate) const HEADER: u16 = 8;

/// Whether the bytes are a frame: a message of the length that it gives itself, or a header alone that
/// gives a length below 8.
pub fn is_frame(bytes: &[u8]) -> bool
    ensures { IsTrue result ↔ IsFrame bytes.now }
{
    bytes.len() >= 8 && bytes.len() == told_size(bytes)
}

/// How many bytes the frame has that begins with these: as many as its length field says, and the header
/// alone where that is below 8.
pub(crate) fn told_size(bytes: &[u8]) -> usize
    requires { 8 ≤ length bytes.now }
    ensures value { result ≡ told_size bytes.now }
    ensures within { (8 ≤ result) × (result ≤ 65535) }
{
    usize::from(u16_at(bytes, 2).max(HEADER))
}

/// One message as it stands in a stream, 8 to 65,535 bytes; or the header alone of a message that gives
/// itself a length below 8 (OpenFlow 1.0.0, section 5.1).
#[derive(Debug, Drop)]
pub struct Frame {
    items: Vec<u8>,
}

impl Model for Frame {
    ghost use Rattle.std.specs.Prelude.{ℕ, List};
    ghost use Rattle.of10_ctl.specs.Frames.{IsFrame};

    ghost Value = { List ℕ };

    ghost view = { λ f. f.items.items };

    ghost invariant = { λ f. IsFrame f.items.items };
}

impl Frame {
    /// The frame of these bytes, with no copy.
    pub fn of(bytes: Vec<u8>) -> Frame
        requires { IsFrame bytes.items }
        ensures { result ≡ bytes.items }
    {
        Frame { items: bytes }
    }

    /// The same bytes, with no copy.
    pub fn into_vec(self) -> Vec<u8>
        ensures value { result.items ≡ self }
        ensures frame { IsFrame self }
    {
        self.items
    }

    /// The same frame, with memory of its own.
    pub fn copy(&self, alloc: Global) -> Result<Frame, AllocError>
        ensures { IfOk result (λ f. f ≡ self.now) }
    {
        Ok(Frame {
            items: Vec::from_slice(alloc, &self.items)?,
        })
    }

    /// Its bytes, header and body.
    pub fn as_slice(&self) -> &[u8]
        ensures value { result.now ≡ self.now }
        ensures frame { IsFrame self.now }
    {
        &self.items
    }

    /// Its header (OpenFlow 1.0.0, section 5.1).
    pub fn head(&self) -> Head
        ensures value { result ≡ head_of self.now }
        ensures frame { IsFrame self.now }
        ensures range { (result.version < 2 ^ 8) × (result.kind < 2 ^ 8) × (result.length < 2 ^ 16) × (result.xid < 2 ^ 32) }
    {
        Head {
            version: self.items[0],
            kind: self.items[1],
            length: u16_at(&self.items, 2),
            xid: u32_at(&self.items, 4),
        }
    }

    /// What follows the header.
    pub fn body(&self) -> &[u8]
        ensures value { result.now ≡ drop 8 self.now }
        ensures short { length result.now ≤ 65527 }
    {
        &self.items[8..]
    }

    /// Whether the length that the message gives itself is below 8.
    pub fn bad_length(&self) -> bool
        ensures { result ≡ is_bad self.now }
    {
        u16_at(&self.items, 2) < HEADER
    }

    /// Whether it is a message of version 1 and of this type whose length counts its bytes.
    pub fn is_of(&self, kind: u8) -> bool
        ensures value { result ≡ is_of kind self.now }
        ensures kind { IsTrue result ↔ IsOf kind self.now }
        ensures sized { IsTrue result → length_field self.now ≡ length self.now }
    {
        self.items[0] == 1 && self.items[1] == kind && !self.bad_length()
    }

    /// Writes a number in two bytes of the body, where its place counts from the front of the header; all other
    /// bytes stay, so it stays a frame.
    pub fn set_number(&mut self, at: usize, n: u16)
        requires body { 8 ≤ at }
        requires within { at + 2 ≤ length self.old }
        ensures { self.new ≡ with_number at n self.old }
    {
        set_u16(&mut self.items, at, n);
    }
}
