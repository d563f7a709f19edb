//! Slices, and what they may be called.

ghost use Rattle.std.specs.Prelude.{◌≡◌, ◌<◌, ◌≤◌, length, IfOk, IfSome, IsTrue};
ghost use Rattle.std.specs.List.{list_all};
ghost use Rattle.flowspace.specs.Slices.{is_controller, is_name, is_name_byte, IsPlainSlice, slot_named};

use crate::limits::{CONTROLLER_BYTES, NAME_BYTES, QUOTA, RATE};
use crate::text::Text;
use std::alloc::{AllocError, Global};

/// A slice of the network: one controller's share.
#[derive(Drop)]
pub struct Slice {
    /// 1 to 32 letters a to z, digits, `_` and `-`.
    pub name: Text,
    /// Where its controller listens, 1 to 255 bytes.
    pub controller: Text,
    /// How many messages a second it may send, 1 to 1,000,000.
    pub rate: u32,
    /// How many messages it may send at once, 1 to 1,000,000.
    pub burst: u32,
    /// How many flow entries it may have on a switch, at most 4,096.
    pub quota: u32,
}

fn is_name_byte(byte: u8) -> bool
    ensures { result ≡ is_name_byte byte }
{
    matches!(byte, b'a'..=b'z' | b'0'..=b'9' | b'_' | b'-')
}

/// Whether a text is made of letters a to z, digits, `_` and `-`.
fn has_name_bytes(text: &str) -> bool
    ensures { result ≡ list_all is_name_byte text.now }
{
    text.as_bytes().iter().all(|byte| is_name_byte(*byte))
}

/// Whether a slice may have this name: 1 to 32 bytes, which are letters a to z, digits, `_` and `-`.
pub fn is_name(text: &str) -> bool
    ensures { result ≡ is_name text.now }
{
    1 <= text.len() && text.len() <= NAME_BYTES && has_name_bytes(text)
}

/// Whether a slice's controller may be written so: 1 to 255 bytes.
pub fn is_controller(text: &str) -> bool
    ensures { result ≡ is_controller text.now }
{
    1 <= text.len() && text.len() <= CONTROLLER_BYTES
}

/// Whether so many messages may come in a second, or at once.
fn is_rate(count: u32) -> bool
    ensures some { IsTrue result → 1 ≤ count }
    ensures limit { IsTrue result → count ≤ 1000000 }
    ensures only { 1 ≤ count → count ≤ 1000000 → IsTrue result }
{
    1 <= count && count <= RATE
}

impl Slice {
    /// Whether rate, burst and quota are within their limits.
    fn has_numbers(&self) -> bool
        ensures rate { IsTrue result → (1 ≤ self.now.rate) × (self.now.rate ≤ 1000000) }
        ensures burst { IsTrue result → (1 ≤ self.now.burst) × (self.now.burst ≤ 1000000) }
        ensures quota { IsTrue result → self.now.quota ≤ 4096 }
        ensures only { 1 ≤ self.now.rate → self.now.rate ≤ 1000000 → 1 ≤ self.now.burst → self.now.burst ≤ 1000000 → self.now.quota ≤ 4096 → IsTrue result }
    {
        is_rate(self.rate) && is_rate(self.burst) && self.quota <= QUOTA
    }

    /// Whether each field is within its limits. `Policy::load` takes such slices alone.
    #[tactic(auto, using(crate::proofs::Naming::name_from, crate::proofs::Naming::name_parts, crate::proofs::Naming::controller_from, crate::proofs::Naming::controller_parts))]
    pub fn is_plain(&self) -> bool
        ensures plain { IsTrue result → IsPlainSlice self.now }
        ensures only { IsPlainSlice self.now → IsTrue result }
    {
        is_name(self.name.as_str()) && is_controller(self.controller.as_str()) && self.has_numbers()
    }

    /// The same slice, with texts of its own.
    pub fn copy(&self, alloc: Global) -> Result<Slice, AllocError>
        ensures { IfOk result (λ s. s ≡ self.now) }
    {
        Ok(Slice {
            name: Text::of(alloc, self.name.as_str())?,
            controller: Text::of(alloc, self.controller.as_str())?,
            rate: self.rate,
            burst: self.burst,
            quota: self.quota,
        })
    }
}

/// The slot of a name: the place of the first slice that has it.
pub(crate) fn slot_named(slices: &[Slice], name: &str) -> Option<usize>
    ensures value { result ≡ slot_named slices.now name.now }
    ensures within { IfSome result (λ slot. slot < length slices.now) }
{
    slices.iter().position(|slice| slice.name.as_str() == name)
}

/// The same slices, with texts of their own.
pub(crate) fn copies(alloc: Global, slices: &[Slice]) -> Result<Vec<Slice>, AllocError>
    ensures { IfOk result (λ v. v.items ≡ slices.now) }
{
    let mut copies = Vec::new(alloc);
    for slice in slices {
        copies.push(slice.copy(alloc)?)?;
    }
    Ok(copies)
}
