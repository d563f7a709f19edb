//! Keys of headers.

ghost use Rattle.std.specs.Prelude.{ℕ, ◌≡◌, Some};
ghost use Rattle.of10_model.specs.Header.{Header};
ghost use Rattle.of10_model.specs.Exact.{exact_of};
ghost use Rattle.pattern_index.specs.Keys.{given_prefix, gives, key_of};
ghost use Rattle.pattern_index.specs.Masks.{ones, leading_ones, masks_of};

use crate::key::Key;
use crate::shape::Shape;
use of10_match::Header12;
use std::marker::Model;

/// The bits of each field of a header that a key has.
#[derive(Drop)]
pub(crate) struct Masks {
    nw_dst: u32,
    nw_src: u32,
    tp_dst: u16,
    tp_src: u16,
    in_port: u16,
    dl_vlan: u16,
    dl_dst: u64,
    dl_src: u64,
    dl_type: u16,
    dl_vlan_pcp: u8,
    nw_proto: u8,
    nw_tos: u8,
}

fn ones_u8(has: bool) -> u8
    ensures { result ≡ ones 8 has }
{
    if has { u8::MAX } else { 0 }
}

fn ones_u16(has: bool) -> u16
    ensures { result ≡ ones 16 has }
{
    if has { u16::MAX } else { 0 }
}

fn ones_u64(has: bool) -> u64
    ensures { result ≡ ones 64 has }
{
    if has { u64::MAX } else { 0 }
}

/// So many leading bits of an address.
pub(crate) fn leading_ones(bits: Option<u8>) -> u32
    ensures { result ≡ leading_ones bits }
{
    match bits {
        Some(bits) => {
            let ignored = 32_u8.saturating_sub(bits);
            ((1_u64 << 32) - (1_u64 << ignored)) as u32
        }
        None => 0,
    }
}

#[tactic(auto, unfolding(crate::specs::Masks::masks_of))]
fn masks_of(shape: &Shape) -> Masks
    ensures { result ≡ masks_of shape.now }
{
    Masks {
        nw_dst: leading_ones(shape.nw_dst),
        nw_src: leading_ones(shape.nw_src),
        tp_dst: ones_u16(shape.tp_dst),
        tp_src: ones_u16(shape.tp_src),
        in_port: ones_u16(shape.in_port),
        dl_vlan: ones_u16(shape.dl_vlan),
        dl_dst: ones_u64(shape.dl_dst),
        dl_src: ones_u64(shape.dl_src),
        dl_type: ones_u16(shape.dl_type),
        dl_vlan_pcp: ones_u8(shape.dl_vlan_pcp),
        nw_proto: ones_u8(shape.nw_proto),
        nw_tos: ones_u8(shape.nw_tos),
    }
}

/// Whether whole addresses have so many leading bits.
fn is_of_addresses(bits: Option<u8>) -> bool
    ensures { (x : ℕ) → result ≡ given_prefix bits (Some (record { bits = 32; value = x })) }
{
    match bits {
        Some(bits) => bits <= 32,
        None => true,
    }
}

#[tactic(auto, using(crate::proofs::Masks::gives_exact))]
fn is_of_headers(shape: &Shape) -> bool
    ensures { (h : Header) → result ≡ gives shape.now (exact_of h) }
{
    is_of_addresses(shape.nw_dst) && is_of_addresses(shape.nw_src)
}

/// A shape, and how its keys are taken of headers.
#[derive(Drop)]
pub(crate) struct HeaderShape {
    shape: Shape,
    masks: Masks,
    /// Whether headers give all of the shape: no prefix is longer than an address.
    is_of_headers: bool,
}

impl Model for HeaderShape {
    ghost use Rattle.std.specs.Prelude.{◌≡◌};
    ghost use Rattle.pattern_index.specs.declared.shape.Shape.{Shape};
    ghost use Rattle.of10_model.specs.Header.{Header};
    ghost use Rattle.of10_model.specs.Exact.{exact_of};
    ghost use Rattle.pattern_index.specs.Keys.{gives};
    ghost use Rattle.pattern_index.specs.Masks.{masks_of};

    ghost Value = { Shape };

    ghost view = { λ s. s.shape };

    ghost invariant = { λ s. (s.masks ≡ masks_of s.shape) × ((h : Header) → s.is_of_headers ≡ gives s.shape (exact_of h)) };
}

impl HeaderShape {
    pub(crate) fn of(shape: Shape) -> HeaderShape
        ensures { result ≡ shape }
    {
        HeaderShape {
            shape,
            masks: masks_of(&shape),
            is_of_headers: is_of_headers(&shape),
        }
    }

    pub(crate) fn shape(&self) -> &Shape
        ensures { result.now ≡ self.now }
    {
        &self.shape
    }

    /// Whether headers give all of the shape.
    pub(crate) fn is_of_headers(&self) -> bool
        ensures { (h : Header) → result ≡ gives self.now (exact_of h) }
    {
        self.is_of_headers
    }

    /// What the header has in the fields of the shape.
    pub(crate) fn key(&self, h: &Header12) -> Key
        ensures { result ≡ key_of self.now (exact_of h.now) }
    {
        let masks = &self.masks;
        Key {
            nw_dst: h.nw_dst & masks.nw_dst,
            nw_src: h.nw_src & masks.nw_src,
            tp_dst: h.tp_dst & masks.tp_dst,
            tp_src: h.tp_src & masks.tp_src,
            in_port: h.in_port & masks.in_port,
            dl_vlan: h.dl_vlan & masks.dl_vlan,
            dl_dst: h.dl_dst & masks.dl_dst,
            dl_src: h.dl_src & masks.dl_src,
            dl_type: h.dl_type & masks.dl_type,
            dl_vlan_pcp: h.dl_vlan_pcp & masks.dl_vlan_pcp,
            nw_proto: h.nw_proto & masks.nw_proto,
            nw_tos: h.nw_tos & masks.nw_tos,
        }
    }
}
