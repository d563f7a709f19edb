//! Which fields a match constrains.

ghost use Rattle.std.specs.Prelude.{◌≡◌, is_some, IsTrue};
ghost use Rattle.pattern_index.specs.Keys.{bits_of, shape_of};

use of10_model::{Pattern, Prefix};

/// Which of the twelve fields a match constrains, as its wildcard word says (OpenFlow 1.0.0, section
/// 5.2.3), and how many leading bits of each network address.
#[derive(Clone, Copy, PartialEq, Eq)]
pub(crate) struct Shape {
    pub(crate) in_port: bool,
    pub(crate) dl_src: bool,
    pub(crate) dl_dst: bool,
    pub(crate) dl_vlan: bool,
    pub(crate) dl_vlan_pcp: bool,
    pub(crate) dl_type: bool,
    pub(crate) nw_tos: bool,
    pub(crate) nw_proto: bool,
    pub(crate) nw_src: Option<u8>,
    pub(crate) nw_dst: Option<u8>,
    pub(crate) tp_src: bool,
    pub(crate) tp_dst: bool,
}

fn bits_of(prefix: Option<Prefix>) -> Option<u8>
    ensures { result ≡ bits_of prefix }
{
    match prefix {
        Some(prefix) => Some(prefix.bits),
        None => None,
    }
}

/// The fields that a match constrains.
#[tactic(auto, unfolding(crate::specs::Keys::shape_of))]
pub(crate) fn shape_of(m: &Pattern) -> Shape
    ensures { result ≡ shape_of m.now }
{
    Shape {
        in_port: m.in_port.is_some(),
        dl_src: m.dl_src.is_some(),
        dl_dst: m.dl_dst.is_some(),
        dl_vlan: m.dl_vlan.is_some(),
        dl_vlan_pcp: m.dl_vlan_pcp.is_some(),
        dl_type: m.dl_type.is_some(),
        nw_tos: m.nw_tos.is_some(),
        nw_proto: m.nw_proto.is_some(),
        nw_src: bits_of(m.nw_src),
        nw_dst: bits_of(m.nw_dst),
        tp_src: m.tp_src.is_some(),
        tp_dst: m.tp_dst.is_some(),
    }
}

/// Whether two shapes are one.
pub(crate) fn is_same_shape(a: &Shape, b: &Shape) -> bool
    ensures { IsTrue result → a.now ≡ b.now }
{
    a == b
}
