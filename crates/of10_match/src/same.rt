//! Whether two matches are one.

ghost use Rattle.std.specs.Prelude.{◌≡◌};
ghost use Rattle.of10_model.specs.Same.{same, same_prefix, is_same};

use of10_model::{Pattern, Prefix};

fn same_u8(a: Option<u8>, b: Option<u8>) -> bool
    ensures { result ≡ same a b }
{
    a == b
}

fn same_u16(a: Option<u16>, b: Option<u16>) -> bool
    ensures { result ≡ same a b }
{
    a == b
}

fn same_u64(a: Option<u64>, b: Option<u64>) -> bool
    ensures { result ≡ same a b }
{
    a == b
}

fn same_prefix(a: Option<Prefix>, b: Option<Prefix>) -> bool
    ensures { result ≡ same_prefix a b }
{
    a == b
}

/// Whether each field has one constraint in both.
// The fields in which matches of one slice differ most often come first.
#[tactic(auto, unfolding(of10_model::specs::Same::is_same))]
pub(crate) fn is_same(a: &Pattern, b: &Pattern) -> bool
    ensures { result ≡ is_same a.now b.now }
{
    same_prefix(a.nw_dst, b.nw_dst)
        && same_prefix(a.nw_src, b.nw_src)
        && same_u16(a.tp_dst, b.tp_dst)
        && same_u16(a.tp_src, b.tp_src)
        && same_u64(a.dl_dst, b.dl_dst)
        && same_u64(a.dl_src, b.dl_src)
        && same_u16(a.in_port, b.in_port)
        && same_u16(a.dl_vlan, b.dl_vlan)
        && same_u8(a.dl_vlan_pcp, b.dl_vlan_pcp)
        && same_u16(a.dl_type, b.dl_type)
        && same_u8(a.nw_proto, b.nw_proto)
        && same_u8(a.nw_tos, b.nw_tos)
}
