//! Matches as sets of headers.

ghost use Rattle.std.specs.Prelude.{◌≡◌, ◌↔◌, ◌||◌, ◌&&◌, IsTrue, IfSome, IfNone, is_none};
ghost use Rattle.of10_model.specs.Header.{Header, IsHeader};
ghost use Rattle.of10_model.specs.Pattern.{Has};
ghost use Rattle.of10_model.specs.Normal.{IsPrefix};
ghost use Rattle.of10_model.specs.Meet.{both, both_prefix, meet_of, is_disjoint, Disjoint};
ghost use Rattle.of10_model.specs.Inclusion.{covers, covers_prefix, includes_of, Includes, any_in_port};

use crate::constraint::{
    both_prefix, both_u8, both_u16, both_u64, covers_prefix, covers_u8, covers_u16, covers_u64,
    differ_prefix, differ_u8, differ_u16, differ_u64,
};
use of10_match::Match;
use of10_model::Pattern;

#[tactic(auto, unfolding(of10_model::specs::Meet::meet_of))]
fn meet_patterns(a: &Pattern, b: &Pattern) -> Option<Pattern>
    requires first_source { IsPrefix a.now.nw_src }
    requires first_destination { IsPrefix a.now.nw_dst }
    requires second_source { IsPrefix b.now.nw_src }
    requires second_destination { IsPrefix b.now.nw_dst }
    ensures { result ≡ meet_of a.now b.now }
{
    Some(Pattern {
        in_port: both_u16(a.in_port, b.in_port)?,
        dl_src: both_u64(a.dl_src, b.dl_src)?,
        dl_dst: both_u64(a.dl_dst, b.dl_dst)?,
        dl_vlan: both_u16(a.dl_vlan, b.dl_vlan)?,
        dl_vlan_pcp: both_u8(a.dl_vlan_pcp, b.dl_vlan_pcp)?,
        dl_type: both_u16(a.dl_type, b.dl_type)?,
        nw_tos: both_u8(a.nw_tos, b.nw_tos)?,
        nw_proto: both_u8(a.nw_proto, b.nw_proto)?,
        nw_src: both_prefix(a.nw_src, b.nw_src)?,
        nw_dst: both_prefix(a.nw_dst, b.nw_dst)?,
        tp_src: both_u16(a.tp_src, b.tp_src)?,
        tp_dst: both_u16(a.tp_dst, b.tp_dst)?,
    })
}

// The fields in which matches differ most often come first.
fn differ(a: &Pattern, b: &Pattern) -> bool
    requires first_source { IsPrefix a.now.nw_src }
    requires first_destination { IsPrefix a.now.nw_dst }
    requires second_source { IsPrefix b.now.nw_src }
    requires second_destination { IsPrefix b.now.nw_dst }
    ensures { result ≡ (is_none (both a.now.tp_dst b.now.tp_dst) || is_none (both_prefix a.now.nw_dst b.now.nw_dst)
        || is_none (both_prefix a.now.nw_src b.now.nw_src) || is_none (both a.now.in_port b.now.in_port)
        || is_none (both a.now.dl_vlan b.now.dl_vlan) || is_none (both a.now.dl_dst b.now.dl_dst)
        || is_none (both a.now.dl_src b.now.dl_src) || is_none (both a.now.nw_proto b.now.nw_proto)
        || is_none (both a.now.dl_type b.now.dl_type) || is_none (both a.now.tp_src b.now.tp_src)
        || is_none (both a.now.nw_tos b.now.nw_tos) || is_none (both a.now.dl_vlan_pcp b.now.dl_vlan_pcp)) }
{
    differ_u16(a.tp_dst, b.tp_dst)
        || differ_prefix(a.nw_dst, b.nw_dst)
        || differ_prefix(a.nw_src, b.nw_src)
        || differ_u16(a.in_port, b.in_port)
        || differ_u16(a.dl_vlan, b.dl_vlan)
        || differ_u64(a.dl_dst, b.dl_dst)
        || differ_u64(a.dl_src, b.dl_src)
        || differ_u8(a.nw_proto, b.nw_proto)
        || differ_u16(a.dl_type, b.dl_type)
        || differ_u16(a.tp_src, b.tp_src)
        || differ_u8(a.nw_tos, b.nw_tos)
        || differ_u8(a.dl_vlan_pcp, b.dl_vlan_pcp)
}

fn disjoint_patterns(a: &Pattern, b: &Pattern) -> bool
    requires first_source { IsPrefix a.now.nw_src }
    requires first_destination { IsPrefix a.now.nw_dst }
    requires second_source { IsPrefix b.now.nw_src }
    requires second_destination { IsPrefix b.now.nw_dst }
    ensures { result ≡ is_disjoint a.now b.now }
{
    differ(a, b)
}

// Whether the first match covers the second in each field but the in_port, in the order of `differ`.
fn covers_rest(a: &Pattern, b: &Pattern) -> bool
    requires source { IsPrefix a.now.nw_src }
    requires destination { IsPrefix a.now.nw_dst }
    ensures { result ≡ (covers a.now.tp_dst b.now.tp_dst && covers_prefix a.now.nw_dst b.now.nw_dst && covers_prefix a.now.nw_src b.now.nw_src
        && covers a.now.dl_vlan b.now.dl_vlan && covers a.now.dl_dst b.now.dl_dst && covers a.now.dl_src b.now.dl_src
        && covers a.now.nw_proto b.now.nw_proto && covers a.now.dl_type b.now.dl_type && covers a.now.tp_src b.now.tp_src
        && covers a.now.nw_tos b.now.nw_tos && covers a.now.dl_vlan_pcp b.now.dl_vlan_pcp) }
{
    covers_u16(a.tp_dst, b.tp_dst)
        && covers_prefix(a.nw_dst, b.nw_dst)
        && covers_prefix(a.nw_src, b.nw_src)
        && covers_u16(a.dl_vlan, b.dl_vlan)
        && covers_u64(a.dl_dst, b.dl_dst)
        && covers_u64(a.dl_src, b.dl_src)
        && covers_u8(a.nw_proto, b.nw_proto)
        && covers_u16(a.dl_type, b.dl_type)
        && covers_u16(a.tp_src, b.tp_src)
        && covers_u8(a.nw_tos, b.nw_tos)
        && covers_u8(a.dl_vlan_pcp, b.dl_vlan_pcp)
}

fn includes_pattern_aside(a: &Pattern, b: &Pattern) -> bool
    requires source { IsPrefix a.now.nw_src }
    requires destination { IsPrefix a.now.nw_dst }
    ensures { result ≡ includes_of (any_in_port a.now) b.now }
{
    covers_rest(a, b)
}

fn covers_each(a: &Pattern, b: &Pattern) -> bool
    requires source { IsPrefix a.now.nw_src }
    requires destination { IsPrefix a.now.nw_dst }
    ensures { result ≡ (includes_of (any_in_port a.now) b.now && covers a.now.in_port b.now.in_port) }
{
    includes_pattern_aside(a, b) && covers_u16(a.in_port, b.in_port)
}

fn includes_pattern(a: &Pattern, b: &Pattern) -> bool
    requires source { IsPrefix a.now.nw_src }
    requires destination { IsPrefix a.now.nw_dst }
    ensures { result ≡ includes_of a.now b.now }
{
    covers_each(a, b)
}

/// The match of the headers that are in both; `None` where there is none.
pub fn meet(a: &Match, b: &Match) -> Option<Match>
    ensures value { result ≡ meet_of a.now b.now }
    ensures exact { IfSome result (λ r. (h : Header) → Has r h ↔ (Has a.now h × Has b.now h)) }
    ensures none { IfNone result ((h : Header) → Has a.now h → Has b.now h → ⊥) }
    ensures shared { IfSome result (λ r. (h : Header) × IsHeader h × Has r h) }
{
    match meet_patterns(a.pattern(), b.pattern()) {
        Some(pattern) => Some(Match::of(pattern)),
        None => None,
    }
}

/// Whether each header of `b` is in `a`.
pub fn includes(a: &Match, b: &Match) -> bool
    ensures value { result ≡ includes_of a.now b.now }
    ensures headers { IsTrue result ↔ Includes a.now b.now }
{
    includes_pattern(a.pattern(), b.pattern())
}

/// Whether each header of `b` is in `a` once `a` takes any in_port.
pub fn includes_aside(a: &Match, b: &Match) -> bool
    ensures value { result ≡ includes_of (any_in_port a.now) b.now }
    ensures headers { IsTrue result ↔ Includes (any_in_port a.now) b.now }
{
    includes_pattern_aside(a.pattern(), b.pattern())
}

/// Whether no header is in both.
pub fn disjoint(a: &Match, b: &Match) -> bool
    ensures value { result ≡ is_disjoint a.now b.now }
    ensures headers { IsTrue result ↔ Disjoint a.now b.now }
{
    disjoint_patterns(a.pattern(), b.pattern())
}
