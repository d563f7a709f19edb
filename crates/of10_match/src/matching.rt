//! Matches in their 40 bytes (OpenFlow 1.0.0, section 5.2.3).

ghost use Rattle.std.specs.Prelude.{◌≡◌, ◌↔◌, ◌+◌, ◌≤◌, IsTrue, length};
ghost use Rattle.of10_model.specs.Pattern.{Has, has, meets, meets_prefix};
ghost use Rattle.of10_model.specs.Normal.{IsNormal, IsPrefix, Norm, is_exact, match_at};
ghost use Rattle.of10_model.specs.Header.{Header, IsHeader};
ghost use Rattle.of10_model.specs.Spelling.{Spell};
ghost use Rattle.of10_model.specs.Exact.{exact_of, all_free, IsTidy};
ghost use Rattle.of10_model.specs.Same.{is_same};

use crate::header::Header12;
use crate::normal::normal;
use crate::reading::read;
use crate::same::is_same;
use crate::writing::spell;
use of10_model::{Pattern, Prefix};
use std::marker::Model;

/// A match in normal form: no two different ones have the same headers (OpenFlow 1.0.0, sections 3.4
/// and 5.2.3).
#[derive(Clone, Copy, Debug, PartialEq, Eq)]
pub struct Match {
    pattern: Pattern,
}

impl Model for Match {
    ghost use Rattle.of10_model.specs.declared.pattern.Pattern.{Pattern};
    ghost use Rattle.of10_model.specs.Normal.{IsNormal};

    ghost Value = { Pattern };

    ghost view = { λ m. m.pattern };

    ghost invariant = { λ m. IsNormal m.pattern };

    ghost inverse = { λ p. record { pattern = p } };
}

fn meets_u8(constraint: Option<u8>, field: u8) -> bool
    ensures { result ≡ meets constraint field }
{
    constraint.is_none_or(|value| field == value)
}

fn meets_u16(constraint: Option<u16>, field: u16) -> bool
    ensures { result ≡ meets constraint field }
{
    constraint.is_none_or(|value| field == value)
}

fn meets_u64(constraint: Option<u64>, field: u64) -> bool
    ensures { result ≡ meets constraint field }
{
    constraint.is_none_or(|value| field == value)
}

fn meets_prefix(constraint: Option<Prefix>, address: u32) -> bool
    requires { IsPrefix constraint }
    ensures { result ≡ meets_prefix constraint address }
{
    match constraint {
        None => true,
        Some(prefix) => prefix.begins(address),
    }
}

#[tactic(auto, unfolding(of10_model::specs::Pattern::has))]
fn holds(m: &Pattern, h: &Header12) -> bool
    requires source { IsPrefix m.now.nw_src }
    requires destination { IsPrefix m.now.nw_dst }
    ensures { result ≡ has m.now h.now }
{
    meets_u16(m.in_port, h.in_port)
        && meets_u64(m.dl_src, h.dl_src)
        && meets_u64(m.dl_dst, h.dl_dst)
        && meets_u16(m.dl_vlan, h.dl_vlan)
        && meets_u8(m.dl_vlan_pcp, h.dl_vlan_pcp)
        && meets_u16(m.dl_type, h.dl_type)
        && meets_u8(m.nw_tos, h.nw_tos)
        && meets_u8(m.nw_proto, h.nw_proto)
        && meets_prefix(m.nw_src, h.nw_src)
        && meets_prefix(m.nw_dst, h.nw_dst)
        && meets_u16(m.tp_src, h.tp_src)
        && meets_u16(m.tp_dst, h.tp_dst)
}

/// The constraints that allow this header alone.
pub fn exact_pattern(h: &Header12) -> Pattern
    ensures value { result ≡ exact_of h.now }
    ensures range { IsHeader h.now }
{
    Pattern {
        in_port: Some(h.in_port),
        dl_src: Some(h.dl_src),
        dl_dst: Some(h.dl_dst),
        dl_vlan: Some(h.dl_vlan),
        dl_vlan_pcp: Some(h.dl_vlan_pcp),
        dl_type: Some(h.dl_type),
        nw_tos: Some(h.nw_tos),
        nw_proto: Some(h.nw_proto),
        nw_src: Some(Prefix::whole(h.nw_src)),
        nw_dst: Some(Prefix::whole(h.nw_dst)),
        tp_src: Some(h.tp_src),
        tp_dst: Some(h.tp_dst),
    }
}

impl Match {
    /// The twelve constraints.
    pub fn pattern(&self) -> &Pattern
        ensures value { result.now ≡ self.now }
        ensures normal { IsNormal self.now }
    {
        &self.pattern
    }

    /// The match with these constraints.
    pub fn of(pattern: Pattern) -> Match
        requires { IsNormal pattern }
        ensures { result ≡ pattern }
    {
        Match { pattern }
    }

    /// The normal form of the match that these bytes spell (OpenFlow 1.0.0, section 5.2.3). A field whose
    /// wildcard bit is set is free. So is a field that needs another field's value that isn't given, as a
    /// transport port without TCP, UDP or ICMP. Where no wildcard bit is set such a field is zero instead, so
    /// that the match stays all-exact (this proxy's own rule). Padding and wildcard bits from 22 on are
    /// disregarded.
    pub fn decode(bytes: &[u8; 40]) -> Match
        ensures { result ≡ Norm bytes.now }
    {
        Match {
            pattern: normal(&read(bytes)),
        }
    }

    /// The normal form of the match that the 40 bytes from `at` spell.
    pub fn decode_at(bytes: &[u8], at: usize) -> Match
        requires { at + 40 ≤ length bytes.now }
        ensures value { result ≡ match_at bytes.now at }
        ensures normal { IsNormal result }
    {
        let mut spelling = [0; 40];
        spelling.copy_from_slice(&bytes[at..at + 40]);
        Match::decode(&spelling)
    }

    /// The one normal spelling of the match (OpenFlow 1.0.0, section 5.2.3): padding, unused bits and the
    /// fields that are free are zero, and a free address ignores 32 bits. It is read as this match again.
    pub fn encode(&self) -> [u8; 40]
        ensures value { result ≡ Spell self.now }
        ensures again { Norm result ≡ self.now }
    {
        spell(&self.pattern)
    }

    /// The match of every header.
    pub fn all() -> Match
        ensures value { result ≡ all_free }
        ensures everything { (h : Header) → Has result h }
    {
        Match {
            pattern: Pattern::ANY,
        }
    }

    /// The match of one header alone, in which the fields that don't apply are zero.
    pub fn exact(h: &Header12) -> Match
        requires { IsTidy h.now }
        ensures value { result ≡ exact_of h.now }
        ensures alone { (other : Header) → Has result other ↔ (other ≡ h.now) }
    {
        Match {
            pattern: exact_pattern(h),
        }
    }

    /// Whether no field is free, and both addresses are given whole. On a switch such an entry comes
    /// before all others (OpenFlow 1.0.0, section 3.4).
    pub fn is_exact(&self) -> bool
        ensures { result ≡ is_exact self.now }
    {
        self.pattern.is_exact()
    }

    /// Whether the other is the same match. It is decided as by `==`, but the fields in which matches of one
    /// slice differ most often are looked at first.
    pub fn is_same(&self, other: &Match) -> bool
        ensures { result ≡ is_same self.now other.now }
    {
        is_same(&self.pattern, &other.pattern)
    }

    /// Whether each constraint holds of its field.
    pub fn matches(&self, h: &Header12) -> bool
        ensures membership { IsTrue result ↔ Has self.now h.now }
        ensures value { result ≡ has self.now h.now }
    {
        holds(&self.pattern, h)
    }
}
