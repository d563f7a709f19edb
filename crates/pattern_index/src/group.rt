//! Patterns that constrain the same fields.

ghost use Rattle.std.specs.Prelude.{◌≡◌, ◌<◌, length, None, Some, IfOk, IfSome, OnOk, OnErr};
ghost use Rattle.std.specs.List.{HoldsAt};
ghost use Rattle.of10_model.specs.Exact.{exact_of};
ghost use Rattle.pattern_index.specs.Keys.{shape_of};
ghost use Rattle.pattern_index.specs.Groups.{finds, least_of, lesser_place, HasPut, HasAsBefore, HavePut, HaveAsBefore};

use crate::header_shape::HeaderShape;
use crate::key::{EqualFirst, Key, gives, key_of};
use crate::shape::{Shape, is_same_shape, shape_of};
use of10_match::Header12;
use of10_model::Pattern;
use std::alloc::{AllocError, Global};
use std::collections::BTreeMap;

/// Patterns of one shape.
#[derive(Drop)]
pub(crate) struct Group {
    shape: HeaderShape,
    /// The least place of the patterns that have these values.
    places: BTreeMap<EqualFirst<Key>, u16>,
}

/// The lesser of a place and of one that may be kept already.
fn no_later(kept: Option<u16>, place: u16) -> u16
    ensures { Some result ≡ lesser_place (Some place) kept }
{
    match kept {
        Some(kept) => place.min(kept),
        None => place,
    }
}

impl Group {
    /// The least place of the group's patterns that include the match.
    fn find(&self, m: &Pattern) -> Option<u16>
        ensures { result ≡ finds self.now m.now }
    {
        if gives(self.shape.shape(), m) {
            let value = key_of(self.shape.shape(), m);
            self.places.get(&EqualFirst { value }).copied()
        } else {
            None
        }
    }

    /// The least place of the group's patterns that have the header.
    fn find_of_header(&self, h: &Header12) -> Option<u16>
        ensures { result ≡ finds self.now (exact_of h.now) }
    {
        if self.shape.is_of_headers() {
            let value = self.shape.key(h);
            self.places.get(&EqualFirst { value }).copied()
        } else {
            None
        }
    }

    /// A group of one pattern.
    fn of(alloc: Global, m: &Pattern, place: u16) -> Result<Group, AllocError>
        ensures { IfOk result (λ group. HasPut m.now place (λ query. None) group) }
    {
        let shape = shape_of(m);
        let mut places = BTreeMap::new(alloc);
        let value = key_of(&shape, m);
        places.insert(EqualFirst { value }, place)?;
        Ok(Group {
            shape: HeaderShape::of(shape),
            places,
        })
    }

    /// Puts a pattern of the group's shape; at an error the group has for each match what it had.
    fn put(&mut self, m: &Pattern, place: u16) -> Result<(), AllocError>
        requires { self.old.shape ≡ shape_of m.now }
        ensures put { OnOk result (HasPut m.now place (finds self.old) self.new) }
        ensures kept { OnErr result (HasAsBefore self.old self.new) }
    {
        let value = key_of(self.shape.shape(), m);
        let key = EqualFirst { value };
        let least = no_later(self.places.get(&key).copied(), place);
        self.places.insert(key, least)?;
        Ok(())
    }
}

fn group_of(groups: &[Group], shape: &Shape) -> Option<usize>
    ensures within { IfSome result (λ at. at < length groups.now) }
    ensures shape { IfSome result (HoldsAt (λ group. group.shape ≡ shape.now) groups.now) }
{
    for (at, group) in groups.iter().enumerate() {
        if is_same_shape(group.shape.shape(), shape) {
            return Some(at);
        }
    }
    None
}

/// Puts a pattern into the group of its shape, or a new one; at an error the groups have for
/// each match what they had.
pub(crate) fn put(
    alloc: Global,
    groups: &mut Vec<Group>,
    m: &Pattern,
    place: u16,
) -> Result<(), AllocError>
    ensures put { OnOk result (HavePut m.now place groups.old.items groups.new.items) }
    ensures kept { OnErr result (HaveAsBefore groups.old.items groups.new.items) }
{
    match group_of(groups, &shape_of(m)) {
        Some(at) => groups[at].put(m, place),
        None => {
            groups.push(Group::of(alloc, m, place)?)?;
            Ok(())
        }
    }
}

fn lesser(a: Option<u16>, b: Option<u16>) -> Option<u16>
    ensures { result ≡ lesser_place a b }
{
    match (a, b) {
        (None, other) => other,
        (place, None) => place,
        (Some(x), Some(y)) => Some(x.min(y)),
    }
}

/// The least place of the patterns in the groups that include the match.
pub(crate) fn least_of(groups: &[Group], m: &Pattern) -> Option<u16>
    ensures { result ≡ least_of groups.now m.now }
{
    let mut least = None;
    for group in groups {
        least = lesser(least, group.find(m));
    }
    least
}

/// The least place of the patterns in the groups that have the header.
#[inline(always)]
pub(crate) fn least_of_header(groups: &[Group], h: &Header12) -> Option<u16>
    ensures { result ≡ least_of groups.now (exact_of h.now) }
{
    let mut least = None;
    for group in groups {
        least = lesser(least, group.find_of_header(h));
    }
    least
}
