//! Patterns with their places, found by look-ups.

ghost use Rattle.std.specs.Prelude.{◌≡◌, List, [], ◌∷◌, OnOk, OnErr};
ghost use Rattle.of10_model.specs.Exact.{exact_of};
ghost use Rattle.pattern_index.specs.Places.{PlacedPattern, StandsFor, least_place};

use crate::group::{Group, least_of, least_of_header, put};
use of10_match::Header12;
use of10_model::Pattern;
use std::alloc::{AllocError, Global};

/// Patterns, each with a place, for look-ups.
#[derive(Drop)]
pub struct PatternIndex {
    groups: Vec<Group>,
}

impl PatternIndex {
    /// An index of no patterns.
    pub fn new(alloc: Global) -> PatternIndex
        ensures { StandsFor [] result }
    {
        PatternIndex {
            groups: Vec::new(alloc),
        }
    }

    /// Puts one more pattern, with its place; at an error the index stands for what it stood for.
    pub fn put(&mut self, alloc: Global, m: &Pattern, place: u16) -> Result<(), AllocError>
        ensures put { OnOk result ((kept : List PlacedPattern) → StandsFor kept self.old → StandsFor (record { pattern = m.now; place = place } ∷ kept) self.new) }
        ensures kept { OnErr result ((kept : List PlacedPattern) → StandsFor kept self.old → StandsFor kept self.new) }
    {
        put(alloc, &mut self.groups, m, place)
    }

    /// The least place of the patterns that include the match.
    pub fn least(&self, m: &Pattern) -> Option<u16>
        ensures { (kept : List PlacedPattern) → StandsFor kept self.now → result ≡ least_place kept m.now }
    {
        least_of(&self.groups, m)
    }

    /// The least place of the patterns that have the header.
    #[inline(always)]
    pub fn least_of_header(&self, h: &Header12) -> Option<u16>
        ensures { (kept : List PlacedPattern) → StandsFor kept self.now → result ≡ least_place kept (exact_of h.now) }
    {
        least_of_header(&self.groups, h)
    }
}
