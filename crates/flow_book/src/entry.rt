//! What a book keeps of a pair.

ghost use Rattle.std.specs.Prelude.{◌≡◌};
ghost use Rattle.std.specs.Ordering.{nat_cmp, ordering_then};
ghost use Rattle.std.specs.Cmp.Lexicographic.{slice_cmp};
ghost use Rattle.of10_model.specs.Normal.{IsNormal};
ghost use Rattle.of10_model.specs.Spelling.{Spell};

use crate::booked::Booked;
use std::cmp::Ordering;
use std::marker::Model;

/// A booked pair beside the 40 bytes of its match, by which pairs of one priority are in order.
#[derive(Drop)]
pub(crate) struct Entry {
    spelled: [u8; 40],
    booked: Booked,
}

impl Model for Entry {
    ghost use Rattle.std.specs.Prelude.{◌≡◌};
    ghost use Rattle.of10_model.specs.Normal.{IsNormal};
    ghost use Rattle.of10_model.specs.Spelling.{Spell};
    ghost use Rattle.flow_book.specs.declared.booked.Booked.{Booked};

    ghost Value = { Booked };

    ghost view = { λ e. e.booked };

    ghost invariant = { λ e. (e.spelled ≡ Spell e.booked.pattern) × IsNormal e.booked.pattern };
}

impl Entry {
    pub(crate) fn new(booked: Booked) -> Entry
        ensures value { result ≡ booked }
        ensures normal { IsNormal booked.pattern }
    {
        Entry {
            spelled: booked.pattern.encode(),
            booked,
        }
    }

    pub(crate) fn booked(&self) -> &Booked
        ensures { result.now ≡ self.now }
    {
        &self.booked
    }

    pub(crate) fn set_asked(&mut self, asked: bool)
        ensures { self.new ≡ record self.old { asked = asked } }
    {
        self.booked.asked = asked;
    }

    /// How the entry's pair stands to one of this priority whose match is spelled so.
    pub(crate) fn stands_to(&self, priority: u16, spelled: &[u8; 40]) -> Ordering
        ensures { result ≡ ordering_then (nat_cmp self.now.priority priority) (slice_cmp nat_cmp (Spell self.now.pattern) spelled.now) }
    {
        match self.booked.priority.cmp(&priority) {
            Ordering::Equal => self.spelled.cmp(spelled),
            other => other,
        }
    }

    /// How its match is spelled.
    pub(crate) fn spelled(&self) -> &[u8; 40]
        ensures spelled { result.now ≡ Spell self.now.pattern }
        ensures normal { IsNormal self.now.pattern }
    {
        &self.spelled
    }
}
