//! The entries that a slice has booked.

ghost use Rattle.std.specs.Prelude.{◌≡◌, ◌≢◌, ◌+◌, ◌^◌, ◌<◌, ◌≤◌, List, [], ◌∷◌, length, find, slice_get, AllPairs, OnOk, OnErr, if◌then◌else◌};
ghost use Rattle.flow_book.specs.declared.booked.Booked.{Booked as BookedPair};
ghost use Rattle.flow_book.specs.Order.{ArePairsInOrder, IsBookOf};
ghost use Rattle.flow_book.specs.Books.{BookCall, Added, Removed, Failed, is_pair, is_first, without, newcomers_in, fits_in, overlaps_in, book, booking, BookStands};

use crate::adding::{book_again, gather, settle_all};
use crate::booked::Booked;
use crate::entries::Entries;
use crate::entry::Entry;
use crate::finding::place_of;
use crate::pairs;
use of10_match::Match;
use std::alloc::{AllocError, Global};
use std::marker::Model;

/// The pairs of a match and a priority that one slice has booked at one switch. Only `reserve` takes
/// memory.
#[derive(Drop)]
pub struct FlowBook {
    // in ascending order of priority, then of the 40 bytes of the match
    entries: Entries,
    // empty between calls: a flow-mod's newcomers are compared with what was booked before it, so all are
    // collected before the first of them is booked
    fresh: Vec<Entry>,
}

impl Model for FlowBook {
    ghost use Rattle.std.specs.Prelude.{◌≡◌, ◌^◌, ◌<◌, [], length, min, vec_len, vec_capacity};
    ghost use Rattle.flow_book.specs.Order.{ArePairsInOrder};
    ghost use Rattle.flow_book.specs.Books.{Book};

    ghost Value = { Book };

    ghost view = { λ b. record { booked = b.entries.booked; room = min b.entries.room (vec_capacity b.fresh) } };

    ghost invariant = { λ b. ArePairsInOrder b.entries.booked × (length b.entries.booked < 2 ^ 32) × (b.fresh.items ≡ []) × (vec_len b.fresh ≡ 0) };
}

impl FlowBook {
    /// A book in which nothing is booked.
    #[tactic(auto, unfolding(crate::specs::Books::book))]
    pub fn new(alloc: Global) -> FlowBook
        ensures stands { BookStands [] result }
        ensures booked { result.booked ≡ [] }
    {
        FlowBook {
            entries: Entries::new(alloc),
            fresh: Vec::new(alloc),
        }
    }

    /// How many pairs are booked. They are in ascending order of priority, then of the 40 bytes of the match.
    pub fn count(&self) -> u32
        ensures order { ArePairsInOrder self.now.booked }
        ensures answer { (calls : List BookCall) → BookStands calls self.now → result ≡ length (book calls) }
        ensures value { result ≡ length self.now.booked }
    {
        self.entries.len() as u32
    }

    /// The pair at an index, from 0, in their order; `None` where there are no more.
    pub fn at(&self, index: u32) -> Option<Booked>
        ensures order { ArePairsInOrder self.now.booked }
        ensures answer { (calls : List BookCall) → BookStands calls self.now → (pairs : List BookedPair) × IsBookOf calls pairs × (result ≡ slice_get pairs index) }
        ensures value { result ≡ slice_get self.now.booked index }
    {
        if index < self.count() {
            Some(*self.entries.at(index as usize).booked())
        } else {
            None
        }
    }

    /// How many of the pieces a flow-mod with this command and priority would book that aren't booked
    /// (OpenFlow 1.0.0, section 4.6). Of an ADD or a MODIFY_STRICT it books those whose pair isn't booked, of
    /// a MODIFY those that include no booked match, and of a delete none.
    pub fn newcomers(&self, command: u16, pieces: &[Match], priority: u16) -> u32
        requires distinct { AllPairs (λ a b. a ≢ b) pieces.now }
        requires few { length pieces.now < 2 ^ 32 }
        ensures answer { (calls : List BookCall) → BookStands calls self.now → result ≡ newcomers_in command pieces.now priority (book calls) }
        ensures value { result ≡ newcomers_in command pieces.now priority self.now.booked }
    {
        pairs::newcomers(&self.entries, command, pieces, priority) as u32
    }

    /// Whether the booked pairs and the newcomers are together within the quota.
    pub fn fits(&self, command: u16, pieces: &[Match], priority: u16, quota: u32) -> bool
        requires distinct { AllPairs (λ a b. a ≢ b) pieces.now }
        requires few { length pieces.now < 2 ^ 32 }
        ensures answer { (calls : List BookCall) → BookStands calls self.now → result ≡ fits_in command pieces.now priority quota (book calls) }
        ensures value { result ≡ fits_in command pieces.now priority quota self.now.booked }
    {
        let newcomers = self.newcomers(command, pieces, priority);
        u64::from(self.count()) + u64::from(newcomers) <= u64::from(quota)
    }

    /// Whether a piece shares a header with a booked match of the priority (OpenFlow 1.0.0, section 4.6).
    pub fn overlaps(&self, pieces: &[Match], priority: u16) -> bool
        ensures answer { (calls : List BookCall) → BookStands calls self.now → result ≡ overlaps_in pieces.now priority (book calls) }
        ensures value { result ≡ overlaps_in pieces.now priority self.now.booked }
    {
        pairs::overlaps(&self.entries, pieces, priority)
    }

    /// Takes memory for so many newcomers.
    pub fn reserve(&mut self, n: u32) -> Result<(), AllocError>
        ensures room { OnOk result (n ≤ self.new.room) }
        ensures kept { self.old.room ≤ self.new.room }
        ensures booked { self.new.booked ≡ self.old.booked }
        ensures stands { (calls : List BookCall) → BookStands calls self.old → BookStands calls self.new }
        ensures full { OnErr result (self.old.room < n) }
    {
        match self.fresh.reserve(n as usize) {
            Ok(()) => self.entries.reserve(n as usize),
            Err(fault) => Err(fault),
        }
    }

    /// A flow-mod with this command and priority was sent on in these pieces by the request of the number,
    /// and asks or not to hear of removals.
    pub fn added(&mut self, command: u16, pieces: &[Match], priority: u16, asked: bool, number: u64)
        requires distinct { AllPairs (λ a b. a ≢ b) pieces.now }
        requires few { length pieces.now < 2 ^ 32 }
        requires room { newcomers_in command pieces.now priority self.old.booked ≤ self.old.room }
        requires count { length self.old.booked + newcomers_in command pieces.now priority self.old.booked < 2 ^ 32 }
        ensures stands { (calls : List BookCall) → BookStands calls self.old → BookStands (Added command pieces.now priority asked number ∷ calls) self.new }
        ensures count { length self.new.booked ≡ length self.old.booked + newcomers_in command pieces.now priority self.old.booked }
        ensures room { self.old.room ≤ self.new.room + newcomers_in command pieces.now priority self.old.booked }
    {
        gather(
            &self.entries,
            command,
            pieces,
            priority,
            asked,
            number,
            &mut self.fresh,
        );
        book_again(&mut self.entries, command, pieces, priority, asked);
        settle_all(&mut self.entries, &mut self.fresh);
    }

    /// The pair as it is booked; `None` where it isn't.
    pub fn booked(&self, pattern: &Match, priority: u16) -> Option<Booked>
        ensures answer { (calls : List BookCall) → BookStands calls self.now → result ≡ booking pattern.now priority calls }
        ensures value { result ≡ find (is_pair pattern.now priority) self.now.booked }
    {
        match place_of(&self.entries, pattern, priority) {
            Ok(place) => Some(*self.entries.at(place).booked()),
            Err(_) => None,
        }
    }

    /// The pair was removed: it is as `booked` says, and isn't booked any more.
    pub fn removed(&mut self, pattern: &Match, priority: u16) -> Option<Booked>
        ensures answer { (calls : List BookCall) → BookStands calls self.old → result ≡ booking pattern.now priority calls }
        ensures value { result ≡ find (is_pair pattern.now priority) self.old.booked }
        ensures stands { (calls : List BookCall) → BookStands calls self.old → BookStands (Removed pattern.now priority ∷ calls) self.new }
        ensures booked { self.new.booked ≡ without pattern.now priority self.old.booked }
        ensures kept { self.old.room ≤ self.new.room }
    {
        match place_of(&self.entries, pattern, priority) {
            Ok(place) => Some(self.entries.remove(place)),
            Err(_) => None,
        }
    }

    /// The request of the number failed for the pair, which isn't booked any more if that request booked
    /// it first.
    pub fn failed(&mut self, number: u64, pattern: &Match, priority: u16)
        ensures stands { (calls : List BookCall) → BookStands calls self.old → BookStands (Failed number pattern.now priority ∷ calls) self.new }
        ensures booked { self.new.booked ≡ (if is_first number (find (is_pair pattern.now priority) self.old.booked) then without pattern.now priority self.old.booked else self.old.booked) }
        ensures kept { self.old.room ≤ self.new.room }
    {
        if self.is_first(number, pattern, priority) {
            self.removed(pattern, priority);
        }
    }

    /// Whether the pair is booked, and the request of the number booked it first.
    fn is_first(&self, number: u64, pattern: &Match, priority: u16) -> bool
        ensures value { result ≡ is_first number (find (is_pair pattern.now priority) self.now.booked) }
        ensures order { ArePairsInOrder self.now.booked }
    {
        let _ = &self.entries;
        self.booked(pattern, priority)
            .is_some_and(|booked| booked.number == number)
    }
}
