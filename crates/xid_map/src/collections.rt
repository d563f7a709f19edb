ghost use Rattle.std.specs.Prelude.{ℕ, ◌≡◌, ◌≢◌, ◌+◌, ◌<◌, ◌==◌, List, [], ◌∷◌, length, take, vec_capacity, find, position, IfOk, IfSome, IsTrue, OnOk, OnErr, option_map, option_copied};
ghost use Rattle.xid_map.specs.Collections.{CollectionCall, Start, Add, Sum, Finish, EndAll, is_among, collecting, collection_of, entries_of, sums_of, room_of, HasRoomToCollect, CollectionsStand};

use crate::collection::Collection;
use of10_action::Bytes;
use std::alloc::{AllocError, Global};
use std::marker::Model;

/// How many requests collect at once.
const COLLECTIONS: usize = 8;

/// The statistics that are collected for one slice's requests to one switch: for at most eight at once.
/// After `new` and `reserve` no call takes memory.
#[derive(Drop)]
pub struct Collections {
    alloc: Global,
    // the newest first
    all: Vec<Collection>,
}

impl Model for Collections {
    ghost use Rattle.std.specs.Prelude.{◌≤◌, List, length, vec_capacity};
    ghost use Rattle.xid_map.specs.Collections.{Collected};

    ghost Value = { List Collected };

    ghost view = { λ c. c.all.items };

    ghost invariant = { λ c. (length c.all.items ≤ 8) × (8 ≤ vec_capacity c.all) };
}

fn place_of(all: &[Collection], number: u64) -> Option<usize>
    ensures value { result ≡ position (λ c. c.gathered.number == number) all.now }
    ensures within { IfSome result (λ place. place < length all.now) }
{
    all.iter().position(|collection| collection.is_of(number))
}

fn collection_for(all: &[Collection], number: u64) -> Option<&Collection>
    ensures { option_copied result ≡ find (λ c. c.gathered.number == number) all.now }
{
    all.iter().find(|collection| collection.is_of(number))
}

/// Gives up the oldest where eight collect, so that there is room for another.
fn make_place(all: &mut Vec<Collection>)
    ensures items { all.new.items ≡ take 7 all.old.items }
    ensures capacity { vec_capacity all.new ≡ vec_capacity all.old }
{
    all.truncate(COLLECTIONS - 1);
}

impl Collections {
    /// No collections, and the room for eight.
    #[tactic(auto, unfolding(crate::specs::Collections::collecting))]
    pub fn new(alloc: Global) -> Result<Collections, AllocError>
        ensures stands { IfOk result (λ c. CollectionsStand [] c) }
        ensures room { IfOk result (λ c. (number bytes : ℕ) → HasRoomToCollect number bytes c) }
    {
        Ok(Collections {
            alloc,
            all: Vec::with_capacity(alloc, COLLECTIONS)?,
        })
    }

    /// Takes memory for so many more bytes of the request's entries.
    pub fn reserve(&mut self, number: u64, bytes: u32) -> Result<(), AllocError>
        ensures room { OnOk result (HasRoomToCollect number bytes self.new) }
        ensures stands { (calls : List CollectionCall) → CollectionsStand calls self.old → CollectionsStand calls self.new }
        ensures kept { (other more : ℕ) → HasRoomToCollect other more self.old → HasRoomToCollect other more self.new }
        ensures full { OnErr result (¬ HasRoomToCollect number bytes self.old) }
    {
        match place_of(&self.all, number) {
            Some(place) => self.all[place].reserve(bytes),
            None => Ok(()),
        }
    }

    /// Starts to collect for the request, unless it collects. Where eight do, the oldest is given up.
    pub fn start(&mut self, number: u64)
        ensures stands { (calls : List CollectionCall) → CollectionsStand calls self.old → CollectionsStand (Start number ∷ calls) self.new }
        ensures again { (calls : List CollectionCall) → CollectionsStand calls self.old → IsTrue (is_among number (collecting calls)) → self.new ≡ self.old }
        ensures kept { (other more : ℕ) → other ≢ number → HasRoomToCollect other more self.old → HasRoomToCollect other more self.new }
    {
        if place_of(&self.all, number).is_some() {
            return;
        }
        make_place(&mut self.all);
        let collection = Collection::new(self.alloc, number);
        match self.all.insert(0, collection) {
            Ok(()) => {}
            Err(_) => unreachable!(),
        }
    }

    /// Adds an entry to what the request collects, or leaves it and all later ones out where they pass the
    /// limit. Nothing changes where it doesn't collect.
    pub fn add(&mut self, number: u64, entry: &[u8])
        requires { HasRoomToCollect number (length entry.now) self.old }
        ensures stands { (calls : List CollectionCall) → CollectionsStand calls self.old → CollectionsStand (Add number entry.now ∷ calls) self.new }
        ensures room { (more : ℕ) → HasRoomToCollect number (length entry.now + more) self.old → HasRoomToCollect number more self.new }
        ensures kept { (other more : ℕ) → other ≢ number → HasRoomToCollect other more self.old → HasRoomToCollect other more self.new }
    {
        if let Some(place) = place_of(&self.all, number) {
            self.all[place].add(entry);
        }
    }

    /// Adds one flow with its packets and bytes to what the request sums. Nothing changes where it doesn't
    /// collect.
    pub fn sum(&mut self, number: u64, packets: u64, bytes: u64)
        ensures stands { (calls : List CollectionCall) → CollectionsStand calls self.old → CollectionsStand (Sum number packets bytes ∷ calls) self.new }
        ensures kept { (other more : ℕ) → HasRoomToCollect other more self.old → HasRoomToCollect other more self.new }
    {
        if let Some(place) = place_of(&self.all, number) {
            self.all[place].sum(packets, bytes);
        }
    }

    /// Ends all collections.
    #[tactic(auto, unfolding(crate::specs::Collections::collecting))]
    pub fn forget_all(&mut self)
        ensures stands { (calls : List CollectionCall) → CollectionsStand calls self.old → CollectionsStand (EndAll ∷ calls) self.new }
        ensures room { (number bytes : ℕ) → HasRoomToCollect number bytes self.new }
    {
        self.all.clear();
    }

    fn collection(&self, number: u64) -> Option<&Collection>
        ensures { (calls : List CollectionCall) → CollectionsStand calls self.now → option_map (λ c. c.gathered) (option_copied result) ≡ collection_of number calls }
    {
        collection_for(&self.all, number)
    }

    /// The entries that the request has collected, the oldest first.
    #[tactic(auto, unfolding(crate::specs::Collections::entries_of))]
    pub fn entries(&self, number: u64) -> Option<&[u8]>
        ensures { (calls : List CollectionCall) → CollectionsStand calls self.now → option_map (λ e. e.now) result ≡ entries_of number calls }
    {
        let collection = self.collection(number)?;
        Some(collection.entries())
    }

    /// The packets, bytes and flows that the request has summed.
    #[tactic(auto, unfolding(crate::specs::Collections::sums_of))]
    pub fn sums(&self, number: u64) -> Option<(u64, u64, u32)>
        ensures { (calls : List CollectionCall) → CollectionsStand calls self.now → result ≡ sums_of number calls }
    {
        let collection = self.collection(number)?;
        Some(collection.sums())
    }

    /// Ends the request's collection, and gives its entries.
    pub fn finish(&mut self, number: u64) -> Option<Bytes>
        ensures value { (calls : List CollectionCall) → CollectionsStand calls self.old → result ≡ entries_of number calls }
        ensures stands { (calls : List CollectionCall) → CollectionsStand calls self.old → CollectionsStand (Finish number ∷ calls) self.new }
        ensures kept { (other more : ℕ) → other ≢ number → HasRoomToCollect other more self.old → HasRoomToCollect other more self.new }
    {
        let place = place_of(&self.all, number)?;
        let collection = self.all.remove(place);
        Some(collection.into_entries())
    }

    /// How many bytes of entries may still be added to what the request collects; 0 where it doesn't.
    #[tactic(auto, unfolding(crate::specs::Collections::room_of))]
    pub fn room(&self, number: u64) -> u32
        ensures { (calls : List CollectionCall) → CollectionsStand calls self.now → result ≡ room_of number calls }
    {
        match self.collection(number) {
            Some(collection) => collection.room(),
            None => 0,
        }
    }
}
