//! The packets that the switch holds for a slice, under the slice's numbers.

ghost use Rattle.std.specs.Prelude.{ℕ, ◌≡◌, ◌+◌, ◌%◌, ◌^◌, ◌<◌, ◌==◌, not, List, [], ◌∷◌, filter, position, IfOk};
ghost use Rattle.std.specs.List.{list_any};
ghost use Rattle.of10_model.specs.Header.{Header};
ghost use Rattle.buffer_map.specs.Buffers.{BufferCall, Give, Lose, Use, Drop, given, numbered, is_recent, held, held_under, BuffersStand};
ghost use Rattle.buffer_map.specs.Places.{IsInOrder};

use crate::held::Held;
use crate::physicals::Physicals;
use of10_match::Header12;
use std::alloc::{AllocError, Global};
use std::collections::VecDeque;
use std::marker::Model;

/// How many of the packets given are held at most.
const REMEMBERED: u64 = 256;

/// How many numbers stand for packets.
const NUMBERS: u64 = 0x0100_0000;

/// The packets that the switch buffers for one slice. Only the last 256 given are held. After `new` no call
/// takes memory.
#[derive(Drop)]
pub struct BufferMap {
    given: u64,
    // the newest first
    packets: VecDeque<Held>,
    // the switch's numbers of these packets
    physicals: Physicals,
}

impl Model for BufferMap {
    ghost use Rattle.std.specs.Prelude.{◌≤◌, ◌%◌};
    ghost use Rattle.std.specs.VecDeque.{deque_capacity};
    ghost use Rattle.buffer_map.specs.Buffers.{Buffers};
    ghost use Rattle.buffer_map.specs.Places.{IsInOrder, AreNumbersOf};

    ghost Value = { Buffers };

    ghost view = { λ m. record { given = m.given; held = m.packets.items } };

    ghost invariant = { λ m. IsInOrder m.given m.given m.packets.items × AreNumbersOf m.physicals m.packets.items × (256 ≤ deque_capacity m.packets) };
}

/// Whether the oldest packet is not among the last 256 once another one is given after so many.
fn is_oldest_past(packets: &VecDeque<Held>, given: u64) -> bool
    requires { IsInOrder given given packets.now.items }
    ensures { result ≡ list_any (λ b. not (is_recent (given + 1) b)) packets.now.items }
{
    match packets.back() {
        Some(oldest) => REMEMBERED <= given - oldest.ordinal,
        None => false,
    }
}

/// Where the packet stands that the slice knows by the number.
fn place_of(packets: &VecDeque<Held>, number: u32) -> Option<usize>
    ensures value { result ≡ position (numbered number) packets.now.items }
{
    packets
        .iter()
        .position(|packet| packet.ordinal % NUMBERS == u64::from(number))
}

impl BufferMap {
    /// The map of a slice to which no packet was given.
    #[tactic(auto, unfolding(crate::specs::Buffers::held))]
    pub fn new(alloc: Global) -> Result<BufferMap, AllocError>
        ensures stands { IfOk result (λ m. BuffersStand [] m) }
        ensures given { IfOk result (λ m. m.given ≡ 0) }
        ensures held { IfOk result (λ m. m.held ≡ []) }
    {
        Ok(BufferMap {
            given: 0,
            packets: VecDeque::with_capacity(alloc, REMEMBERED as usize)?,
            physicals: Physicals::new(alloc)?,
        })
    }

    /// How many packets were given.
    pub fn count(&self) -> u64
        ensures { result ≡ self.now.given }
    {
        self.given
    }

    /// The number of the next packet.
    pub fn next(&self) -> u32
        ensures value { result ≡ self.now.given % 2 ^ 24 }
        ensures number { (calls : List BufferCall) → BuffersStand calls self.now → result ≡ given calls % 2 ^ 24 }
    {
        (self.given % NUMBERS) as u32
    }

    /// Forgets the oldest packet where another one given puts it past the last 256.
    fn forget_oldest(&mut self)
        ensures given { self.new.given ≡ self.old.given }
        ensures held { self.new.held ≡ filter (is_recent (self.old.given + 1)) self.old.held }
        ensures order { IsInOrder (self.old.given + 1) self.old.given self.new.held }
    {
        if is_oldest_past(&self.packets, self.given) {
            if let Some(oldest) = self.packets.pop_back() {
                self.physicals.remove(oldest.physical);
            }
        }
    }

    /// Holds the packet that the switch buffers under the physical number, and gives the slice's number of it.
    pub fn give(&mut self, physical: u32, header: Header12) -> u32
        requires { self.old.given < 2 ^ 62 }
        ensures value { result ≡ self.old.given % 2 ^ 24 }
        ensures given { self.new.given ≡ self.old.given + 1 }
        ensures held { self.new.held ≡ record { ordinal = self.old.given; physical = physical; header = header } ∷ filter (is_recent (self.old.given + 1)) self.old.held }
        ensures stands { (calls : List BufferCall) → BuffersStand calls self.old → BuffersStand (Give physical header ∷ calls) self.new }
    {
        let number = self.next();
        self.forget_oldest();
        let ordinal = self.given;
        self.physicals.add(physical);
        self.packets.push_front_reserved(Held {
            ordinal,
            physical,
            header,
        });
        self.given = ordinal + 1;
        number
    }

    /// The packet that is held under the slice's number.
    pub fn held(&self, number: u32) -> Option<Held>
        ensures value { result ≡ held_under number self.now.held }
        ensures packet { (calls : List BufferCall) → BuffersStand calls self.now → result ≡ held_under number (held calls) }
    {
        match place_of(&self.packets, number) {
            Some(place) => Some(self.packets[place]),
            None => None,
        }
    }

    /// The packet that is held under the slice's number, which is then held no more.
    pub fn use_up(&mut self, number: u32) -> Option<Held>
        ensures value { result ≡ held_under number self.old.held }
        ensures packet { (calls : List BufferCall) → BuffersStand calls self.old → result ≡ held_under number (held calls) }
        ensures given { self.new.given ≡ self.old.given }
        ensures held { self.new.held ≡ filter (λ b. not (numbered number b)) self.old.held }
        ensures stands { (calls : List BufferCall) → BuffersStand calls self.old → BuffersStand (Use number ∷ calls) self.new }
    {
        match place_of(&self.packets, number) {
            Some(place) => {
                let used = self.packets[place];
                self.packets.remove(place);
                self.physicals.remove(used.physical);
                Some(used)
            }
            None => None,
        }
    }

    /// Loses what is held under the physical number, which the switch has reused. A number that is not held
    /// costs a search.
    pub fn lose(&mut self, physical: u32)
        ensures given { self.new.given ≡ self.old.given }
        ensures held { self.new.held ≡ filter (λ b. not (b.physical == physical)) self.old.held }
        ensures stands { (calls : List BufferCall) → BuffersStand calls self.old → BuffersStand (Lose physical ∷ calls) self.new }
    {
        if self.physicals.contains(physical) {
            self.physicals.remove_all(physical);
            self.packets.retain(|packet| packet.physical != physical);
        }
    }

    /// Drops all packets. The numbers go on.
    #[tactic(auto, unfolding(crate::specs::Buffers::held))]
    pub fn drop_all(&mut self)
        ensures given { self.new.given ≡ self.old.given }
        ensures held { self.new.held ≡ [] }
        ensures stands { (calls : List BufferCall) → BuffersStand calls self.old → BuffersStand (Drop ∷ calls) self.new }
    {
        self.packets.clear();
        self.physicals.clear();
    }
}
