ghost use Rattle.std.specs.Prelude.{ℕ, ◌≡◌, ◌+◌, ◌-◌, ◌^◌, ◌<◌, List, [], ◌∷◌, IfOk, nat_lt, if◌then◌else◌, Some, None};
ghost use Rattle.xid_map.specs.Requests.{RequestCall, Issue, MarkError, MarkDone, Forget, issued, physical_of, found, RequestsStand};

use crate::asked::{Asked, Issued};
use circular_buffer::HeapCircularBuffer;
use std::alloc::{AllocError, Global};
use std::marker::Model;

/// How many requests are remembered.
const REMEMBERED: usize = 4096;

/// How many numbers stand for requests in a transaction id.
const NUMBERS: u64 = 0x0100_0000;

/// The requests of one slice to one switch. Only the last 4,096 are remembered. After `new` no call takes
/// memory.
#[derive(Drop)]
pub struct XidMap {
    slot: u8,
    issued: u64,
    ring: HeapCircularBuffer<Issued>,
}

impl Model for XidMap {
    ghost use Rattle.std.specs.Prelude.{◌≡◌};
    ghost use Rattle.xid_map.specs.Requests.{Requests};

    ghost Value = { Requests };

    ghost view = { λ m. record { slot = m.slot; issued = m.issued; remembered = m.ring.items } };

    ghost invariant = { λ m. m.ring.capacity ≡ 4096 };
}

impl XidMap {
    /// The map of the slice in the slot, which has issued nothing.
    #[tactic(auto, unfolding(crate::specs::Requests::requests, crate::specs::Requests::remembered))]
    pub fn new(alloc: Global, slot: u8) -> Result<XidMap, AllocError>
        ensures stands { IfOk result (λ m. RequestsStand slot [] m) }
        ensures issued { IfOk result (λ m. m.issued ≡ 0) }
    {
        Ok(XidMap {
            slot,
            issued: 0,
            ring: HeapCircularBuffer::with_capacity(alloc, REMEMBERED)?,
        })
    }

    /// The number and the transaction id of the next request.
    pub fn next(&self) -> (u64, u32)
        ensures value { (slot : ℕ) (calls : List RequestCall) → RequestsStand slot calls self.now → result ≡ (issued calls, physical_of slot (issued calls)) }
        ensures number { result.0 ≡ self.now.issued }
    {
        let slot = self.slot;
        let low = (self.issued % NUMBERS) as u32;
        (self.issued, u32::from(slot) * NUMBERS as u32 + low)
    }

    /// Issues a request, and gives the transaction id under which the switch sees it.
    pub fn issue(&mut self, asked: Asked) -> u32
        requires { self.old.issued < 2 ^ 62 }
        ensures value { (slot : ℕ) (calls : List RequestCall) → RequestsStand slot calls self.old → result ≡ physical_of slot (issued calls) }
        ensures stands { (slot : ℕ) (calls : List RequestCall) → RequestsStand slot calls self.old → RequestsStand slot (Issue asked ∷ calls) self.new }
        ensures issued { self.new.issued ≡ self.old.issued + 1 }
    {
        let (number, physical) = self.next();
        self.ring.push_front(Issued {
            number,
            asked,
            failed: false,
            done: false,
        });
        self.issued += 1;
        physical
    }

    /// The remembered request that the switch sees under the transaction id.
    pub fn find(&self, physical: u32) -> Option<Issued>
        ensures { (slot : ℕ) (calls : List RequestCall) → RequestsStand slot calls self.now → result ≡ found slot physical calls }
    {
        let physical = u64::from(physical);
        if physical / NUMBERS != u64::from(self.slot) {
            return None;
        }
        let place = (self.issued % NUMBERS + (NUMBERS - 1) - physical % NUMBERS) % NUMBERS;
        self.ring.get(place as usize).copied()
    }

    /// How many requests were issued after the one of the number, if there was one.
    fn place(&self, number: u64) -> Option<usize>
        ensures { result ≡ (if nat_lt number self.now.issued then Some (self.now.issued - 1 - number) else None) }
    {
        if number < self.issued {
            Some((self.issued - 1 - number) as usize)
        } else {
            None
        }
    }

    /// The switch answered the request with an error. Nothing changes where it isn't remembered.
    pub fn mark_error(&mut self, number: u64)
        ensures stands { (slot : ℕ) (calls : List RequestCall) → RequestsStand slot calls self.old → RequestsStand slot (MarkError number ∷ calls) self.new }
        ensures issued { self.new.issued ≡ self.old.issued }
    {
        if let Some(place) = self.place(number) {
            if let Some(request) = self.ring.get_mut(place) {
                request.failed = true;
            }
        }
    }

    /// The switch's reply to the request came. Nothing changes where it isn't remembered.
    pub fn mark_done(&mut self, number: u64)
        ensures stands { (slot : ℕ) (calls : List RequestCall) → RequestsStand slot calls self.old → RequestsStand slot (MarkDone number ∷ calls) self.new }
        ensures issued { self.new.issued ≡ self.old.issued }
    {
        if let Some(place) = self.place(number) {
            if let Some(request) = self.ring.get_mut(place) {
                request.done = true;
            }
        }
    }

    /// Forgets all requests. The numbers go on.
    #[tactic(auto, unfolding(crate::specs::Requests::requests, crate::specs::Requests::remembered))]
    pub fn forget_all(&mut self)
        ensures stands { (slot : ℕ) (calls : List RequestCall) → RequestsStand slot calls self.old → RequestsStand slot (Forget ∷ calls) self.new }
        ensures issued { self.new.issued ≡ self.old.issued }
    {
        self.ring.clear();
    }
}
