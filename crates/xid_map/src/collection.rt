ghost use Rattle.std.specs.Prelude.{◌≡◌, ◌+◌, ◌-◌, ◌%◌, ◌^◌, ◌≤◌, ◌==◌, ◌++◌, [], length, nat_le, ◌<◌, if◌then◌else◌, OnOk, OnErr};

use of10_action::Bytes;
use std::alloc::{AllocError, Global};
use std::marker::Model;

/// The most bytes of entries that a collection keeps.
const MOST_BYTES: u32 = 524_288;

/// What is collected for one request.
#[derive(Drop)]
pub struct Collection {
    number: u64,
    entries: Vec<u8>,
    room: u32,
    packets: u64,
    bytes: u64,
    flows: u32,
}

impl Model for Collection {
    ghost use Rattle.std.specs.Prelude.{◌-◌, vec_len, vec_capacity};
    ghost use Rattle.xid_map.specs.Collections.{Collected};

    ghost Value = { Collected };

    ghost view = { λ c. record { gathered = record { number = c.number; entries = c.entries.items; room = c.room; packets = c.packets; bytes = c.bytes; flows = c.flows }; spare = vec_capacity c.entries - vec_len c.entries } };
}

impl Collection {
    pub fn new(alloc: Global, number: u64) -> Collection
        ensures { result.gathered ≡ record { number = number; entries = []; room = 524288; packets = 0; bytes = 0; flows = 0 } }
    {
        Collection {
            number,
            entries: Vec::new(alloc),
            room: MOST_BYTES,
            packets: 0,
            bytes: 0,
            flows: 0,
        }
    }

    pub fn is_of(&self, number: u64) -> bool
        ensures { result ≡ (self.now.gathered.number == number) }
    {
        self.number == number
    }

    pub fn room(&self) -> u32
        ensures { result ≡ self.now.gathered.room }
    {
        self.room
    }

    pub fn entries(&self) -> &[u8]
        ensures { result.now ≡ self.now.gathered.entries }
    {
        &self.entries
    }

    pub fn sums(&self) -> (u64, u64, u32)
        ensures { result ≡ (self.now.gathered.packets, self.now.gathered.bytes, self.now.gathered.flows) }
    {
        (self.packets, self.bytes, self.flows)
    }

    pub fn into_entries(self) -> Bytes
        ensures { result ≡ self.gathered.entries }
    {
        Bytes::from_vec(self.entries)
    }

    /// Takes memory for so many more bytes of entries.
    pub fn reserve(&mut self, bytes: u32) -> Result<(), AllocError>
        ensures gathered { self.new.gathered ≡ self.old.gathered }
        ensures ok { OnOk result (bytes ≤ self.new.spare) }
        ensures kept { self.old.spare ≤ self.new.spare }
        ensures full { OnErr result (self.old.spare < bytes) }
    {
        self.entries.reserve(bytes as usize)
    }

    /// Appends the entry, or leaves it and all later ones out.
    pub fn add(&mut self, entry: &[u8])
        requires { length entry.now ≤ self.old.spare }
        ensures gathered { self.new.gathered ≡ (if nat_le (length entry.now) self.old.gathered.room then record self.old.gathered { entries = self.old.gathered.entries ++ entry.now; room = self.old.gathered.room - length entry.now } else record self.old.gathered { room = 0 }) }
        ensures spare { self.old.spare ≤ self.new.spare + length entry.now }
    {
        if entry.len() > self.room as usize {
            self.room = 0;
            return;
        }
        match self.entries.extend_from_slice(entry) {
            Ok(()) => self.room -= entry.len() as u32,
            Err(_) => unreachable!(),
        }
    }

    pub fn sum(&mut self, packets: u64, bytes: u64)
        ensures gathered { self.new.gathered ≡ record self.old.gathered { packets = (self.old.gathered.packets + packets) % 2 ^ 64; bytes = (self.old.gathered.bytes + bytes) % 2 ^ 64; flows = (self.old.gathered.flows + 1) % 2 ^ 32 } }
        ensures spare { self.new.spare ≡ self.old.spare }
    {
        self.packets = self.packets.wrapping_add(packets);
        self.bytes = self.bytes.wrapping_add(bytes);
        self.flows = self.flows.wrapping_add(1);
    }
}
