//! The statistics that are collected for a slice, beside a plain list of them.

ghost use Rattle.std.specs.Prelude.{◌<◌, ◌^◌, length};

use crate::tests::tables::{Part, expect_alike, expect_seen, play};
use draws::Draws;
use expectations::told;
use std::alloc::{AllocError, Global};
use std::test::Fail;
use xid_map::Collections;

/// The most bytes of entries that are collected for a request.
const LIMIT: usize = 524_288;

/// What collections are called for.
enum Call {
    /// It is collected for so many requests, from number 0 on.
    StartEach(u64),
    /// The entries that are collected for a request, which ends.
    Finish(u64),
    Room(u64),
    Sums(u64),
}

/// What is collected for requests.
#[derive(Drop)]
struct Collected {
    alloc: Global,
    collections: Collections,
}

impl Part<Call> for Collected {
    fn answer(&mut self, call: &Call) -> Result<String, AllocError> {
        match *call {
            Call::StartEach(count) => {
                for number in 0..count {
                    self.collections.start(number);
                }
                told(self.alloc, &count)
            }
            Call::Finish(number) => match self.collections.finish(number) {
                Some(entries) => told(self.alloc, &entries.as_slice()),
                None => told(self.alloc, &"none"),
            },
            Call::Room(number) => told(self.alloc, &self.collections.room(number)),
            Call::Sums(number) => told(self.alloc, &self.collections.sums(number)),
        }
    }
}

const NINE: &[(Call, &str)] = &[
    (Call::StartEach(9), "9"),
    (Call::Finish(0), "\"none\""),
    (Call::Finish(1), "[]"),
    (Call::Finish(1), "\"none\""),
    (Call::Room(2), "524288"),
    (Call::Sums(2), "Some((0, 0, 0))"),
];

#[test]
fn the_oldest_of_nine_collections_is_given_up(rt: HostRuntime) -> Result<(), Fail> {
    let alloc = rt.alloc();
    let collections = Collections::new(alloc)?;
    play(&mut Collected { alloc, collections }, NINE)
}

/// What can come up where the collections are called.
const CASES: &[&str] = &[
    "starts",
    "starts again",
    "gives up the oldest",
    "adds",
    "adds to none",
    "leaves out",
    // an entry after one that was left out, which alone would be within the limit
    "leaves out a later one",
    // an entry after one that was left out, which would be left out alone
    "leaves out both",
    "sums",
    "sums for none",
    "finishes",
    "finishes none",
    "forgets",
];

/// What never is to come up: the two finish with other entries.
const DIFFERS: &str = "differs";

/// One collection of the plain program.
#[derive(Drop)]
struct Plain {
    number: u64,
    entries: Vec<u8>,
    passed: bool,
    sums: (u64, u64, u32),
}

impl Plain {
    fn room(&self) -> usize {
        if self.passed {
            0
        } else {
            LIMIT.saturating_sub(self.entries.len())
        }
    }

    /// Adds the entry, or leaves it out. Which case is it?
    fn add(&mut self, entry: &[u8]) -> Result<&'static str, AllocError> {
        let within = self.entries.len().saturating_add(entry.len()) <= LIMIT;
        if self.passed {
            return Ok(if within {
                "leaves out a later one"
            } else {
                "leaves out both"
            });
        }
        if !within {
            self.passed = true;
            return Ok("leaves out");
        }
        self.entries.extend_from_slice(entry)?;
        Ok("adds")
    }
}

/// The collections beside those of the plain program, the oldest first, and what came up.
#[derive(Drop)]
struct Both {
    alloc: Global,
    collections: Collections,
    all: Vec<Plain>,
    seen: Vec<&'static str>,
}

impl Both {
    /// The place of a request's collection in the list, or the length of the list.
    fn place(&self, number: u64) -> usize {
        let mut place = 0usize;
        for one in &self.all {
            if one.number == number {
                return place;
            }
            place = place.saturating_add(1);
        }
        self.all.len()
    }

    /// Whether both have collected as much for the request; and, where it is asked, the same entries.
    fn agree(&self, number: u64, with_entries: bool) -> bool {
        let entries = self.collections.entries(number);
        let sums = self.collections.sums(number);
        let room = self.collections.room(number) as usize;
        match (self.all.get(self.place(number)), entries) {
            (Some(one), Some(entries)) => {
                let wanted = one.entries.as_slice();
                entries.len() == wanted.len()
                    && sums == Some(one.sums)
                    && room == one.room()
                    && (!with_entries || entries == wanted)
            }
            (None, None) => sums.is_none() && room == 0,
            _ => false,
        }
    }

    fn start(&mut self, number: u64) -> Result<&'static str, AllocError> {
        self.collections.start(number);
        if self.place(number) < self.all.len() {
            return Ok("starts again");
        }
        let is_full = self.all.len() == 8;
        if is_full {
            self.all.remove(0);
        }
        let (entries, passed, sums) = (Vec::new(self.alloc), false, (0, 0, 0));
        self.all.push(Plain {
            number,
            entries,
            passed,
            sums,
        })?;
        Ok(if is_full {
            "gives up the oldest"
        } else {
            "starts"
        })
    }

    fn add(&mut self, number: u64, entry: &[u8]) -> Result<&'static str, AllocError>
        requires { length entry.now < 2 ^ 32 }
    {
        self.collections.reserve(number, entry.len() as u32)?;
        self.collections.add(number, entry);
        let place = self.place(number);
        match self.all.get_mut(place) {
            Some(one) => one.add(entry),
            None => Ok("adds to none"),
        }
    }

    fn sum(&mut self, number: u64, packets: u64, bytes: u64) -> &'static str {
        self.collections.sum(number, packets, bytes);
        let place = self.place(number);
        match self.all.get_mut(place) {
            Some(one) => {
                let (p, b, flows) = one.sums;
                one.sums = (
                    p.wrapping_add(packets),
                    b.wrapping_add(bytes),
                    flows.wrapping_add(1),
                );
                "sums"
            }
            None => "sums for none",
        }
    }

    fn finish(&mut self, number: u64) -> &'static str {
        let entries = self.collections.finish(number);
        let place = self.place(number);
        if place < self.all.len() {
            let one = self.all.remove(place);
            let alike = match &entries {
                Some(entries) => entries.as_slice() == one.entries.as_slice(),
                None => false,
            };
            return if alike { "finishes" } else { DIFFERS };
        }
        if entries.is_none() {
            "finishes none"
        } else {
            DIFFERS
        }
    }

    fn forget_all(&mut self) -> &'static str {
        let is_empty = self.all.is_empty();
        self.collections.forget_all();
        self.all.clear();
        if is_empty { "forgets none" } else { "forgets" }
    }

    /// A call that is drawn, about the request. Whether both did the same.
    fn step(&mut self, draws: &mut Draws, number: u64, pattern: &[u8]) -> Result<bool, AllocError> {
        let case = match draws.number_below(200) {
            0 => self.forget_all(),
            1..30 => self.start(number)?,
            30..36 => self.finish(number),
            36..140 => {
                let from = draws.number_below(200_000) as usize;
                let large = number < 3 && draws.number_below(2) == 0;
                let most = if large { 200_000 } else { 200 };
                let length = draws.number_below(most) as usize;
                match pattern.get(from..from + length) {
                    Some(entry) if entry.len() < LIMIT => self.add(number, entry)?,
                    _ => DIFFERS,
                }
            }
            _ => self.sum(
                number,
                draws.number_below(1 << 31) << 33,
                draws.number_below(1 << 31) << 33,
            ),
        };
        self.seen.push(case)?;
        Ok(case != DIFFERS)
    }
}

/// Bytes of which entries are pieces.
fn pattern(alloc: Global) -> Result<Vec<u8>, AllocError> {
    let mut bytes = Vec::new(alloc);
    for place in 0..400_000u32 {
        bytes.push((place % 251) as u8)?;
    }
    Ok(bytes)
}

#[test]
fn collects_as_the_list_of_collections(rt: HostRuntime) -> Result<(), Fail> {
    let alloc = rt.alloc();
    let mut draws = Draws::new(3);
    let pattern = pattern(alloc)?;
    let mut both = Both {
        alloc,
        collections: Collections::new(alloc)?,
        all: Vec::new(alloc),
        seen: Vec::new(alloc),
    };
    for step in 0..5_000u32 {
        let number = draws.number_below(10);
        let mut alike = both.step(&mut draws, number, &pattern)?;
        for request in 0..10u64 {
            alike &= both.agree(request, request == number && step % 64 == 0);
        }
        expect_alike(step, alike)?;
    }
    expect_seen(&both.seen, CASES, 20)
}
