//! The packets that the switch holds for a slice.

use crate::tests::tables::{Part, play};
use buffer_map::BufferMap;
use expectations::told;
use samples::packet;
use std::alloc::{AllocError, Global};
use std::test::Fail;

/// What is done to the packets of a slice.
enum Call {
    /// So many are given, each under the number of the switch that is by 1,000 greater than how many were given before.
    Give(u32),
    /// The switch reuses this number of its own.
    Lose(u32),
    /// The slice uses the packet that it knows by this number.
    Use(u32),
    DropAll,
}

/// The packets, and what was said of them when they were used.
#[derive(Drop)]
struct Packets {
    alloc: Global,
    map: BufferMap,
}

impl Packets {
    fn give(&mut self, count: u32) {
        for _ in 0..count {
            let given = self.map.count();
            if given < 1_000_000 {
                let header = packet(1, 0x0a00_0002, 80);
                self.map.give(given as u32 + 1_000, header);
            }
        }
    }
}

/// A call is followed by a question for the packet under a number. The answer says how many were given; and,
/// of the packet if one is held, how many were given before it, and its number at the switch.
impl Part<(Call, u32)> for Packets {
    fn answer(&mut self, call: &(Call, u32)) -> Result<String, AllocError> {
        let (call, number) = call;
        match *call {
            Call::Give(count) => self.give(count),
            Call::Lose(physical) => self.map.lose(physical),
            Call::Use(number) => {
                if self.map.held(number) != self.map.use_up(number) {
                    return told(self.alloc, &"another packet was used");
                }
            }
            Call::DropAll => self.map.drop_all(),
        }
        let given = self.map.next();
        match self.map.held(*number) {
            Some(held) => told(self.alloc, &(given, held.ordinal, held.physical)),
            None => told(self.alloc, &given),
        }
    }
}

/// Calls one after another, and which packet is held under a number then.
const CALLS: &[((Call, u32), &str)] = &[
    ((Call::Give(256), 0), "(256, 0, 1000)"),
    ((Call::Give(0), 255), "(256, 255, 1255)"),
    ((Call::Give(0), 256), "256"),
    // the 257th packet forgets the first
    ((Call::Give(1), 0), "257"),
    ((Call::Give(0), 1), "(257, 1, 1001)"),
    ((Call::Give(0), 256), "(257, 256, 1256)"),
    // a packet is used once
    ((Call::Use(7), 7), "257"),
    ((Call::Use(7), 7), "257"),
    ((Call::Give(0), 8), "(257, 8, 1008)"),
    // one whose number the switch reuses is lost, and no other
    ((Call::Lose(1_009), 9), "257"),
    ((Call::Lose(1_007), 10), "(257, 10, 1010)"),
    ((Call::Use(9), 9), "257"),
    // the places of those that are no longer held aren't free for older ones
    ((Call::Give(2), 2), "259"),
    ((Call::Give(0), 3), "(259, 3, 1003)"),
    ((Call::Give(0), 258), "(259, 258, 1258)"),
    // all are dropped, and the numbers go on
    ((Call::DropAll, 258), "259"),
    ((Call::Give(0), 3), "259"),
    ((Call::Give(1), 259), "(260, 259, 1259)"),
    ((Call::Give(0), 0), "260"),
    ((Call::Lose(1_259), 259), "260"),
    ((Call::Give(1), 260), "(261, 260, 1260)"),
    ((Call::Give(256), 260), "517"),
];

#[test]
fn packets_are_held_until_a_call_ends_it(rt: HostRuntime) -> Result<(), Fail> {
    let alloc = rt.alloc();
    let map = BufferMap::new(alloc)?;
    play(&mut Packets { alloc, map }, CALLS)
}
