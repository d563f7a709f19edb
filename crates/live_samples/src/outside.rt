//! Switches and controllers in memory, a clock that stands, and words.

ghost use Rattle.std.specs.Prelude.{None};

use crate::traffic::Sent;
use fv_base::Words;
use fv_live::{Clock, Link, MemorySource, SharedSink};
use std::alloc::{AllocError, Global};
use std::sync::{Arc, Wait};
use wire_samples::bytes;

/// Alice writes packets for TCP port 80, and bob those for port 22.
pub const POLICY: &str = "\
version = 1
[[slice]]
name = \"alice\"
controller = \"127.0.0.1:6633\"
[[slice]]
name = \"bob\"
controller = \"127.0.0.1:6634\"
[[rule]]
priority = 100
write = \"alice\"
dl_type = 2048
nw_proto = 6
tp_dst = 80
[[rule]]
priority = 50
write = \"bob\"
dl_type = 2048
nw_proto = 6
tp_dst = 22
";

pub const ALICE: &str = "127.0.0.1:6633";

pub const BOB: &str = "127.0.0.1:6634";

/// What a switch says of itself that has three ports and its own.
pub const FEATURES: &str = "\
010600e0ff00000100000000000000a100000100010000000000000000000fff\
00010000000000000000000000000000000000000000000000000000000000000000000000000000000000000000\
0000\
00020000000000000000000000000000000000000000000000000000000000000000000000000000000000000000\
0000\
00030000000000000000000000000000000000000000000000000000000000000000000000000000000000000000\
0000\
fffe0000000000000000000000000000000000000000000000000000000000000000000000000000000000000000\
0000";

/// That, and then a question.
pub const SWITCH: [&str; 2] = [FEATURES, "0102000800000000"];

/// What a switch is sent until its slices' controllers are dialled: a greeting, the question what it is, that
/// packets are to be handed up whole, an empty table, and a barrier.
pub const LANE: [&str; 5] = [
    "01000008ff000000",
    "01050008ff000001",
    "0109000cff0000020000ffff",
    "010e0048ff000003003820ff0000000000000000000000000000000000000000000000000000000000000000\
0000000000000000000000000003000000000000ffffffffffff0000",
    "01120008ff000004",
];

/// The greeting of a controller.
pub const HELLO: &[u8] = &[1, 0, 0, 8, 0, 0, 0, 0];

/// A clock that always answers 0.
#[derive(Clone, Copy)]
pub struct Still;

impl Clock for Still {
    ghost coming = { λ still. None };

    fn now(&mut self) -> u64 {
        0
    }
}

/// What comes in whole.
pub fn source(alloc: Global, digits: &[&str]) -> Result<MemorySource, AllocError> {
    Ok(MemorySource::new(bytes(alloc, digits)?, usize::MAX, Vec::new(alloc)))
}

/// A link to the address, whose controller says these bytes and is sent those.
pub fn link<R: Wait + Copy>(
    rt: R,
    alloc: Global,
    address: &str,
    digits: &[&str],
    sent: &Sent,
) -> Result<Link<MemorySource, SharedSink<R>>, AllocError> {
    Ok(Link {
        address: String::from_str(alloc, address)?,
        source: source(alloc, digits)?,
        sink: SharedSink::new(rt, Arc::try_clone(sent)?),
    })
}

/// These words.
pub fn words(alloc: Global, each: &[&str]) -> Result<Words, AllocError> {
    let mut words = Words::new(alloc);
    for word in each {
        words.push(word)?;
    }
    Ok(words)
}
