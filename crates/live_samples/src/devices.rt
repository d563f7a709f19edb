//! What devices say and are sent, and how they fail.

ghost use Rattle.std.specs.Prelude.{◌≡◌, IfOk, vec_len};

use crate::outside::{FEATURES, LANE};
use crate::traffic::Sent;
use fv_live::MemorySource;
use of10_ctl::message;
use std::alloc::{AllocError, Global};
use std::sync::Wait;
use wire_samples::bytes;

/// How many bytes the body of the longest message has.
const LONGEST: usize = 65_527;

/// A message that nobody answers.
pub const UNANSWERED: &[&str] = &["0103000800000063"];

/// The greeting of a controller.
pub const GREETING: &[&str] = &["0100000800000000"];

/// The head of a packet-in by port 1 that the switch doesn't keep, and a packet for TCP port 22 in it.
pub const IN: &str = "010a004800000000ffffffff003600010000";

pub const TO_22: &str = "0000000000020000000000010800450000280000000040060000\
0a0000010a000002040000160000000000000000500200000000\
0000";

/// A packet for TCP port 80.
pub const TO_80: &str = "0000000000020000000000010800450000280000000040060000\
0a0000010a000002040000500000000000000000500200000000\
0000";

/// Messages of one type that are as long as they can be: with the transactions from 0 on, and bodies that begin so
/// and go on with zeros.
#[derive(Clone, Copy)]
pub struct Long {
    pub kind: u8,
    pub body: &'static [&'static str],
    pub count: u32,
}

/// Packets for TCP port 80, to be sent out by port 2.
pub const OUT: Long = Long {
    kind: 13,
    body: &["ffffffffffff00080000000800020000", TO_80],
    count: 18,
};

/// The bytes of these digits, long messages, and the bytes of those digits.
#[derive(Clone, Copy)]
pub struct Stream {
    pub first: &'static [&'static str],
    pub long: Long,
    pub last: &'static [&'static str],
}

/// No bytes.
pub const NOTHING: Stream = Stream {
    first: &[],
    long: Long {
        kind: 0,
        body: &[],
        count: 0,
    },
    last: &[],
};

fn body(alloc: Global, digits: &[&str]) -> Result<Vec<u8>, AllocError>
    ensures { IfOk result (λ body. vec_len body ≡ 65527) }
{
    let mut body = bytes(alloc, digits)?;
    body.resize(LONGEST, 0)?;
    Ok(body)
}

impl Stream {
    /// Its bytes.
    pub fn bytes(&self, alloc: Global) -> Result<Vec<u8>, AllocError> {
        let mut all = bytes(alloc, self.first)?;
        let body = body(alloc, self.long.body)?;
        for xid in 0..self.long.count {
            let message = message(alloc, self.long.kind, xid, &body)?;
            all.extend_from_slice(message.as_slice())?;
        }
        all.extend_from_slice(&bytes(alloc, self.last)?)?;
        Ok(all)
    }
}

/// A switch or a controller.
#[derive(Clone, Copy)]
pub struct Device {
    /// What it says, at most so many bytes at once, and which of its takes fail.
    pub says: Stream,
    pub most: usize,
    pub takes: &'static [u64],
    /// What it is sent, of which so many bytes are waited for; it stands still behind some bytes, and some of its
    /// puts fail.
    pub sent: Stream,
    pub waited_for: usize,
    pub free: usize,
    pub puts: &'static [u64],
}

impl Device {
    /// What comes from it.
    pub fn source(&self, alloc: Global) -> Result<MemorySource, AllocError> {
        let takes = Vec::from_slice(alloc, self.takes)?;
        Ok(MemorySource::new(self.says.bytes(alloc)?, self.most, takes))
    }

    /// How much of what it is to be sent it was sent.
    pub fn told<R: Wait>(&self, rt: &R, alloc: Global, sent: &Sent) -> Result<Told, AllocError> {
        let sent = sent.so_far(rt, alloc)?;
        if sent.is_empty() {
            return Ok(Told::Nothing);
        }
        let is_all = sent == self.sent.bytes(alloc)?;
        Ok(if is_all { Told::All } else { Told::Other })
    }
}

/// How much of what it is to be sent a device was sent.
#[derive(Clone, Copy, Debug, PartialEq, Eq)]
pub enum Told {
    Nothing,
    All,
    Other,
}

/// How much the switch, alice and bob were sent.
pub fn told_to_all<R: Wait>(
    rt: &R,
    alloc: Global,
    devices: &[Device; 3],
    sent: &[Sent],
) -> Result<[Told; 3], AllocError> {
    let [switch, alice, bob] = devices;
    let [to_switch, to_alice, to_bob] = sent else {
        return Err(AllocError);
    };
    Ok([
        switch.told(rt, alloc, to_switch)?,
        alice.told(rt, alloc, to_alice)?,
        bob.told(rt, alloc, to_bob)?,
    ])
}

/// A switch that says what it is, and then a message that isn't answered.
pub const SWITCH: Device = Device {
    says: Stream {
        first: &[FEATURES],
        last: UNANSWERED,
        ..NOTHING
    },
    most: 100_000,
    takes: &[],
    sent: Stream {
        first: &LANE,
        ..NOTHING
    },
    waited_for: 108,
    free: usize::MAX,
    puts: &[],
};

/// The controller of bob, who has one question.
pub const BOB: Device = Device {
    says: Stream {
        first: &["010200080000000b"],
        last: UNANSWERED,
        ..NOTHING
    },
    most: 100_000,
    takes: &[],
    sent: Stream {
        first: GREETING,
        last: &["010300080000000b"],
        ..NOTHING
    },
    waited_for: 16,
    free: usize::MAX,
    puts: &[],
};

/// The controller of alice, who has one question.
pub const ALICE: Device = Device {
    says: Stream {
        first: &["0102000800000001"],
        last: UNANSWERED,
        ..NOTHING
    },
    sent: Stream {
        first: GREETING,
        last: &["0103000800000001"],
        ..NOTHING
    },
    ..BOB
};
