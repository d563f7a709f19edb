//! Messages to measure with: packets that a switch hands up, and a stream of them.

ghost use Rattle.std.specs.Prelude.{◌≤◌};

use of10_ctl::kind::PACKET_IN;
use of10_ctl::{Frame, Framer, Next, message};
use of10_flow::PacketIn;
use std::alloc::{AllocError, Global};

/// A packet of each size stands so often in the stream.
const PAIRS: usize = 64;

/// Packet-ins of two sizes, and a stream in which they take turns.
#[derive(Drop)]
pub struct Messages {
    small: Frame,
    large: Frame,
    stream: Vec<u8>,
}

/// A packet-in with a packet of so many bytes, which isn't buffered.
fn packet_in(alloc: Global, size: usize) -> Result<Frame, AllocError>
    requires { size ≤ 1500 }
{
    let mut body = Vec::new(alloc);
    body.extend_from_slice(&[0xff, 0xff, 0xff, 0xff, 0, 0, 0, 1, 0, 0])?;
    body.resize(10 + size, 0)?;
    message(alloc, PACKET_IN, 0, &body)
}

/// Feeds a piece of a stream, and counts the frames that it completes.
fn complete(framer: &mut Framer, piece: &[u8]) -> Result<u64, AllocError> {
    framer.feed(piece)?;
    let mut frames = 0u64;
    while let Next::Frame(_frame) = framer.next()? {
        frames = frames.saturating_add(1);
    }
    Ok(frames)
}

impl Messages {
    /// Bytes of the pieces in which the stream is fed.
    pub const PIECE: usize = 4096;

    pub fn new(alloc: Global) -> Result<Messages, AllocError> {
        let small = packet_in(alloc, 64)?;
        let large = packet_in(alloc, 1500)?;
        let mut stream = Vec::new(alloc);
        for _ in 0..PAIRS {
            stream.extend_from_slice(small.as_slice())?;
            stream.extend_from_slice(large.as_slice())?;
        }
        Ok(Messages {
            small,
            large,
            stream,
        })
    }

    pub fn small(&self) -> &Frame {
        &self.small
    }

    pub fn large(&self) -> &Frame {
        &self.large
    }

    /// Feeds so many pieces of the stream, over and over, and counts the frames.
    pub fn cut(&self, alloc: Global, count: u64) -> Result<u64, AllocError> {
        let mut framer = Framer::new(alloc);
        let mut frames = 0u64;
        let mut rest = self.stream.as_slice();
        for _ in 0..count {
            if rest.is_empty() {
                rest = &self.stream;
            }
            let (piece, behind) = rest.split_at(rest.len().min(Messages::PIECE));
            frames = frames.saturating_add(complete(&mut framer, piece)?);
            rest = behind;
        }
        Ok(frames)
    }

    /// Reads a packet-in so often, and counts the packets.
    pub fn read(alloc: Global, frame: &Frame, count: u64) -> Result<u64, AllocError> {
        let mut packets = 0u64;
        if !frame.is_of(PACKET_IN) {
            return Ok(packets);
        }
        for _ in 0..count {
            if PacketIn::decode(alloc, frame).is_ok() {
                packets = packets.saturating_add(1);
            }
        }
        Ok(packets)
    }
}
