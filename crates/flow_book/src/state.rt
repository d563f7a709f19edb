//! All that is kept of one slice on one switch.

ghost use Rattle.std.specs.Prelude.{◌≤◌, IfOk};
ghost use Rattle.flow_book.specs.States.{IsFreshState};

use crate::book::FlowBook;
use buffer_map::BufferMap;
use flowspace::Slice;
use rate_bucket::RateBucket;
use std::alloc::{AllocError, Global};
use xid_map::{Collections, XidMap};

/// How much of a packet a controller gets that has asked for nothing else (OpenFlow 1.0.0, section 5.3.2:
/// OFP_DEFAULT_MISS_SEND_LEN).
pub const MISS_SEND_LEN: u16 = 128;

/// What one slice has at one switch.
#[derive(Drop)]
pub struct SliceState {
    /// Its requests.
    pub xids: XidMap,
    /// The statistics that are collected for it.
    pub collections: Collections,
    /// The packets that the switch keeps for it.
    pub buffers: BufferMap,
    /// The rate of its messages.
    pub bucket: RateBucket,
    /// The pairs that it has booked.
    pub book: FlowBook,
    /// Whether its controller is connected.
    pub up: bool,
    /// How many bytes of a packet it is sent (OpenFlow 1.0.0, section 5.3.2).
    pub miss_send_len: u16,
    /// The greatest timestamp of its messages so far, in milliseconds.
    pub moment: u64,
}

impl SliceState {
    /// The state of the slice in the slot before anything came from it: not up, and 128 bytes of a packet,
    /// as a switch has it at first (OpenFlow 1.0.0, section 4.1.2).
    pub fn new(alloc: Global, slot: u8, of: &Slice) -> Result<SliceState, AllocError>
        requires { 1 ≤ of.now.burst }
        ensures { IfOk result (IsFreshState slot of.now) }
    {
        Ok(SliceState {
            xids: XidMap::new(alloc, slot)?,
            collections: Collections::new(alloc)?,
            buffers: BufferMap::new(alloc)?,
            bucket: RateBucket::new(of.rate, of.burst),
            book: FlowBook::new(alloc),
            up: false,
            miss_send_len: MISS_SEND_LEN,
            moment: 0,
        })
    }
}
