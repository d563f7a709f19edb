//! Recordings and traces: what came from switches and slices, what was sent for slices, and when, as the
//! records of a file say it.
#![tactic(auto)]

mod fault;
mod item;
pub mod laws;
mod layout;
mod reading;
mod ups;
mod writing;

pub use fault::RecordingFault;
pub use item::{
    BYTE_LIMIT, Item, MAGIC, RECORD_HEAD, SENT_BYTES, SLICE_BYTES, SLICE_DOWN, SLICE_UP,
    SWITCH_BYTES, SWITCH_DOWN, SWITCH_UP, SWITCHES, TRACE_MAGIC,
};
pub use layout::Layout;
pub use reading::{accept, accept_trace, item_at, items, trace_items};
pub use writing::{add_item, begin_recording, begin_trace};
