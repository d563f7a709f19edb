//! How a recording begins.

ghost use Rattle.std.specs.Prelude.{◌≡◌, ◌++◌, IfOk, OnOk, flat_map};
ghost use Rattle.recording.specs.Recordings.{record_bytes};
ghost use Rattle.fv_generator.specs.Made.{features_message, opening};

use of10_ctl::Frame;
use of10_port::protocol::LOCAL;
use of10_port::{Features, Port, Ports};
use recording::{SLICE_UP, SWITCH_BYTES, SWITCH_UP, add_item};
use std::alloc::{AllocError, Global};

/// The transaction id under which the proxy asks a switch for its features.
const FEATURES_XID: u32 = 0xff00_0001;

/// What the switch reports of itself: four ports, one of them its own.
#[tactic(auto, unfolding(crate::specs::Made::features_message))]
fn features(alloc: Global) -> Result<Frame, AllocError>
    ensures { IfOk result (λ f. f ≡ features_message) }
{
    let ports = [
        Port::bare(1),
        Port::bare(2),
        Port::bare(3),
        Port::bare(LOCAL),
    ];
    let features = Features {
        datapath: 0xa1,
        buffers: 256,
        tables: 1,
        capabilities: 0,
        actions: 0xfff,
        ports: Ports::of(alloc, &ports)?,
    };
    features.encode(alloc, FEATURES_XID)
}

/// Appends the records with which every made recording begins: the switch and both slices connect.
pub(crate) fn put_opening(alloc: Global, out: &mut Vec<u8>) -> Result<(), AllocError>
    ensures { OnOk result (out.new.items ≡ out.old.items ++ flat_map record_bytes opening) }
{
    let told = features(alloc)?;
    add_item(out, SWITCH_UP, 0, 0, 0, &[])?;
    add_item(out, SWITCH_BYTES, 0, 0, 0, told.as_slice())?;
    add_item(out, SLICE_UP, 0, 0, 0, &[])?;
    add_item(out, SLICE_UP, 0, 1, 0, &[])
}
