//! The messages of OpenFlow 1.0 that change flow tables, report their entries and carry packets; and flow
//! tables, as definitions with their laws.
#![tactic(auto)]

mod flow_entry;
mod flow_mod;
mod flow_removed;
pub mod laws;
mod packet_in;
mod packet_out;
pub mod protocol;
mod shared_fields;
pub mod table_laws;

pub use flow_entry::FlowEntry;
pub use flow_mod::{FlowMod, FlowModParts, FlowModView};
pub use flow_removed::{FlowRemoved, FlowRemovedView};
pub use packet_in::{PacketIn, PacketInView};
pub use packet_out::{PacketOut, PacketOutView};
