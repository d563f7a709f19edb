//! The packet that a packet-out carries itself.

ghost use Rattle.std.specs.Prelude.{◌≡◌};
ghost use Rattle.flow_facts.specs.PacketOuts.{carried_header, is_probe};

use frame_header::{LLDP, header_of};
use of10_flow::PacketOut;
use of10_flow::protocol::NO_BUFFER;
use of10_match::Header12;

/// The header of the packet that it carries, as received by the port that it names.
pub fn carried_header(m: &PacketOut) -> Header12
    ensures { result ≡ carried_header m.now }
{
    header_of(m.in_port, m.payload.as_slice())
}

/// Whether it carries a packet of LLDP.
pub fn is_probe(m: &PacketOut) -> bool
    ensures { result ≡ is_probe m.now }
{
    m.buffer == NO_BUFFER && carried_header(m).dl_type == LLDP
}
