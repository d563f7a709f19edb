//! The mark by which a slice's own probes are known when they come back (this proxy's own rule).

ghost use Rattle.std.specs.Prelude.{◌≡◌, ◌↔◌, ℕ, Some};
ghost use Rattle.frame_header.specs.Probes.{IsProbe, trailer, trailer_slot, probe_slot_of};

use crate::link::link_of;

/// The type of a packet of LLDP, by which a controller finds the links between switches.
pub const LLDP: u16 = 0x88cc;

/// The eight bytes at the end of a probe of the slice with this slot.
pub fn probe_trailer(slot: u8) -> [u8; 8]
    ensures { result ≡ trailer slot }
{
    [0x46, 0x56, 0x53, 0x4c, slot, 0, 0, 0]
}

#[tactic(auto, unfolding(crate::specs::Probes::trailer_slot))]
fn trailer_slot(bytes: &[u8]) -> Option<u8>
    ensures { result ≡ trailer_slot bytes.now }
{
    if bytes.len() < 8 {
        return None;
    }
    let last = &bytes[bytes.len() - 8..];
    let slot = last[4];
    if last == probe_trailer(slot).as_slice() {
        Some(slot)
    } else {
        None
    }
}

#[tactic(auto, unfolding(crate::specs::Probes::probe_slot_of))]
fn slot_of(bytes: &[u8]) -> Option<u8>
    ensures { result ≡ probe_slot_of bytes.now }
{
    if link_of(bytes).kind == LLDP {
        trailer_slot(bytes)
    } else {
        None
    }
}

/// The slot of which a packet is a probe: its type is LLDP and its last eight bytes are the slot's
/// trailer (this proxy's own rule). Any packet may bear such a trailer, also of a slot that no slice has.
pub fn probe_slot(bytes: &[u8]) -> Option<u8>
    ensures value { result ≡ probe_slot_of bytes.now }
    ensures exactly { (slot : ℕ) → result ≡ Some slot ↔ IsProbe bytes.now slot }
{
    slot_of(bytes)
}
