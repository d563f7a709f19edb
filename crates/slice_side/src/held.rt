//! The packets that a slice holds.

ghost use Rattle.std.specs.Prelude.{◌≡◌, ◌<◌, ◌≤◌, length, IfSome};
ghost use Rattle.slice_words.specs.FlowMods.{piece_place};
ghost use Rattle.slice_side.specs.Checking.{packet_kept, carrier_in};

use buffer_map::Held;
use flow_book::SliceState;
use of10_flow::protocol::NO_BUFFER;
use of10_match::{Header12, Match};

/// The packet that the slice holds under a number; none where a message has no number.
pub(crate) fn packet_at(state: &SliceState, buffer: u32) -> Option<Held>
    ensures { result ≡ packet_kept state.now buffer }
{
    if buffer == NO_BUFFER {
        return None;
    }
    state.buffers.held(buffer)
}

/// The place of the first piece that has the header.
fn place_of(pieces: &[Match], header: &Header12) -> Option<usize>
    ensures { result ≡ piece_place header.now pieces.now }
{
    pieces.iter().position(|piece| piece.matches(header))
}

/// The place of the piece that carries the packet, and the switch's number of the packet.
pub(crate) fn carrier(packet: &Option<Held>, pieces: &[Match]) -> Option<(u32, u32)>
    requires { length pieces.now ≤ 256 }
    ensures value { result ≡ carrier_in packet.now pieces.now }
    ensures place { IfSome result (λ own. own.0 < length pieces.now) }
{
    match packet {
        None => None,
        Some(packet) => match place_of(pieces, &packet.header) {
            None => None,
            Some(place) => Some((place as u32, packet.physical)),
        },
    }
}
