//! Where the port numbers stand in a message for a slice.

ghost use Rattle.std.specs.Prelude.{◌≡◌, ◌≤◌, length};
ghost use Rattle.port_turns.specs.Sent.{AreWithin, piece_size, places_of};

use of10_ctl::Frame;
use of10_ctl::kind::{
    FEATURES_REPLY, FLOW_REMOVED, PACKET_IN, PORT_STATUS, QUEUE_GET_CONFIG_REPLY, STATS_REPLY,
};
use of10_model::wire::u16_at;
use of10_port::has_whole_ports;
use of10_stats::entry_size;

/// Bytes of a port (OpenFlow 1.0.0, section 5.2.1).
const PORT: usize = 48;

/// Where the port numbers of a message for a slice stand.
#[derive(Clone, Copy)]
pub(crate) enum Places {
    /// One number.
    Port(usize),
    /// That of a match.
    Match(usize),
    /// Those of the entries of a type of statistics.
    Entries(u16),
    /// One in each port of a switch.
    Ports,
    Nowhere,
}

/// What stands one behind another in a message, to its end.
#[derive(Clone, Copy)]
pub(crate) enum Piece {
    /// A port of a switch.
    Port,
    /// An entry of a type of statistics.
    Entry(u16),
}

impl Piece {
    /// The bytes of the piece that begins these; 0 where no whole one does.
    pub(crate) fn size(self, rest: &[u8]) -> usize
        ensures value { result ≡ piece_size self rest.now }
        ensures within { result ≤ length rest.now }
    {
        match self {
            Piece::Port if rest.len() >= PORT => PORT,
            Piece::Port => 0,
            Piece::Entry(kind) => entry_size(kind, rest).unwrap_or(0),
        }
    }
}

/// Where they stand in this message.
#[tactic(auto, unfolding(crate::specs::Sent::places_of))]
pub(crate) fn places_of(frame: &Frame) -> Places
    ensures value { result ≡ places_of frame.now }
    ensures within { AreWithin frame.now result }
{
    let head = frame.head();
    if head.version != 1 || frame.bad_length() {
        return Places::Nowhere;
    }
    let bytes = frame.as_slice();
    match head.kind {
        PACKET_IN if bytes.len() >= 18 => Places::Port(14),
        FLOW_REMOVED if bytes.len() == 88 => Places::Match(8),
        PORT_STATUS if bytes.len() == 64 => Places::Port(16),
        QUEUE_GET_CONFIG_REPLY if bytes.len() >= 16 => Places::Port(8),
        STATS_REPLY if bytes.len() >= 12 => Places::Entries(u16_at(bytes, 8)),
        FEATURES_REPLY if has_whole_ports(bytes) => Places::Ports,
        _ => Places::Nowhere,
    }
}
