ghost use Rattle.std.specs.Prelude.{◌≡◌, option_map};
ghost use Rattle.of10_flow.specs.PacketIns.{packet_of};
ghost use Rattle.of10_message.specs.Switch.{read_switch};
ghost use Rattle.desk_words.specs.Histories.{header_in, number_given, packet_in_read};
ghost use Rattle.trace_audit.specs.Standing.{heard_in};

use frame_header::header_of;
use of10_ctl::Frame;
use of10_flow::PacketInView;
use of10_flow::protocol::NO_BUFFER;
use of10_match::Header12;
use of10_message::{SwitchMessageView, Unread, read_switch};

/// What of a switch's message counts for an audit.
#[derive(Clone, Copy, PartialEq, Eq)]
pub(crate) enum Heard {
    /// It ends the connection.
    Ended,
    /// It says this datapath id (OpenFlow 1.0.0, section 5.3.1).
    Features(u64),
    /// It hands up a packet, which the switch keeps under this number if there is one (section 5.4.1).
    Packet(Option<u32>),
    Other,
}

fn number_given(packet: &PacketInView<'_>) -> Option<u32>
    ensures { result ≡ number_given (packet_of packet.now) }
{
    if packet.buffer == NO_BUFFER {
        None
    } else {
        Some(packet.buffer)
    }
}

/// What counts of a message of the switch.
pub(crate) fn heard_from(frame: &Frame) -> Heard
    ensures { result ≡ heard_in (read_switch frame.now) }
{
    match read_switch(frame) {
        Err(Unread::BadLength) => Heard::Ended,
        Ok(SwitchMessageView::FeaturesReply(features)) => Heard::Features(features.datapath),
        Ok(SwitchMessageView::PacketIn(packet)) => Heard::Packet(number_given(&packet)),
        _ => Heard::Other,
    }
}

/// The header of the packet that it hands up, if it hands one up.
pub(crate) fn header_heard(frame: &Frame) -> Option<Header12>
    ensures { result ≡ option_map header_in (packet_in_read frame.now) }
{
    match read_switch(frame) {
        Ok(SwitchMessageView::PacketIn(packet)) => {
            Some(header_of(packet.in_port, packet.payload))
        }
        _ => None,
    }
}
