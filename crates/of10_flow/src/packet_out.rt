//! Messages that send a packet out of a switch (OpenFlow 1.0.0, section 5.3.6).

ghost use Rattle.std.specs.Prelude.{◌≡◌, ◌+◌, ◌≤◌, true, length, take, drop, Err, IfOk};
ghost use Rattle.of10_model.specs.Normal.{number_at};
ghost use Rattle.of10_action.specs.declared.fault.DecodeFault.TheVariants.{Memory};
ghost use Rattle.of10_action.specs.Actions.{spelling};
ghost use Rattle.of10_action.specs.Reading.{Gives};
ghost use Rattle.of10_ctl.specs.declared.kind.TheConstants.{PACKET_OUT};
ghost use Rattle.of10_ctl.specs.Kinds.{IsOf};
ghost use Rattle.of10_flow.specs.PacketOuts.{IsPacketOut, begins_well, read_packet_out, spell_packet_out};

use crate::shared_fields::put_buffer;
use of10_action::{Actions, ActionsView, Bytes, DecodeFault, WireFault, encode_list, list_size};
use of10_ctl::kind::PACKET_OUT;
use of10_ctl::{Frame, begin};
use of10_model::wire::{u16_at, u32_at};
use std::alloc::{AllocError, Global};
use std::marker::Model;

/// A packet that a switch is to send out (OpenFlow 1.0.0, section 5.3.6).
#[derive(Debug, Drop)]
pub struct PacketOut {
    pub xid: u32,
    /// The buffer that holds the packet (buffer_id), or `protocol::NO_BUFFER` where the payload is the packet.
    pub buffer: u32,
    /// The port by which the packet counts as received.
    pub in_port: u16,
    pub actions: Actions,
    /// The bytes behind the actions; a switch disregards them where a buffer holds the packet.
    pub payload: Bytes,
}

/// The same where it lies, as in the frame that carries it: its actions are right, and nothing is copied.
#[derive(Drop)]
pub struct PacketOutView<'a> {
    xid: u32,
    buffer: u32,
    in_port: u16,
    actions: ActionsView<'a>,
    payload: &'a [u8],
}

impl<'a> Model for PacketOutView<'a> {
    ghost use Rattle.of10_flow.specs.declared.packet_out.PacketOut.{PacketOut};

    ghost Value = { PacketOut };

    ghost view = { λ v. record { xid = v.xid; buffer = v.buffer; in_port = v.in_port; actions = v.actions; payload = v.payload.now } };
}

/// What the bytes of a packet-out say.
#[tactic(auto, using(of10_action::proofs::Lengths::spelled_length), unfolding(crate::specs::PacketOuts::read_packet_out))]
fn read(bytes: &[u8]) -> Result<PacketOutView<'_>, WireFault>
    requires { length bytes.now ≤ 65535 }
    ensures exact { result ≡ read_packet_out bytes.now }
    ensures range { IfOk result IsPacketOut }
{
    if bytes.len() < 16 {
        return Err(WireFault::Length(bytes.len() as u16));
    }
    let end = 16 + usize::from(u16_at(bytes, 14));
    if bytes.len() < end {
        return Err(WireFault::Length(bytes.len() as u16));
    }
    let actions = ActionsView::decode(&bytes[16..end])?;
    Ok(PacketOutView {
        xid: u32_at(bytes, 4),
        buffer: u32_at(bytes, 8),
        in_port: u16_at(bytes, 12),
        actions,
        payload: &bytes[end..],
    })
}

impl<'a> PacketOutView<'a> {
    /// The packet-out that the frame is, or the first fault in it: its length where it is shorter than its fields
    /// or than fields and actions, then what is wrong with the first action that is wrong. Takes no memory.
    pub fn decode(frame: &'a Frame) -> Result<PacketOutView<'a>, WireFault>
        requires { IsOf PACKET_OUT frame.now }
        ensures exact { result ≡ read_packet_out frame.now }
        ensures range { IfOk result IsPacketOut }
    {
        read(frame.as_slice())
    }

    /// The same with copies of the actions and of the packet.
    pub fn copied(&self, alloc: Global) -> Result<PacketOut, AllocError>
        ensures { IfOk result (λ m. m ≡ self.now) }
    {
        let actions = self.actions.copied(alloc)?;
        let payload = Bytes::of(alloc, self.payload)?;
        Ok(PacketOut {
            xid: self.xid,
            buffer: self.buffer,
            in_port: self.in_port,
            actions,
            payload,
        })
    }
}

impl PacketOut {
    /// The packet-out that the frame is, or the first fault in it: its length where it is shorter than
    /// its fields or than fields and actions, then what is wrong with the first action that is wrong.
    pub fn decode(alloc: Global, frame: &Frame) -> Result<PacketOut, DecodeFault>
        requires { IsOf PACKET_OUT frame.now }
        ensures exact { Gives (λ m. m) result (read_packet_out frame.now) }
        ensures range { IfOk result IsPacketOut }
        // Memory is taken for actions and the packet, and only where the first action, if there is one, is right.
        ensures memory { result ≡ Err Memory → (16 + number_at frame.now 14 2 ≤ length frame.now) × (begins_well (take (number_at frame.now 14 2) (drop 16 frame.now)) ≡ true) }
    {
        match PacketOutView::decode(frame) {
            Ok(view) => Ok(view.copied(alloc)?),
            Err(fault) => Err(DecodeFault::Wire(fault)),
        }
    }

    /// The message, of at most 65,535 bytes.
    #[tactic(auto, unfolding(crate::specs::PacketOuts::spell_packet_out))]
    pub fn encode(&self, alloc: Global) -> Result<Frame, AllocError>
        requires { 16 + length (spelling self.now.actions) + length self.now.payload ≤ 65535 }
        ensures value { IfOk result (λ f. f ≡ spell_packet_out self.now) }
        ensures kind { IfOk result (λ f. IsOf PACKET_OUT f) }
        ensures size { IfOk result (λ f. length f ≡ 16 + length (spelling self.now.actions) + length self.now.payload) }
    {
        let actions = self.actions.as_slice();
        let payload = self.payload.as_slice();
        let size = list_size(actions) as u16;
        let mut out = begin(
            alloc,
            PACKET_OUT,
            self.xid,
            8 + usize::from(size) + payload.len(),
        )?;
        put_buffer(&mut out, self.buffer, self.in_port, size)?;
        encode_list(actions, &mut out)?;
        out.extend_from_slice(payload)?;
        Ok(Frame::of(out))
    }
}
