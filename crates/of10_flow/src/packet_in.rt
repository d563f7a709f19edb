//! Messages that bring a packet to a controller (OpenFlow 1.0.0, section 5.4.1).

ghost use Rattle.std.specs.Prelude.{◌≡◌, ◌+◌, ◌≤◌, ◌++◌, length, Err, IfOk};
ghost use Rattle.byteorder.specs.Endian.{big_bytes};
ghost use Rattle.of10_action.specs.declared.fault.DecodeFault.TheVariants.{Memory};
ghost use Rattle.of10_action.specs.Actions.{padding};
ghost use Rattle.of10_action.specs.Reading.{Gives, Reads};
ghost use Rattle.of10_ctl.specs.declared.kind.TheConstants.{PACKET_IN};
ghost use Rattle.of10_ctl.specs.Heads.{head_bytes};
ghost use Rattle.of10_ctl.specs.Kinds.{IsOf};
ghost use Rattle.of10_flow.specs.PacketIns.{IsPacketIn, packet_of, read_packet_in, spell_packet_in};

use of10_action::{Bytes, DecodeFault, WireFault};
use of10_ctl::kind::PACKET_IN;
use of10_ctl::{Frame, header};
use of10_model::wire::{set_u16, set_u32, u8_at, u16_at, u32_at};
use std::alloc::{AllocError, Global};

/// A packet that a switch hands to its controller (OpenFlow 1.0.0, section 5.4.1).
#[derive(Debug, Drop)]
pub struct PacketIn {
    pub xid: u32,
    /// The buffer that holds the packet (buffer_id), or `protocol::NO_BUFFER`.
    pub buffer: u32,
    /// Bytes of the whole packet, of which the payload may be the first ones.
    pub total_len: u16,
    /// The port by which the packet was received.
    pub in_port: u16,
    /// Why it is sent: 0 no entry matched, 1 an action says so.
    pub reason: u8,
    pub payload: Bytes,
}

/// The same with its payload where it lies, as in the frame that carries it: nothing is copied.
#[derive(Clone, Copy)]
pub struct PacketInView<'a> {
    pub xid: u32,
    /// The buffer that holds the packet (buffer_id), or `protocol::NO_BUFFER`.
    pub buffer: u32,
    /// Bytes of the whole packet, of which the payload may be the first ones.
    pub total_len: u16,
    /// The port by which the packet was received.
    pub in_port: u16,
    /// Why it is sent: 0 no entry matched, 1 an action says so.
    pub reason: u8,
    pub payload: &'a [u8],
}

/// What the bytes of a packet-in say.
#[tactic(auto, unfolding(crate::specs::PacketIns::read_packet_in))]
fn read(bytes: &[u8]) -> Result<PacketInView<'_>, WireFault>
    requires { length bytes.now ≤ 65535 }
    ensures exact { Reads packet_of result (read_packet_in bytes.now) }
    ensures range { IfOk result (λ view. IsPacketIn (packet_of view)) }
    ensures size { IfOk result (λ view. length bytes.now ≡ 18 + length view.payload.now) }
{
    if bytes.len() < 18 {
        return Err(WireFault::Length(bytes.len() as u16));
    }
    Ok(PacketInView {
        xid: u32_at(bytes, 4),
        buffer: u32_at(bytes, 8),
        total_len: u16_at(bytes, 12),
        in_port: u16_at(bytes, 14),
        reason: u8_at(bytes, 16),
        payload: &bytes[18..],
    })
}

/// What stands between the header and the packet.
fn fields(packet: &PacketInView<'_>) -> [u8; 10]
    ensures { result ≡ big_bytes 4 packet.now.buffer ++ big_bytes 2 packet.now.total_len ++ big_bytes 2 packet.now.in_port ++ big_bytes 1 packet.now.reason ++ padding 1 }
{
    let mut fields = [0; 10];
    set_u32(&mut fields, 0, packet.buffer);
    set_u16(&mut fields, 4, packet.total_len);
    set_u16(&mut fields, 6, packet.in_port);
    fields[8] = packet.reason;
    fields
}

/// What stands before the packet.
fn front(packet: &PacketInView<'_>) -> [u8; 18]
    requires { 18 + length packet.now.payload.now ≤ 65535 }
    ensures { result ≡ head_bytes PACKET_IN (18 + length packet.now.payload.now) packet.now.xid ++ (big_bytes 4 packet.now.buffer ++ big_bytes 2 packet.now.total_len ++ big_bytes 2 packet.now.in_port ++ big_bytes 1 packet.now.reason ++ padding 1) }
{
    let mut front = [0; 18];
    let size = 18 + packet.payload.len() as u16;
    front[..8].copy_from_slice(&header(PACKET_IN, packet.xid, size));
    front[8..].copy_from_slice(&fields(packet));
    front
}

impl<'a> PacketInView<'a> {
    /// The packet-in that the frame is, or its length where it is shorter than its fields. Takes no memory.
    pub fn decode(frame: &'a Frame) -> Result<PacketInView<'a>, WireFault>
        requires { IsOf PACKET_IN frame.now }
        ensures exact { Reads packet_of result (read_packet_in frame.now) }
        ensures range { IfOk result (λ view. IsPacketIn (packet_of view)) }
        ensures size { IfOk result (λ view. length frame.now ≡ 18 + length view.payload.now) }
    {
        read(frame.as_slice())
    }

    /// The message, of at most 65,535 bytes.
    pub fn encode(&self, alloc: Global) -> Result<Frame, AllocError>
        requires { 18 + length self.now.payload.now ≤ 65535 }
        ensures value { IfOk result (λ f. f ≡ spell_packet_in (packet_of self.now)) }
        ensures kind { IfOk result (λ f. IsOf PACKET_IN f) }
        ensures size { IfOk result (λ f. length f ≡ 18 + length self.now.payload.now) }
    {
        self.encode_in(Vec::new(alloc))
    }

    /// The same in memory that is there already, as far as it reaches.
    #[tactic(auto, unfolding(crate::specs::PacketIns::spell_packet_in))]
    #[inline(always)]
    pub fn encode_in(&self, mut memory: Vec<u8>) -> Result<Frame, AllocError>
        requires { 18 + length self.now.payload.now ≤ 65535 }
        ensures value { IfOk result (λ f. f ≡ spell_packet_in (packet_of self.now)) }
        ensures kind { IfOk result (λ f. IsOf PACKET_IN f) }
        ensures size { IfOk result (λ f. length f ≡ 18 + length self.now.payload.now) }
    {
        memory.clear();
        memory.reserve_exact(18 + self.payload.len())?;
        memory.extend_from_slice(&front(self))?;
        memory.extend_from_slice(self.payload)?;
        Ok(Frame::of(memory))
    }

    /// The same with a copy of the payload.
    fn copied(&self, alloc: Global) -> Result<PacketIn, AllocError>
        ensures { IfOk result (λ packet. packet ≡ packet_of self.now) }
    {
        Ok(PacketIn {
            xid: self.xid,
            buffer: self.buffer,
            total_len: self.total_len,
            in_port: self.in_port,
            reason: self.reason,
            payload: Bytes::of(alloc, self.payload)?,
        })
    }
}

impl PacketIn {
    /// The packet-in that the frame is, or its length where it is shorter than its fields.
    pub fn decode(alloc: Global, frame: &Frame) -> Result<PacketIn, DecodeFault>
        requires { IsOf PACKET_IN frame.now }
        ensures exact { Gives (λ m. m) result (read_packet_in frame.now) }
        ensures range { IfOk result IsPacketIn }
        ensures memory { result ≡ Err Memory → 18 ≤ length frame.now }
    {
        match PacketInView::decode(frame) {
            Ok(view) => Ok(view.copied(alloc)?),
            Err(fault) => Err(DecodeFault::Wire(fault)),
        }
    }

    /// The same packet-in; nothing is copied.
    pub fn view(&self) -> PacketInView<'_>
        ensures { packet_of result ≡ self.now }
    {
        PacketInView {
            xid: self.xid,
            buffer: self.buffer,
            total_len: self.total_len,
            in_port: self.in_port,
            reason: self.reason,
            payload: self.payload.as_slice(),
        }
    }

    /// The message, of at most 65,535 bytes.
    pub fn encode(&self, alloc: Global) -> Result<Frame, AllocError>
        requires { 18 + length self.now.payload ≤ 65535 }
        ensures value { IfOk result (λ f. f ≡ spell_packet_in self.now) }
        ensures kind { IfOk result (λ f. IsOf PACKET_IN f) }
        ensures size { IfOk result (λ f. length f ≡ 18 + length self.now.payload) }
    {
        self.view().encode(alloc)
    }
}
