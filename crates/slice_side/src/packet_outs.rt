//! Packet-outs of a slice, line by line (OpenFlow 1.0.0, section 5.3.6; the order of the lines is this
//! proxy's own rule).

ghost use Rattle.std.specs.Prelude.{ℕ, ◌≡◌, ◌==◌, ◌&&◌, ◌||◌, not, is_none, if◌then◌else◌, IfOk, option_map};
ghost use Rattle.std.specs.List.{list_any};
ghost use Rattle.of10_model.specs.Pattern.{has};
ghost use Rattle.of10_model.specs.Inclusion.{any_in_port};
ghost use Rattle.of10_port.specs.declared.protocol.TheConstants.{NONE, CONTROLLER};
ghost use Rattle.flowspace.specs.Owners.{has_port};
ghost use Rattle.flowspace.specs.Rules.{is_written_by};
ghost use Rattle.flow_facts.specs.PacketOuts.{carried_header, is_probe};
ghost use Rattle.slice_words.specs.PacketOuts.{is_buffered_out, marked, origin_with, permitted_out, sent_out_with, packet_out_size};
ghost use Rattle.flowspace.specs.Options.{first_some};
ghost use Rattle.slice_side.specs.Reactions.{without_physical, ground_at};
ghost use Rattle.slice_side.specs.Checking.{packet_kept, number_in, IsChecked, early, MayBeSent, IsPacketOutcome};

use crate::around::Around;
use crate::checked_actions::{Checked, check_actions};
use crate::held::packet_at;
use crate::ports::floods_for;
use action_check::{Origin, writes_by_some_port};
use buffer_map::Held;
use flow_facts::packet_out::{carried_header, is_probe};
use frame_header::probe_trailer;
use of10_action::error::{
    BAD_ACTION, BAD_REQUEST, REQUEST_NOT_PERMITTED, TOO_MANY_ACTIONS, UNKNOWN_BUFFER,
};
use of10_action::{Actions, Bytes, list_size};
use of10_ctl::Frame;
use of10_flow::PacketOut;
use of10_flow::protocol::NO_BUFFER;
use of10_port::protocol::{CONTROLLER, NONE};
use std::alloc::{AllocError, Global};

/// The fewest bytes of a probe before its trailer.
const PROBE_BYTES: usize = 52;

/// Bytes of a packet-out before its actions (OpenFlow 1.0.0, section 5.3.6).
const PACKET_OUT_FIELDS: u128 = 16;

/// The most bytes of a message (OpenFlow 1.0.0, section 5.1).
const MOST_BYTES: u128 = 65_535;

/// What becomes of a packet-out.
#[derive(Drop)]
pub(crate) enum PacketOutcome {
    /// It is refused with this class and code (OpenFlow 1.0.0, section 5.4.4).
    Refused(u16, u16),
    /// This message is sent on; it uses up the packet of this number of the slice, where there is a number.
    Sent { frame: Frame, used: Option<u32> },
}

fn is_buffered(m: &PacketOut) -> bool
    ensures { result ≡ is_buffered_out m.now }
{
    m.buffer != NO_BUFFER
}

/// Whether it names a packet that isn't held.
fn names_no_packet(m: &PacketOut, packet: &Option<Held>) -> bool
    ensures { result ≡ (is_buffered_out m.now && is_none packet.now) }
{
    is_buffered(m) && packet.is_none()
}

/// Whether a packet may count as received by the port.
fn may_come_by(around: &Around<'_>, port: u16) -> bool
    ensures { result ≡ (has_port around.now.policy.now.rules around.now.slot port || port == NONE || port == CONTROLLER) }
{
    around.policy.has_port(around.slot, port) || port == NONE || port == CONTROLLER
}

/// Whether a packet that it carries comes by another port.
fn comes_by_another(around: &Around<'_>, m: &PacketOut) -> bool
    ensures { result ≡ (not (is_buffered_out m.now) && not (has_port around.now.policy.now.rules around.now.slot m.now.in_port || m.now.in_port == NONE || m.now.in_port == CONTROLLER)) }
{
    !is_buffered(m) && !may_come_by(around, m.in_port)
}

/// Whether some rule of the slice has the header of the packet that it carries, by whichever port that came
/// in.
fn lies_aside(around: &Around<'_>, m: &PacketOut) -> bool
    ensures { result ≡ list_any (λ rule. is_written_by around.now.slot rule && has (any_in_port rule.pattern) (carried_header m.now)) around.now.policy.now.rules }
{
    writes_by_some_port(around.policy, around.slot, &carried_header(m))
}

/// Whether the slice may not write the packet that it carries, which is no probe.
fn carries_another(around: &Around<'_>, m: &PacketOut) -> bool
    ensures { result ≡ (not (is_buffered_out m.now) && not (is_probe m.now) && not (list_any (λ rule. is_written_by around.now.slot rule && has (any_in_port rule.pattern) (carried_header m.now)) around.now.policy.now.rules)) }
{
    !is_buffered(m) && !is_probe(m) && !lies_aside(around, m)
}

/// The lines before its actions: the packet that it names is held, and the one that it carries comes by a port
/// of the slice and is one that the slice may write.
fn early_fault(around: &Around<'_>, m: &PacketOut, packet: &Option<Held>) -> Option<(u16, u16)>
    requires { packet.now ≡ packet_kept around.now.state.now m.now.buffer }
    ensures { (quota xid : ℕ) → result ≡ first_some (early (ground_at around.now.policy.now.rules around.now.slot around.now.ports.now quota xid around.now.state.now) m.now) }
{
    if names_no_packet(m, packet) {
        return Some((BAD_REQUEST, UNKNOWN_BUFFER));
    }
    if comes_by_another(around, m) {
        return Some((BAD_REQUEST, REQUEST_NOT_PERMITTED));
    }
    if carries_another(around, m) {
        return Some((BAD_REQUEST, REQUEST_NOT_PERMITTED));
    }
    None
}

/// What its actions are applied to.
fn origin_of(m: &PacketOut, packet: &Option<Held>) -> Origin
    ensures { result ≡ origin_with (option_map without_physical packet.now) m.now }
{
    match packet {
        Some(packet) => Origin::Packet(packet.header),
        None => {
            if is_probe(m) {
                Origin::Probe { in_port: m.in_port }
            } else {
                Origin::Packet(carried_header(m))
            }
        }
    }
}

/// What the slice may have of its actions.
fn check_out(
    alloc: Global,
    around: &Around<'_>,
    m: &PacketOut,
    packet: &Option<Held>,
) -> Result<Checked, AllocError>
    requires { packet.now ≡ packet_kept around.now.state.now m.now.buffer }
    ensures { (quota xid : ℕ) → IfOk result (IsChecked (permitted_out (ground_at around.now.policy.now.rules around.now.slot around.now.ports.now quota xid around.now.state.now) m.now)) }
{
    let actions = m.actions.as_slice();
    let floods = floods_for(alloc, around, actions)?;
    let origin = origin_of(m, packet);
    check_actions(alloc, around, &floods, &origin, actions)
}

/// A probe's packet, filled with zero bytes, with the slice's mark behind it.
fn marked(alloc: Global, slot: u8, packet: &[u8]) -> Result<Vec<u8>, AllocError>
    ensures { IfOk result (λ bytes. bytes.items ≡ marked slot packet.now) }
{
    let mut bytes = Vec::from_slice(alloc, packet)?;
    bytes.resize(packet.len().max(PROBE_BYTES), 0)?;
    bytes.extend_from_slice(&probe_trailer(slot))?;
    Ok(bytes)
}

/// The packet that is sent along where none is held.
fn payload(alloc: Global, slot: u8, m: &PacketOut) -> Result<Bytes, AllocError>
    ensures { IfOk result (λ bytes. bytes ≡ (if is_probe m.now then marked slot m.now.payload else m.now.payload)) }
{
    let packet = m.payload.as_slice();
    if is_probe(m) {
        return Ok(Bytes::from_vec(marked(alloc, slot, packet)?));
    }
    Bytes::of(alloc, packet)
}

/// The packet-out for the switch: a packet that is held goes by the switch's number, and counts as received
/// where it was.
fn packet_out_for(
    alloc: Global,
    around: &Around<'_>,
    xid: u32,
    m: &PacketOut,
    packet: &Option<Held>,
    actions: Actions,
) -> Result<PacketOut, AllocError>
    ensures { (quota : ℕ) → IfOk result (λ out. out ≡ record (sent_out_with (option_map without_physical packet.now) (ground_at around.now.policy.now.rules around.now.slot around.now.ports.now quota xid around.now.state.now) m.now actions) { buffer = number_in packet.now }) }
{
    match packet {
        Some(packet) => Ok(PacketOut {
            xid,
            buffer: packet.physical,
            in_port: packet.header.in_port,
            actions,
            payload: Bytes::of(alloc, &[])?,
        }),
        None => Ok(PacketOut {
            xid,
            buffer: NO_BUFFER,
            in_port: m.in_port,
            actions,
            payload: payload(alloc, around.slot, m)?,
        }),
    }
}

/// Bytes of the message.
fn size(m: &PacketOut) -> u128
    ensures { result ≡ packet_out_size m.now }
{
    let actions = list_size(m.actions.as_slice());
    PACKET_OUT_FIELDS + u128::from(actions) + m.payload.as_slice().len() as u128
}

/// The number of the packet that is used up, where one is held.
fn used(m: &PacketOut, packet: &Option<Held>) -> Option<u32>
    ensures { result ≡ option_map (λ held. m.now.buffer) packet.now }
{
    match packet {
        Some(_) => Some(m.buffer),
        None => None,
    }
}

/// What becomes of a packet-out that may have these actions: it is sent on where the message isn't too large.
fn sent(
    alloc: Global,
    around: &Around<'_>,
    xid: u32,
    m: &PacketOut,
    packet: &Option<Held>,
    actions: Actions,
) -> Result<PacketOutcome, AllocError>
    requires { packet.now ≡ packet_kept around.now.state.now m.now.buffer }
    ensures { (quota : ℕ) → MayBeSent (ground_at around.now.policy.now.rules around.now.slot around.now.ports.now quota xid around.now.state.now) m.now actions → IfOk result (IsPacketOutcome around.now.state.now (ground_at around.now.policy.now.rules around.now.slot around.now.ports.now quota xid around.now.state.now) m.now) }
{
    let out = packet_out_for(alloc, around, xid, m, packet, actions)?;
    if size(&out) > MOST_BYTES {
        return Ok(PacketOutcome::Refused(BAD_ACTION, TOO_MANY_ACTIONS));
    }
    Ok(PacketOutcome::Sent {
        frame: out.encode(alloc)?,
        used: used(m, packet),
    })
}

/// What becomes of a packet-out: the first line that applies refuses it, and else it is sent on, under this
/// transaction id.
pub(crate) fn packet_outcome(
    alloc: Global,
    around: &Around<'_>,
    xid: u32,
    m: &PacketOut,
) -> Result<PacketOutcome, AllocError>
    ensures { (quota : ℕ) → IfOk result (IsPacketOutcome around.now.state.now (ground_at around.now.policy.now.rules around.now.slot around.now.ports.now quota xid around.now.state.now) m.now) }
{
    let packet = packet_at(around.state, m.buffer);
    match early_fault(around, m, &packet) {
        Some((class, code)) => return Ok(PacketOutcome::Refused(class, code)),
        None => {}
    }
    match check_out(alloc, around, m, &packet)? {
        Checked::Forbidden(code) => Ok(PacketOutcome::Refused(BAD_ACTION, code)),
        Checked::TooMany => Ok(PacketOutcome::Refused(BAD_ACTION, TOO_MANY_ACTIONS)),
        Checked::Given(actions) => sent(alloc, around, xid, m, &packet, actions),
    }
}
