//! What is wrong with one message that was sent for a slice.

ghost use Rattle.std.specs.Prelude.{◌≡◌, true, is_some, IfOk};
ghost use Rattle.trace_audit.specs.Judging.{is_written, is_written_header, is_marked, may_come, packet_why, buffer_why, carried_origin, carried_why, held_why, flow_mod_why, packet_out_why};

use crate::actions::action_code;
use crate::why::Why;
use action_check::{Origin, writes_by_some_port};
use flow_facts::packet_out::carried_header;
use flowspace::SwitchPolicy;
use frame_header::probe_slot;
use of10_flow::protocol::{DELETE_STRICT, NO_BUFFER};
use of10_flow::{FlowMod, PacketOut};
use of10_match::{Header12, Match};
use of10_port::protocol::{CONTROLLER, NONE};
use std::alloc::{AllocError, Global};

/// The place of the first rule that lets the slice write all of the match.
fn cover_place(policy: &SwitchPolicy, slot: u8, m: &Match) -> Option<u16>
    ensures { is_some result ≡ is_written policy.now.rules slot m.now }
{
    policy.first_cover(slot, m, true)
}

/// The place of the first rule that lets the slice write the header, by its own port of entry.
fn header_place(policy: &SwitchPolicy, slot: u8, header: &Header12) -> Option<u16>
    ensures { is_some result ≡ is_written_header policy.now.rules slot true header.now }
{
    policy.first_written(slot, header, true)
}

fn is_written(policy: &SwitchPolicy, slot: u8, m: &Match) -> bool
    ensures { result ≡ is_written policy.now.rules slot m.now }
{
    cover_place(policy, slot, m).is_some()
}

fn is_written_header(policy: &SwitchPolicy, slot: u8, header: &Header12) -> bool
    ensures { result ≡ is_written_header policy.now.rules slot true header.now }
{
    header_place(policy, slot, header).is_some()
}

/// What is wrong with the packet under a flow-mod's number, if anything is.
fn packet_why(policy: &SwitchPolicy, slot: u8, m: &Match, held: &Option<Header12>) -> Option<Why>
    ensures { result ≡ packet_why policy.now.rules slot m.now held.now }
{
    match held {
        Some(header) if is_written_header(policy, slot, header) && m.matches(header) => None,
        _ => Some(Why::Buffer),
    }
}

/// The same where the flow-mod has a number.
fn buffer_why(policy: &SwitchPolicy, slot: u8, m: &FlowMod, held: &Option<Header12>) -> Option<Why>
    ensures { result ≡ buffer_why held.now policy.now.rules slot m.now }
{
    if m.buffer == NO_BUFFER {
        return None;
    }
    packet_why(policy, slot, &m.pattern, held)
}

/// What is first wrong with a flow-mod that was sent for the slice at a slot, if anything is: its command or flags,
/// its match, its packet, its actions. `held` is the header of the packet that the switch keeps under its number.
#[tactic(auto, unfolding(crate::specs::Judging::flow_mod_why))]
pub fn flow_mod_why(
    alloc: Global,
    policy: &SwitchPolicy,
    held: &Option<Header12>,
    slot: u8,
    m: &FlowMod,
) -> Result<Option<Why>, AllocError>
    ensures { IfOk result (λ why. why ≡ flow_mod_why held.now policy.now.rules slot m.now) }
{
    if m.command > DELETE_STRICT || m.is_emergency() {
        return Ok(Some(Why::Kind));
    }
    if !is_written(policy, slot, &m.pattern) {
        return Ok(Some(Why::Space));
    }
    let wrong_packet = buffer_why(policy, slot, m, held);
    if wrong_packet.is_some() {
        return Ok(wrong_packet);
    }
    if m.is_delete() {
        return Ok(None);
    }
    let origin = Origin::Piece(m.pattern);
    let code = action_code(alloc, policy, slot, &origin, m.actions.as_slice())?;
    Ok(code.map(|code| Why::Action(code)))
}

/// Whether it bears the slice's mark.
fn is_marked(slot: u8, m: &PacketOut) -> bool
    ensures { result ≡ is_marked slot m.now }
{
    probe_slot(m.payload.as_slice()) == Some(slot)
}

/// Whether a packet that is sent for the slice may count as received by the port.
fn may_come(policy: &SwitchPolicy, slot: u8, port: u16) -> bool
    ensures { result ≡ may_come policy.now.rules slot port }
{
    policy.has_port(slot, port) || port == NONE || port == CONTROLLER
}

/// What the actions of a packet-out that carries its packet are applied to.
fn carried_origin(slot: u8, m: &PacketOut) -> Origin
    ensures { result ≡ carried_origin slot m.now }
{
    if is_marked(slot, m) {
        Origin::Probe { in_port: m.in_port }
    } else {
        Origin::Packet(carried_header(m))
    }
}

/// What is first wrong with a packet-out that carries its packet.
fn carried_why(
    alloc: Global,
    policy: &SwitchPolicy,
    slot: u8,
    m: &PacketOut,
) -> Result<Option<Why>, AllocError>
    ensures { IfOk result (λ why. why ≡ carried_why policy.now.rules slot m.now) }
{
    if !is_marked(slot, m) && !writes_by_some_port(policy, slot, &carried_header(m)) {
        return Ok(Some(Why::Space));
    }
    if !may_come(policy, slot, m.in_port) {
        return Ok(Some(Why::Space));
    }
    let origin = carried_origin(slot, m);
    let code = action_code(alloc, policy, slot, &origin, m.actions.as_slice())?;
    Ok(code.map(|code| Why::Action(code)))
}

/// What is first wrong with one that names its packet.
fn held_why(
    alloc: Global,
    policy: &SwitchPolicy,
    held: &Option<Header12>,
    slot: u8,
    m: &PacketOut,
) -> Result<Option<Why>, AllocError>
    ensures { IfOk result (λ why. why ≡ held_why policy.now.rules slot m.now held.now) }
{
    let Some(header) = held else {
        return Ok(Some(Why::Buffer));
    };
    if !is_written_header(policy, slot, header) {
        return Ok(Some(Why::Buffer));
    }
    let origin = Origin::Packet(*header);
    let code = action_code(alloc, policy, slot, &origin, m.actions.as_slice())?;
    Ok(code.map(|code| Why::Action(code)))
}

/// What is first wrong with a packet-out that was sent for the slice at a slot, if anything is: its packet, the port
/// by which that counts as received, its actions. `held` is the header of the packet that the switch keeps under its
/// number.
#[tactic(auto, unfolding(crate::specs::Judging::packet_out_why))]
pub fn packet_out_why(
    alloc: Global,
    policy: &SwitchPolicy,
    held: &Option<Header12>,
    slot: u8,
    m: &PacketOut,
) -> Result<Option<Why>, AllocError>
    ensures { IfOk result (λ why. why ≡ packet_out_why held.now policy.now.rules slot m.now) }
{
    if m.buffer == NO_BUFFER {
        carried_why(alloc, policy, slot, m)
    } else {
        held_why(alloc, policy, held, slot, m)
    }
}
