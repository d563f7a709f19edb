//! Packets that the switch hands up (OpenFlow 1.0.0, section 5.4.1).

ghost use Rattle.std.specs.Prelude.{◌≡◌, ◌+◌, ◌≤◌, ◌++◌, ◌∷◌, [], length, OnOk};
ghost use Rattle.of10_flow.specs.PacketIns.{packet_of, spell_packet_in};
ghost use Rattle.desk_words.specs.Histories.{header_in};
ghost use Rattle.switch_side.specs.Dispatches.{addressed, said_from};
ghost use Rattle.switch_side.specs.Carrying.{carried, once, unnumbered, unmarked, wanted, written, named_told, packet_for, change_for, changes_from, changes_with, packets_for_all, packet_changes, handing};

use crate::audience::Audience;
use crate::change::Change;
use crate::spare::Spare;
use flow_book::SliceState;
use flowspace::{SwitchPolicy, has_slot};
use frame_header::header_of;
use of10_flow::PacketInView;
use of10_flow::protocol::NO_BUFFER;
use of10_match::Header12;
use rule_index::RuleIndex;
use std::alloc::{AllocError, Global};

/// Bytes of a probe's mark.
const MARK: u16 = 8;

/// The packet as readers are sent it: whole, without a number.
fn unnumbered<'a>(packet: &PacketInView<'a>) -> PacketInView<'a>
    ensures value { packet_of result ≡ unnumbered (packet_of packet.now) }
    ensures size { length result.payload.now ≡ length packet.now.payload.now }
{
    PacketInView {
        xid: 0,
        buffer: NO_BUFFER,
        ..*packet
    }
}

/// A probe as its slice is sent it: without its mark.
fn unmarked<'a>(packet: &PacketInView<'a>) -> PacketInView<'a>
    ensures value { packet_of result ≡ unmarked (packet_of packet.now) }
    ensures size { length result.payload.now ≤ length packet.now.payload.now }
{
    let end = packet.payload.len().saturating_sub(usize::from(MARK));
    PacketInView {
        total_len: packet.total_len.saturating_sub(MARK),
        payload: &packet.payload[..end],
        ..unnumbered(packet)
    }
}

/// What the slice wants of a packet that is kept for it.
fn wanted<'a>(state: &SliceState, packet: &PacketInView<'a>) -> &'a [u8]
    ensures value { result.now ≡ wanted state.now.miss_send_len (packet_of packet.now) }
    ensures size { length result.now ≤ length packet.now.payload.now }
{
    if packet.reason != 0 {
        return packet.payload;
    }
    let end = usize::from(state.miss_send_len).min(packet.payload.len());
    &packet.payload[..end]
}

/// The packet as its writer is sent it: with a number of the writer's own, where the switch keeps it.
fn written<'a>(state: &SliceState, packet: &PacketInView<'a>) -> PacketInView<'a>
    ensures value { packet_of result ≡ written state.now (packet_of packet.now) }
    ensures size { length result.payload.now ≤ length packet.now.payload.now }
{
    if packet.buffer == NO_BUFFER {
        return unnumbered(packet);
    }
    PacketInView {
        xid: 0,
        buffer: state.buffers.next(),
        payload: wanted(state, packet),
        ..*packet
    }
}

#[inline(always)]
fn put(
    alloc: Global,
    spare: &mut Spare,
    slot: u8,
    packet: &PacketInView<'_>,
) -> Result<(), AllocError>
    requires { 18 + length packet.now.payload.now ≤ 65535 }
    ensures { OnOk result (spare.new.dispatch.to_slices.items ≡ spare.old.dispatch.to_slices.items ++ (slot, spell_packet_in (packet_of packet.now)) ∷ []) }
{
    let memory = spare.memory_for(alloc, 18 + packet.payload.len());
    let message = packet.encode_in(memory)?;
    spare.dispatch.to_slices.push((slot, message))?;
    Ok(())
}

/// The packet for a slice that is up and that a rule names: as its writer, and as a reader.
fn put_named(
    alloc: Global,
    spare: &mut Spare,
    slot: u8,
    state: &SliceState,
    packet: &PacketInView<'_>,
    writes: bool,
    reads: bool,
) -> Result<(), AllocError>
    requires { 18 + length packet.now.payload.now ≤ 65535 }
    ensures { OnOk result (spare.new.dispatch.to_slices.items ≡ spare.old.dispatch.to_slices.items ++ addressed slot (named_told writes reads state.now (packet_of packet.now))) }
{
    if writes {
        put(alloc, spare, slot, &written(state, packet))?;
    }
    if reads {
        put(alloc, spare, slot, &unnumbered(packet))?;
    }
    Ok(())
}

/// A probe for a slice that is up, if it is the slice's own.
fn put_probe(
    alloc: Global,
    spare: &mut Spare,
    slot: u8,
    packet: &PacketInView<'_>,
    is_own: bool,
) -> Result<(), AllocError>
    requires { 18 + length packet.now.payload.now ≤ 65535 }
    ensures { OnOk result (spare.new.dispatch.to_slices.items ≡ spare.old.dispatch.to_slices.items ++ addressed slot (once is_own (spell_packet_in (unmarked (packet_of packet.now))))) }
{
    if is_own {
        put(alloc, spare, slot, &unmarked(packet))?;
    }
    Ok(())
}

/// The packet for the slice at a slot, if it is up.
fn put_for_slice(
    alloc: Global,
    spare: &mut Spare,
    slot: u8,
    state: &SliceState,
    packet: &PacketInView<'_>,
    audience: Audience,
) -> Result<(), AllocError>
    requires { 18 + length packet.now.payload.now ≤ 65535 }
    ensures { OnOk result (spare.new.dispatch.to_slices.items ≡ spare.old.dispatch.to_slices.items ++ addressed slot (packet_for audience (packet_of packet.now) slot state.now)) }
{
    if !state.up {
        return Ok(());
    }
    match audience {
        Audience::Prober(prober) => put_probe(alloc, spare, slot, packet, prober == slot),
        Audience::Named { writer, readers } => put_named(
            alloc,
            spare,
            slot,
            state,
            packet,
            writer == Some(slot),
            has_slot(readers, slot),
        ),
    }
}

/// The packet for all slices that are up.
fn put_for_all(
    alloc: Global,
    spare: &mut Spare,
    states: &[SliceState],
    packet: &PacketInView<'_>,
    audience: Audience,
) -> Result<(), AllocError>
    requires few { length states.now ≤ 32 }
    requires fits { 18 + length packet.now.payload.now ≤ 65535 }
    ensures { OnOk result (spare.new.dispatch.to_slices.items ≡ said_from (packet_for audience (packet_of packet.now)) 0 states.now) }
{
    spare.dispatch.to_slices.clear();
    for (place, state) in states.iter().enumerate() {
        put_for_slice(alloc, spare, place as u8, state, packet, audience)?;
    }
    Ok(())
}

/// What changes for the slice at a slot where the switch keeps the packet under a number: the writer that is
/// up is given it, and to all others what they held under the number is lost.
fn change_for(slot: u8, up: bool, physical: u32, header: &Header12, audience: Audience) -> Change
    ensures { result ≡ change_for audience physical header.now slot up }
{
    if up && audience.has_writer(slot) {
        Change::Given {
            physical,
            header: *header,
        }
    } else {
        Change::Lost { physical }
    }
}

/// What changes for all slices where the switch keeps the packet under a number.
fn put_changes(
    changes: &mut Vec<(u8, Change)>,
    states: &[SliceState],
    physical: u32,
    header: &Header12,
    audience: Audience,
) -> Result<(), AllocError>
    requires few { length states.now ≤ 32 }
    requires none { changes.old.items ≡ [] }
    ensures { OnOk result (changes.new.items ≡ changes_from (change_for audience physical header.now) 0 states.now) }
{
    changes.reserve(states.len())?;
    for (place, state) in states.iter().enumerate() {
        let slot = place as u8;
        changes.push((slot, change_for(slot, state.up, physical, header, audience)))?;
    }
    Ok(())
}

/// What changes with a packet: nothing where the switch doesn't keep it.
fn put_all_changes(
    changes: &mut Vec<(u8, Change)>,
    states: &[SliceState],
    packet: &PacketInView<'_>,
    header: &Header12,
    audience: Audience,
) -> Result<(), AllocError>
    requires few { length states.now ≤ 32 }
    requires header { header.now ≡ header_in (packet_of packet.now) }
    ensures { OnOk result (changes.new.items ≡ changes_with audience (packet_of packet.now) states.now) }
{
    changes.clear();
    if packet.buffer == NO_BUFFER {
        return Ok(());
    }
    put_changes(changes, states, packet.buffer, header, audience)
}

/// What follows from a PACKET_IN, in the place of what followed from the message before. The first message is made in
/// spare memory.
pub(crate) fn packet_in(
    alloc: Global,
    spare: &mut Spare,
    policy: &SwitchPolicy,
    index: &RuleIndex,
    states: &[SliceState],
    packet: &PacketInView<'_>,
) -> Result<(), AllocError>
    requires few { length states.now ≤ 32 }
    requires fits { 18 + length packet.now.payload.now ≤ 65535 }
    requires index { index.now ≡ policy.now.rules }
    ensures { OnOk result (carried spare.new.dispatch ≡ handing (packets_for_all policy.now.rules states.now (packet_of packet.now)) (packet_changes policy.now.rules states.now (packet_of packet.now))) }
{
    let header = header_of(packet.in_port, packet.payload);
    let audience = Audience::of(policy, index, states.len(), packet, &header);
    put_for_all(alloc, spare, states, packet, audience)?;
    let dispatch = &mut spare.dispatch;
    put_all_changes(&mut dispatch.changes, states, packet, &header, audience)?;
    dispatch.to_switch.clear();
    // A port's place is large, and few messages fill it.
    if dispatch.port.is_some() {
        dispatch.port = None;
    }
    dispatch.close = false;
    Ok(())
}
