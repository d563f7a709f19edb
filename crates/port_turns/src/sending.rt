//! Messages for a slice, with the numbers exchanged that its swaps name, in place.

ghost use Rattle.std.specs.Prelude.{◌≡◌, ◌+◌, ◌-◌, ◌≤◌, ◌++◌, ◌==◌, ◌||◌, true, nat_lt, if◌then◌else◌, is_ok, length, map, take, drop, OnOk};
ghost use Rattle.std.specs.List.{list_any};
ghost use Rattle.of10_model.specs.Normal.{number_at};
ghost use Rattle.of10_stats.specs.declared.protocol.TheConstants.{PORT, QUEUE};
ghost use Rattle.of10_action.specs.Reading.{read_all};
ghost use Rattle.flowspace.specs.Swaps.{is_swap_of, pairs_of};
ghost use Rattle.port_turns.specs.Turns.{names_port, turn_list, turn_match, turn_port};
ghost use Rattle.port_turns.specs.Sent.{entry_bytes, piece_size, port_size, turn_entry, turn_all, turn_at, turn_flow, turn_piece, turn_out, turned_part, AreWithin};

use crate::places::{Piece, Places, places_of};
use crate::sorting::sort_ports;
use flowspace::{Swap, SwitchPolicy};
use of10_action::ActionsView;
use of10_ctl::Frame;
use of10_model::wire::{u16_at, u32_at};
use of10_stats::protocol::{FLOW, PORT, QUEUE};
use std::alloc::{AllocError, Global};

/// The port at a place is exchanged.
pub(crate) fn turn_port(policy: &SwitchPolicy, slot: u8, frame: &mut Frame, at: usize)
    requires body { 8 ≤ at }
    requires within { at + 2 ≤ length frame.old }
    ensures value { frame.new ≡ turn_port (pairs_of policy.now.swaps slot) at frame.old }
    ensures size { length frame.new ≡ length frame.old }
{
    let port = u16_at(frame.as_slice(), at);
    frame.set_number(at, policy.swapped(slot, port));
}

/// The port of entry of the match at a place is exchanged, where it isn't free.
pub(crate) fn turn_match(policy: &SwitchPolicy, slot: u8, frame: &mut Frame, at: usize)
    requires body { 8 ≤ at }
    requires within { at + 40 ≤ length frame.old }
    ensures value { frame.new ≡ turn_match (pairs_of policy.now.swaps slot) at frame.old }
    ensures size { length frame.new ≡ length frame.old }
{
    let word = u32_at(frame.as_slice(), at);
    if word % 2 == 0 {
        turn_port(policy, slot, frame, at + 4);
    }
}

/// The port of the action at a place is exchanged, where it names one.
fn turn_action(policy: &SwitchPolicy, slot: u8, frame: &mut Frame, at: usize)
    requires body { 8 ≤ at }
    requires within { at + 8 ≤ length frame.old }
    ensures value { frame.new ≡ (if names_port (number_at frame.old at 2) then turn_port (pairs_of policy.now.swaps slot) (at + 4) frame.old else frame.old) }
    ensures size { length frame.new ≡ length frame.old }
{
    let kind = u16_at(frame.as_slice(), at);
    if kind == 0 || kind == 11 {
        turn_port(policy, slot, frame, at + 4);
    }
}

/// The ports of actions are exchanged: they stand between two places and are right.
pub(crate) fn turn_actions(
    policy: &SwitchPolicy,
    slot: u8,
    frame: &mut Frame,
    from: usize,
    end: usize,
)
    requires body { 8 ≤ from }
    requires first { from ≤ end }
    requires within { end ≤ length frame.old }
    requires right { is_ok (read_all (take (end - from) (drop from frame.old))) ≡ true }
    ensures value { frame.new ≡ turned_part (turn_list (pairs_of policy.now.swaps slot)) from (end - from) frame.old }
    ensures size { length frame.new ≡ length frame.old }
{
    let mut at = from;
    while at < end {
        let length = usize::from(u16_at(frame.as_slice(), at + 2));
        turn_action(policy, slot, frame, at);
        at += length;
    }
}

/// Whether the bytes are actions that are right, up to their end.
fn are_actions(bytes: &[u8]) -> bool
    ensures { result ≡ is_ok (read_all bytes.now) }
{
    ActionsView::decode(bytes).is_ok()
}

/// The numbers of a flow entry are exchanged, which has so many bytes.
fn turn_flow(policy: &SwitchPolicy, slot: u8, frame: &mut Frame, at: usize, size: usize)
    requires body { 8 ≤ at }
    requires long { 88 ≤ size }
    requires within { at + size ≤ length frame.old }
    ensures value { frame.new ≡ turned_part (turn_flow (pairs_of policy.now.swaps slot)) at size frame.old }
    ensures size { length frame.new ≡ length frame.old }
{
    let bytes = frame.as_slice();
    let right = are_actions(&bytes[at + 88..at + size]);
    turn_match(policy, slot, frame, at + 4);
    if right {
        turn_actions(policy, slot, frame, at + 88, at + size);
    }
}

/// Whether entries of a type of statistics begin with the number of a port (OpenFlow 1.0.0, section 5.3.5).
fn begins_with_port(kind: u16) -> bool
    ensures { result ≡ (kind == PORT || kind == QUEUE) }
{
    kind == PORT || kind == QUEUE
}

/// The numbers of an entry of a type of statistics are exchanged, which has so many bytes.
fn turn_entry(policy: &SwitchPolicy, slot: u8, frame: &mut Frame, kind: u16, at: usize, size: usize)
    requires body { 8 ≤ at }
    requires some { 1 ≤ size }
    requires whole { size ≡ entry_bytes kind (drop at frame.old) }
    ensures value { frame.new ≡ turned_part (turn_entry (pairs_of policy.now.swaps slot) kind) at size frame.old }
    ensures size { length frame.new ≡ length frame.old }
{
    if kind == FLOW {
        turn_flow(policy, slot, frame, at, size);
    } else if begins_with_port(kind) {
        turn_port(policy, slot, frame, at);
    }
}

/// The number of a port of a switch is exchanged, which has so many bytes.
fn turn_described(policy: &SwitchPolicy, slot: u8, frame: &mut Frame, at: usize, size: usize)
    requires body { 8 ≤ at }
    requires some { 1 ≤ size }
    requires whole { size ≡ port_size (drop at frame.old) }
    ensures value { frame.new ≡ turned_part (turn_port (pairs_of policy.now.swaps slot) 0) at size frame.old }
    ensures size { length frame.new ≡ length frame.old }
{
    turn_port(policy, slot, frame, at);
}

/// The numbers of the piece at a place are exchanged, which has so many bytes.
fn turn_piece(
    policy: &SwitchPolicy,
    slot: u8,
    frame: &mut Frame,
    piece: Piece,
    at: usize,
    size: usize,
)
    requires body { 8 ≤ at }
    requires some { 1 ≤ size }
    requires whole { size ≡ piece_size piece (drop at frame.old) }
    ensures value { frame.new ≡ turned_part (turn_piece (pairs_of policy.now.swaps slot) piece) at size frame.old }
    ensures size { length frame.new ≡ length frame.old }
{
    match piece {
        Piece::Entry(kind) => turn_entry(policy, slot, frame, kind, at, size),
        Piece::Port => turn_described(policy, slot, frame, at, size),
    }
}

/// The numbers of all pieces behind a place are exchanged.
fn turn_pieces(policy: &SwitchPolicy, slot: u8, frame: &mut Frame, piece: Piece, from: usize)
    requires body { 8 ≤ from }
    requires within { from ≤ length frame.old }
    ensures value { frame.new ≡ take from frame.old ++ turn_all (pairs_of policy.now.swaps slot) piece (drop from frame.old) }
    ensures size { length frame.new ≡ length frame.old }
{
    let mut at = from;
    let mut size = piece.size(&frame.as_slice()[at..]);
    while size > 0 {
        turn_piece(policy, slot, frame, piece, at, size);
        at += size;
        size = piece.size(&frame.as_slice()[at..]);
    }
}

/// Numbers that stand in these places are exchanged.
fn turn_at(policy: &SwitchPolicy, slot: u8, frame: &mut Frame, places: Places)
    requires { AreWithin frame.old places }
    ensures value { frame.new ≡ turn_at (pairs_of policy.now.swaps slot) places frame.old }
    ensures size { length frame.new ≡ length frame.old }
{
    match places {
        Places::Port(at) => turn_port(policy, slot, frame, at),
        Places::Match(at) => turn_match(policy, slot, frame, at),
        Places::Entries(kind) => turn_pieces(policy, slot, frame, Piece::Entry(kind), 12),
        Places::Ports => turn_pieces(policy, slot, frame, Piece::Port, 32),
        Places::Nowhere => {}
    }
}

fn is_of(swap: &Swap, slot: u8) -> bool
    ensures { result ≡ is_swap_of slot swap.now }
{
    swap.slice == slot
}

fn has_one_of(swaps: &[Swap], slot: u8) -> bool
    ensures { result ≡ list_any (is_swap_of slot) swaps.now }
{
    swaps.iter().any(|swap| is_of(swap, slot))
}

/// Whether a swap of the slice at a slot holds on the switch.
pub(crate) fn has_swaps(policy: &SwitchPolicy, slot: u8) -> bool
    ensures { result ≡ nat_lt 0 (length (pairs_of policy.now.swaps slot)) }
{
    policy.has_swaps() && has_one_of(policy.swaps(), slot)
}

/// A message for the slice at a slot has the port numbers that the slice is shown, where it has a form of
/// OpenFlow 1.0.0, and a FEATURES_REPLY has its ports in ascending order of these (section 5; that numbers are
/// exchanged, and the order, are this proxy's own rule). Memory is taken for a FEATURES_REPLY alone.
#[tactic(auto, unfolding(crate::specs::Sent::turned_numbers, crate::specs::Sent::turn_out))]
pub fn turn_out(
    alloc: Global,
    policy: &SwitchPolicy,
    slot: u8,
    frame: &mut Frame,
) -> Result<(), AllocError>
    ensures { OnOk result (frame.new ≡ turn_out (pairs_of policy.now.swaps slot) frame.old) }
{
    if has_swaps(policy, slot) {
        let places = places_of(frame);
        turn_at(policy, slot, frame, places);
        if matches!(places, Places::Ports) {
            sort_ports(alloc, frame)?;
        }
    }
    Ok(())
}

fn turn_all_out(
    alloc: Global,
    policy: &SwitchPolicy,
    slot: u8,
    frames: &mut [Frame],
) -> Result<(), AllocError>
    ensures { OnOk result (frames.new ≡ map (turn_out (pairs_of policy.now.swaps slot)) frames.old) }
{
    for frame in frames.iter_mut() {
        turn_out(alloc, policy, slot, frame)?;
    }
    Ok(())
}

/// So it is of each of these messages. A slice without swaps costs one test.
pub fn turn_each_out(
    alloc: Global,
    policy: &SwitchPolicy,
    slot: u8,
    frames: &mut Vec<Frame>,
) -> Result<(), AllocError>
    ensures { OnOk result (frames.new.items ≡ map (turn_out (pairs_of policy.now.swaps slot)) frames.old.items) }
{
    if has_swaps(policy, slot) {
        turn_all_out(alloc, policy, slot, frames)?;
    }
    Ok(())
}
