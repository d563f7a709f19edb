//! Flow-mods of a slice, line by line (OpenFlow 1.0.0, section 5.3.3; the order of the lines is this proxy's
//! own rule).

ghost use Rattle.std.specs.Prelude.{ℕ, ◌≡◌, ◌≢◌, ◌≤◌, ◌<◌, ◌==◌, ◌&&◌, not, ◌∷◌, [], length, map, AllPairs, IfOk, option_map};
ghost use Rattle.of10_flow.specs.declared.protocol.TheConstants.{CHECK_OVERLAP, EMERG};
ghost use Rattle.of10_flow.specs.Tables.{is_delete, has_flag};
ghost use Rattle.flowspace.specs.Options.{first_some, when};
ghost use Rattle.slice_words.specs.FlowMods.{Ground, pieces_on, is_packet_in, wrong_command, emergency, unknown_buffer, overlapping, over_quota};
ghost use Rattle.slice_side.specs.Reactions.{without_physical, ground_at};
ghost use Rattle.flowmod_expand.specs.Pieces.{pieces_of};
ghost use Rattle.flow_book.specs.Books.{overlaps_in};
ghost use Rattle.slice_side.specs.Checking.{held_for, not_held_in, IsListed, PassesEarly, IsOutcome, HasDistinctPieces, HasLists};

use crate::around::Around;
use crate::checked_actions::{Listing, list_pieces, no_actions};
use crate::held::{carrier, packet_at};
use crate::ports::floods_for;
use buffer_map::Held;
use flow_book::SliceState;
use flowmod_expand::{BuildFault, build, pieces};
use of10_action::Actions;
use of10_action::error::{
    ALL_TABLES_FULL, BAD_ACTION, BAD_COMMAND, BAD_REQUEST, FLOW_MOD_FAILED, FLOW_MOD_NOT_PERMITTED,
    OVERLAP, TOO_MANY_ACTIONS, UNKNOWN_BUFFER,
};
use of10_ctl::Frame;
use of10_flow::FlowMod;
use of10_flow::protocol::{ADD, DELETE_STRICT, NO_BUFFER};
use of10_match::Match;
use std::alloc::{AllocError, Global};

/// What becomes of a flow-mod.
#[derive(Drop)]
pub(crate) enum FlowModOutcome {
    /// It is refused with this class and code (OpenFlow 1.0.0, section 5.4.4).
    Refused(u16, u16),
    /// These messages are sent on, one for each of the pieces; one of them uses up the packet of this number
    /// of the slice, where there is a number.
    Sent {
        frames: Vec<Frame>,
        pieces: Vec<Match>,
        used: Option<u32>,
    },
}

/// The packet that the flow-mod names; a delete's number is disregarded.
fn packet_for(state: &SliceState, m: &FlowMod) -> Option<Held>
    ensures { result ≡ held_for state.now m.now }
{
    if m.is_delete() {
        return None;
    }
    packet_at(state, m.buffer)
}

/// Whether its match has the header of the packet that it names.
fn has_packet(state: &SliceState, m: &FlowMod) -> bool
    ensures { result ≡ is_packet_in m.now.pattern (option_map without_physical (held_for state.now m.now)) }
{
    match packet_for(state, m) {
        Some(packet) => m.pattern.matches(&packet.header),
        None => false,
    }
}

/// Whether it names a packet that isn't held, or whose header isn't in its match.
fn names_another(state: &SliceState, m: &FlowMod) -> bool
    ensures { result ≡ not_held_in state.now m.now }
{
    !m.is_delete() && m.buffer != NO_BUFFER && !has_packet(state, m)
}

/// The lines that look at the flow-mod and its packet alone: its command, its flags and its buffer.
fn early_fault(state: &SliceState, m: &FlowMod) -> Option<(u16, u16)>
    ensures { result ≡ first_some (wrong_command m.now ∷ emergency m.now ∷ when (not_held_in state.now m.now) unknown_buffer ∷ []) }
{
    if m.command > DELETE_STRICT {
        return Some((FLOW_MOD_FAILED, BAD_COMMAND));
    }
    if m.is_emergency() {
        return Some((FLOW_MOD_FAILED, FLOW_MOD_NOT_PERMITTED));
    }
    if names_another(state, m) {
        return Some((BAD_REQUEST, UNKNOWN_BUFFER));
    }
    None
}

/// Whether the slice may write nothing of the match; a delete then deletes nothing.
fn is_outside(m: &FlowMod, pieces: &[Match]) -> bool
    ensures { result ≡ (not (is_delete m.now) && length pieces.now == 0) }
{
    !m.is_delete() && pieces.is_empty()
}

/// Whether it asks to be refused where it overlaps, and does.
fn is_overlapping(state: &SliceState, m: &FlowMod, pieces: &[Match]) -> bool
    ensures { result ≡ (m.now.command == ADD && has_flag CHECK_OVERLAP m.now && overlaps_in pieces.now m.now.priority state.now.book.booked) }
{
    m.command == ADD && m.checks_overlap() && state.book.overlaps(pieces, m.priority)
}

/// The lines that look at the book.
fn late_fault(state: &SliceState, m: &FlowMod, pieces: &[Match], quota: u32) -> Option<(u16, u16)>
    requires distinct { AllPairs (λ a b. a ≢ b) pieces.now }
    requires few { length pieces.now ≤ 256 }
    ensures { (g : Ground) → pieces.now ≡ pieces_on g m.now → state.now.book.booked ≡ g.booked → quota ≡ g.quota → result ≡ first_some (overlapping g m.now ∷ over_quota g m.now ∷ []) }
{
    if is_overlapping(state, m, pieces) {
        return Some((FLOW_MOD_FAILED, OVERLAP));
    }
    if !state.book.fits(m.command, pieces, m.priority, quota) {
        return Some((FLOW_MOD_FAILED, ALL_TABLES_FULL));
    }
    None
}

/// The action lists of the pieces.
fn lists(
    alloc: Global,
    around: &Around<'_>,
    m: &FlowMod,
    pieces: &[Match],
) -> Result<Listing, AllocError>
    requires { pieces.now ≡ pieces_of around.now.policy.now.rules around.now.slot m.now.pattern }
    ensures { (quota xid : ℕ) → IfOk result (IsListed (ground_at around.now.policy.now.rules around.now.slot around.now.ports.now quota xid around.now.state.now) m.now) }
{
    if m.is_delete() {
        return Ok(Listing::Given(no_actions(alloc, pieces)?));
    }
    let actions = m.actions.as_slice();
    let floods = floods_for(alloc, around, actions)?;
    list_pieces(alloc, around, &floods, pieces, actions)
}

/// The number of the packet that is used up, where a piece carries it.
fn used(m: &FlowMod, carrier: &Option<(u32, u32)>) -> Option<u32>
    ensures { result ≡ option_map (λ own. m.now.buffer) carrier.now }
{
    match carrier {
        Some(_) => Some(m.buffer),
        None => None,
    }
}

/// What becomes of a flow-mod whose pieces have these lists.
fn built(
    alloc: Global,
    around: &Around<'_>,
    quota: u32,
    xid: u32,
    m: &FlowMod,
    pieces: Vec<Match>,
    lists: &[Actions],
) -> Result<FlowModOutcome, AllocError>
    requires command { m.now.command ≤ 4 }
    requires pieces { pieces.items ≡ pieces_of around.now.policy.now.rules around.now.slot m.now.pattern }
    requires distinct { AllPairs (λ a b. a ≢ b) pieces.items }
    requires few { length pieces.items ≤ 256 }
    requires lists { length lists.now ≡ length pieces.items }
    ensures sound { IfOk result HasDistinctPieces }
    ensures outcome { PassesEarly (ground_at around.now.policy.now.rules around.now.slot around.now.ports.now quota xid around.now.state.now) m.now → HasLists (ground_at around.now.policy.now.rules around.now.slot around.now.ports.now quota xid around.now.state.now) m.now lists.now → IfOk result (IsOutcome around.now.state.now (ground_at around.now.policy.now.rules around.now.slot around.now.ports.now quota xid around.now.state.now) m.now) }
{
    let carrier = carrier(&packet_for(around.state, m), &pieces);
    match build(alloc, m, xid, &pieces, lists, carrier) {
        Err(BuildFault::TooLarge) => Ok(FlowModOutcome::Refused(BAD_ACTION, TOO_MANY_ACTIONS)),
        Err(BuildFault::Memory) => Err(AllocError),
        Ok(frames) => match late_fault(around.state, m, &pieces, quota) {
            Some((class, code)) => Ok(FlowModOutcome::Refused(class, code)),
            None => Ok(FlowModOutcome::Sent {
                frames,
                pieces,
                used: used(m, &carrier),
            }),
        },
    }
}

/// What becomes of a flow-mod: the first line that applies refuses it, and else it is sent on piece by
/// piece, under this transaction id.
pub(crate) fn outcome_of(
    alloc: Global,
    around: &Around<'_>,
    quota: u32,
    xid: u32,
    m: &FlowMod,
) -> Result<FlowModOutcome, AllocError>
    ensures sound { IfOk result HasDistinctPieces }
    ensures outcome { IfOk result (IsOutcome around.now.state.now (ground_at around.now.policy.now.rules around.now.slot around.now.ports.now quota xid around.now.state.now) m.now) }
{
    match early_fault(around.state, m) {
        Some((class, code)) => return Ok(FlowModOutcome::Refused(class, code)),
        None => {}
    }
    let pieces = pieces(alloc, around.policy, around.slot, &m.pattern)?;
    if is_outside(m, &pieces) {
        return Ok(FlowModOutcome::Refused(FLOW_MOD_FAILED, FLOW_MOD_NOT_PERMITTED));
    }
    match lists(alloc, around, m, &pieces)? {
        Listing::Forbidden(code) => Ok(FlowModOutcome::Refused(BAD_ACTION, code)),
        Listing::TooMany => Ok(FlowModOutcome::Refused(BAD_ACTION, TOO_MANY_ACTIONS)),
        Listing::Given(lists) => built(alloc, around, quota, xid, m, pieces, &lists),
    }
}
