//! The messages of a flow-mod.

ghost use Rattle.std.specs.Prelude.{ℕ, ◌≡◌, ◌⊎◌, ◌+◌, ◌<◌, ◌≤◌, false, List, length, All, Option, sum_by, IfOk, IfSome, IsTrue};
ghost use Rattle.of10_model.specs.declared.pattern.Pattern.{Pattern};
ghost use Rattle.of10_ctl.specs.declared.kind.TheConstants.{FLOW_MOD};
ghost use Rattle.of10_ctl.specs.Kinds.{IsOf};
ghost use Rattle.flowmod_expand.specs.Messages.{buffer_at, flow_messages, are_too_large, GivesMessages};

use crate::fault::BuildFault;
use crate::piece_messages::{piece_message, sent_actions};
use of10_action::{Actions, list_size};
use of10_ctl::Frame;
use of10_flow::FlowMod;
use of10_flow::protocol::{FLOW_MOD_FIELDS, MOST_ACTION_BYTES, NO_BUFFER};
use of10_match::Match;
use std::alloc::{AllocError, Global};

/// Bytes that all messages of one flow-mod may have together.
const EXPANSION: u64 = 262_144;

fn buffer_at(buffer: Option<(u32, u32)>, place: usize) -> u32
    ensures { result ≡ buffer_at buffer place }
{
    match buffer {
        Some((own, number)) if own as usize == place => number,
        _ => NO_BUFFER,
    }
}

/// Whether a message with so many bytes of actions is too large, alone or for the room that is left.
fn is_too_large(size: u64, room: u64) -> bool
    ensures large { IsTrue result → (65535 < 72 + size) ⊎ (room < 72 + size) }
    ensures fits { result ≡ false → (72 + size ≤ 65535) × (72 + size ≤ room) }
{
    size > MOST_ACTION_BYTES || FLOW_MOD_FIELDS + size > room
}

/// Whether the messages of pieces with these lists of actions are too large.
fn are_too_large(m: &FlowMod, actions: &[Actions]) -> bool
    ensures { (xid : ℕ) (pieces : List Pattern) (buffer : Option (ℕ × ℕ)) → length actions.now ≡ length pieces → result ≡ are_too_large (flow_messages m.now xid pieces actions.now buffer) }
{
    let mut room = EXPANSION;
    for list in actions {
        let size = list_size(sent_actions(m, list));
        if is_too_large(size, room) {
            return true;
        }
        room -= FLOW_MOD_FIELDS + size;
    }
    false
}

/// The messages of the pieces, which aren't too large.
fn messages(
    alloc: Global,
    m: &FlowMod,
    xid: u32,
    pieces: &[Match],
    actions: &[Actions],
    buffer: Option<(u32, u32)>,
) -> Result<Vec<Frame>, AllocError>
    requires lists { length actions.now ≡ length pieces.now }
    requires fits { are_too_large (flow_messages m.now xid pieces.now actions.now buffer) ≡ false }
    ensures value { IfOk result (λ frames. frames.items ≡ flow_messages m.now xid pieces.now actions.now buffer) }
    ensures kind { IfOk result (λ frames. All (IsOf FLOW_MOD) frames.items) }
{
    let mut frames = Vec::with_capacity(alloc, pieces.len())?;
    for (place, piece) in pieces.iter().enumerate() {
        let number = buffer_at(buffer, place);
        let sent = piece_message(m, xid, piece, &actions[place], number);
        frames.push(sent.encode(alloc)?)?;
    }
    Ok(frames)
}

/// One message for each piece of a flow-mod, under the transaction `xid` of the switch: the piece's match
/// and, but for a delete, the piece's own actions and the flag SEND_FLOW_REM alone; all else as the
/// flow-mod has it. The piece whose place `buffer` names has the buffer number behind it, all others none,
/// and deletes never have one.
pub fn build(
    alloc: Global,
    m: &FlowMod,
    xid: u32,
    pieces: &[Match],
    actions: &[Actions],
    buffer: Option<(u32, u32)>,
) -> Result<Vec<Frame>, BuildFault>
    requires lists { length actions.now ≡ length pieces.now }
    requires command { m.now.command ≤ 4 }
    requires place { IfSome buffer (λ own. own.0 < length pieces.now) }
    ensures exact { GivesMessages (λ frames. frames.items) result (flow_messages m.now xid pieces.now actions.now buffer) }
    ensures kind { IfOk result (λ frames. All (IsOf FLOW_MOD) frames.items) }
    ensures sizes { IfOk result (λ frames. All (λ frame. length frame ≤ 65535) frames.items) }
    ensures together { IfOk result (λ frames. sum_by length frames.items ≤ 262144) }
{
    if are_too_large(m, actions) {
        return Err(BuildFault::TooLarge);
    }
    match messages(alloc, m, xid, pieces, actions, buffer) {
        Ok(frames) => Ok(frames),
        Err(_) => Err(BuildFault::Memory),
    }
}
