//! What is sent for one piece of a flow-mod.

ghost use Rattle.std.specs.Prelude.{◌≡◌, [], if◌then◌else◌};
ghost use Rattle.std.specs.List.{All};
ghost use Rattle.of10_action.specs.Actions.{HasAddress};
ghost use Rattle.of10_flow.specs.FlowMods.{shown_flow_mod};
ghost use Rattle.of10_flow.specs.Tables.{is_delete};
ghost use Rattle.flowmod_expand.specs.Messages.{piece_message};

use of10_action::{Action, Actions};
use of10_flow::protocol::{NO_BUFFER, SEND_FLOW_REM};
use of10_flow::{FlowMod, FlowModParts};
use of10_match::Match;

/// The actions that the message of a piece has.
pub(crate) fn sent_actions<'a>(m: &FlowMod, actions: &'a Actions) -> &'a [Action]
    ensures value { result.now ≡ (if is_delete m.now then [] else actions.now) }
    ensures addresses { All HasAddress result.now }
{
    if m.is_delete() {
        &[]
    } else {
        actions.as_slice()
    }
}

/// The flow-mod that is sent for a piece, which has these actions and this buffer where it isn't a delete.
#[tactic(auto, unfolding(crate::specs::Messages::piece_message))]
pub(crate) fn piece_message<'a>(
    m: &FlowMod,
    xid: u32,
    piece: &'a Match,
    actions: &'a Actions,
    buffer: u32,
) -> FlowModParts<'a>
    ensures value { shown_flow_mod result ≡ piece_message m.now xid piece.now actions.now buffer }
    ensures addresses { All HasAddress result.actions.now }
{
    let (buffer, flags) = if m.is_delete() {
        (NO_BUFFER, 0)
    } else {
        (buffer, SEND_FLOW_REM)
    };
    FlowModParts {
        xid,
        pattern: piece,
        cookie: m.cookie,
        command: m.command,
        idle: m.idle,
        hard: m.hard,
        priority: m.priority,
        buffer,
        out_port: m.out_port,
        flags,
        actions: sent_actions(m, actions),
    }
}
