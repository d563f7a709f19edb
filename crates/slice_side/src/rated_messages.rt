//! Messages that ask something of the switch: the rate is asked for each of them.

ghost use Rattle.std.specs.Prelude.{◌≡◌, true, IfOk, Ok};
ghost use Rattle.of10_message.specs.declared.controller.FromController.TheVariants as said;
ghost use Rattle.of10_flow.specs.declared.protocol.TheConstants.{SEND_FLOW_REM};
ghost use Rattle.of10_flow.specs.Tables.{has_flag};
ghost use Rattle.slice_words.specs.Messages.{asks_switch, asked_of};
ghost use Rattle.slice_words.specs.Items.{Settings, Sight};
ghost use Rattle.slice_words.specs.Standing.{SliceStands, past_of};
ghost use Rattle.slice_words.specs.FlowMods.{ground_of};
ghost use Rattle.slice_words.specs.Answers.{flow_mod_answer, packet_out_answer, rated_answer};
ghost use Rattle.slice_side.specs.Reactions.{Sees, Follows, IsSoundChange, physical_said};
ghost use Rattle.slice_side.specs.Checking.{AreSentOn};

use crate::around::Around;
use crate::change::{Change, Modification};
use crate::flow_mods::{FlowModOutcome, outcome_of};
use crate::packet_outs::{PacketOutcome, packet_outcome};
use crate::reaction::Reaction;
use crate::refusals::refused;
use crate::remembering::asked;
use crate::requests::{barrier, queues, statistics};
use of10_action::error::{BAD_REQUEST, REQUEST_NOT_PERMITTED};
use of10_ctl::Frame;
use of10_flow::{FlowMod, PacketOut};
use of10_match::Match;
use of10_message::FromController;
use port_turns::{turned_flow_mod, turned_packet_out, turned_queues, turned_request};
use std::alloc::{AllocError, Global};
use xid_map::AskKind;

/// A flow-mod that is sent on for these pieces.
fn modification(
    frame: &Frame,
    m: &FlowMod,
    pieces: Vec<Match>,
    used: Option<u32>,
    moment: u64,
) -> Modification
    ensures { result ≡ record { moment = moment; asked = asked_of (Ok (said.FlowMod m.now)) frame.now; command = m.now.command; pieces = pieces; priority = m.now.priority; asks = has_flag SEND_FLOW_REM m.now; used = used } }
{
    Modification {
        moment,
        asked: asked(frame, AskKind::FlowMod, 0),
        command: m.command,
        pieces,
        priority: m.priority,
        asks: m.asks_for_removal(),
        used,
    }
}

/// A flow-mod that keeps the rate.
fn flow_mod(
    alloc: Global,
    around: &Around<'_>,
    m: &FlowMod,
    frame: &Frame,
    moment: u64,
) -> Result<Reaction, AllocError>
    ensures sound { IfOk result (λ r. IsSoundChange r.change) }
    ensures sent { IfOk result (λ r. AreSentOn around.now.policy.now.rules around.now.slot around.now.ports.now around.now.state.now (Ok (said.FlowMod m.now)) r.to_switch.items) }
    ensures follows { (s : Settings) (sight : Sight) → SliceStands s sight around.now.state.now → Sees s sight.view around.now.policy.now around.now.ports.now around.now.features.now around.now.slot → IfOk result (Follows s sight frame.now (Ok (said.FlowMod m.now)) (flow_mod_answer (ground_of s sight.view (past_of s sight.view)) m.now frame.now) moment) }
{
    let quota = around.quota();
    let (_, xid) = around.state.xids.next();
    match outcome_of(alloc, around, quota, xid, m)? {
        FlowModOutcome::Refused(class, code) => refused(
            alloc,
            class,
            code,
            frame,
            Change::Rated { moment },
        ),
        FlowModOutcome::Sent {
            frames,
            pieces,
            used,
        } => {
            if frames.is_empty() {
                return Ok(Reaction::silent(alloc, Change::Rated { moment }));
            }
            let change = Change::Modified(modification(frame, m, pieces, used, moment));
            Ok(Reaction::forwarding(alloc, frames, change))
        }
    }
}

/// A packet-out that keeps the rate.
fn packet_out(
    alloc: Global,
    around: &Around<'_>,
    m: &PacketOut,
    frame: &Frame,
    moment: u64,
) -> Result<Reaction, AllocError>
    ensures sound { IfOk result (λ r. IsSoundChange r.change) }
    ensures sent { IfOk result (λ r. AreSentOn around.now.policy.now.rules around.now.slot around.now.ports.now around.now.state.now (Ok (said.PacketOut m.now)) r.to_switch.items) }
    ensures follows { (s : Settings) (sight : Sight) → SliceStands s sight around.now.state.now → Sees s sight.view around.now.policy.now around.now.ports.now around.now.features.now around.now.slot → IfOk result (Follows s sight frame.now (Ok (said.PacketOut m.now)) (packet_out_answer (ground_of s sight.view (past_of s sight.view)) m.now frame.now) moment) }
{
    let (_, xid) = around.state.xids.next();
    match packet_outcome(alloc, around, xid, m)? {
        PacketOutcome::Refused(class, code) => {
            refused(alloc, class, code, frame, Change::Rated { moment })
        }
        PacketOutcome::Sent { frame: sent, used } => {
            let asked = asked(frame, AskKind::PacketOut, 0);
            let change = Change::SentOut {
                moment,
                asked,
                used,
            };
            Reaction::sending(alloc, sent, change)
        }
    }
}

/// A message that asks something of the switch, taken with physical port numbers: one that passes the rate is
/// refused.
pub(crate) fn question(
    alloc: Global,
    around: &Around<'_>,
    message: &FromController<'_>,
    frame: &Frame,
    moment: u64,
) -> Result<Reaction, AllocError>
    requires { asks_switch (Ok message.now) ≡ true }
    ensures sound { IfOk result (λ r. IsSoundChange r.change) }
    ensures sent { IfOk result (λ r. AreSentOn around.now.policy.now.rules around.now.slot around.now.ports.now around.now.state.now (Ok (physical_said around.now.policy.now around.now.slot message.now)) r.to_switch.items) }
    ensures follows { (s : Settings) (sight : Sight) → SliceStands s sight around.now.state.now → Sees s sight.view around.now.policy.now around.now.ports.now around.now.features.now around.now.slot → IfOk result (Follows s sight frame.now (Ok (physical_said around.now.policy.now around.now.slot message.now)) (rated_answer s sight.view (past_of s sight.view) moment (physical_said around.now.policy.now around.now.slot message.now) frame.now) moment) }
{
    let latest = moment.max(around.state.moment);
    if !around.state.bucket.conforms(latest) {
        return refused(
            alloc,
            BAD_REQUEST,
            REQUEST_NOT_PERMITTED,
            frame,
            Change::Rated { moment },
        );
    }
    match message {
        FromController::FlowMod(m) => {
            let m = turned_flow_mod(around.policy, around.slot, m.copied(alloc)?);
            flow_mod(alloc, around, &m, frame, moment)
        }
        FromController::PacketOut(m) => {
            let m = turned_packet_out(around.policy, around.slot, m.copied(alloc)?);
            packet_out(alloc, around, &m, frame, moment)
        }
        FromController::StatsRequest(request) => {
            let request = turned_request(around.policy, around.slot, request);
            statistics(alloc, around, &request, frame, moment)
        }
        FromController::BarrierRequest => barrier(alloc, around, frame, moment),
        FromController::QueueGetConfigRequest(question) => {
            let question = turned_queues(around.policy, around.slot, question);
            queues(alloc, around, &question, frame, moment)
        }
        _ => unreachable!(),
    }
}
