//! A switch's message, by its type.

ghost use Rattle.std.specs.Prelude.{◌≡◌, false, IfOk};
ghost use Rattle.of10_ctl.specs.declared.kind.TheConstants.{ERROR, FEATURES_REPLY, PACKET_IN, FLOW_REMOVED, PORT_STATUS, STATS_REPLY, QUEUE_GET_CONFIG_REPLY};
ghost use Rattle.of10_ctl.specs.Kinds.{IsOf};
ghost use Rattle.of10_ctl.specs.Frames.{is_bad};
ghost use Rattle.of10_message.specs.Configs.{read_config};
ghost use Rattle.of10_message.specs.Queues.{read_queues};
ghost use Rattle.of10_flow.specs.PacketIns.{read_packet_in};
ghost use Rattle.of10_flow.specs.FlowRemoveds.{read_flow_removed};
ghost use Rattle.of10_port.specs.Features.{read_features};
ghost use Rattle.of10_port.specs.PortStatus.{read_port_status};
ghost use Rattle.of10_stats.specs.Replies.{part_of};
ghost use Rattle.of10_message.specs.Heads.{version_of};
ghost use Rattle.of10_message.specs.Forms.{sized, formed};
ghost use Rattle.of10_message.specs.Errors.{read_error};
ghost use Rattle.of10_message.specs.Switch as said;
ghost use Rattle.of10_message.specs.SwitchViews.{said_by, ReadsAsSaid};
ghost use Rattle.of10_message.specs.SwitchRanges.{IsSaid};

use crate::bodiless::bare;
use crate::config::SwitchConfig;
use crate::fault::Unread;
use crate::queues::QueuesView;
use crate::switch::SwitchMessageView;
use crate::switch_error::ErrorView;
use of10_ctl::kind::{
    BARRIER_REPLY, ECHO_REPLY, ECHO_REQUEST, ERROR, FEATURES_REPLY, FLOW_REMOVED, GET_CONFIG_REPLY,
    HELLO, PACKET_IN, PORT_STATUS, QUEUE_GET_CONFIG_REPLY, STATS_REPLY, VENDOR,
};
use of10_ctl::{BodyView, Frame};
use of10_flow::{FlowRemovedView, PacketInView};
use of10_port::{FeaturesView, PortStatusView};
use of10_stats::part;

fn error(frame: &Frame) -> Result<SwitchMessageView<'_>, Unread>
    requires { IsOf ERROR frame.now }
    ensures exact { ReadsAsSaid result (formed said.Error (read_error frame.now)) }
    ensures range { IfOk result (λ m. IsSaid (said_by m)) }
{
    match ErrorView::decode(frame) {
        Ok(error) => Ok(SwitchMessageView::Error(error)),
        Err(fault) => Err(Unread::BadForm(fault)),
    }
}

fn features(frame: &Frame) -> Result<SwitchMessageView<'_>, Unread>
    requires { IsOf FEATURES_REPLY frame.now }
    ensures exact { ReadsAsSaid result (formed said.FeaturesReply (read_features frame.now)) }
    ensures range { IfOk result (λ m. IsSaid (said_by m)) }
{
    match FeaturesView::decode(frame) {
        Ok(features) => Ok(SwitchMessageView::FeaturesReply(features)),
        Err(fault) => Err(Unread::BadForm(fault)),
    }
}

fn config(frame: &Frame) -> Result<SwitchMessageView<'_>, Unread>
    ensures exact { ReadsAsSaid result (formed said.GetConfigReply (read_config frame.now)) }
    ensures range { IfOk result (λ m. IsSaid (said_by m)) }
{
    match SwitchConfig::decode(frame) {
        Ok(config) => Ok(SwitchMessageView::GetConfigReply(config)),
        Err(fault) => Err(Unread::BadForm(fault)),
    }
}

fn packet_in(frame: &Frame) -> Result<SwitchMessageView<'_>, Unread>
    requires { IsOf PACKET_IN frame.now }
    ensures exact { ReadsAsSaid result (formed said.PacketIn (read_packet_in frame.now)) }
    ensures range { IfOk result (λ m. IsSaid (said_by m)) }
{
    match PacketInView::decode(frame) {
        Ok(packet) => Ok(SwitchMessageView::PacketIn(packet)),
        Err(fault) => Err(Unread::BadForm(fault)),
    }
}

fn flow_removed(frame: &Frame) -> Result<SwitchMessageView<'_>, Unread>
    requires { IsOf FLOW_REMOVED frame.now }
    ensures exact { ReadsAsSaid result (formed said.FlowRemoved (read_flow_removed frame.now)) }
    ensures range { IfOk result (λ m. IsSaid (said_by m)) }
{
    match FlowRemovedView::decode(frame) {
        Ok(entry) => Ok(SwitchMessageView::FlowRemoved(entry)),
        Err(fault) => Err(Unread::BadForm(fault)),
    }
}

fn port_status(frame: &Frame) -> Result<SwitchMessageView<'_>, Unread>
    requires { IsOf PORT_STATUS frame.now }
    ensures exact { ReadsAsSaid result (formed said.PortStatus (read_port_status frame.now)) }
    ensures range { IfOk result (λ m. IsSaid (said_by m)) }
{
    match PortStatusView::decode(frame) {
        Ok(status) => Ok(SwitchMessageView::PortStatus(status)),
        Err(fault) => Err(Unread::BadForm(fault)),
    }
}

fn statistics(frame: &Frame) -> Result<SwitchMessageView<'_>, Unread>
    requires { IsOf STATS_REPLY frame.now }
    ensures exact { ReadsAsSaid result (formed (said.part_with frame.now) (part_of frame.now)) }
    ensures range { IfOk result (λ m. IsSaid (said_by m)) }
{
    match part(frame) {
        Ok(part) => Ok(SwitchMessageView::StatsReply(part, &frame.as_slice()[part.from..])),
        Err(fault) => Err(Unread::BadForm(fault)),
    }
}

fn barrier(frame: &Frame) -> Result<SwitchMessageView<'_>, Unread>
    ensures exact { ReadsAsSaid result (sized 8 said.BarrierReply frame.now) }
    ensures range { IfOk result (λ m. IsSaid (said_by m)) }
{
    bare(frame)?;
    Ok(SwitchMessageView::BarrierReply)
}

fn queues(frame: &Frame) -> Result<SwitchMessageView<'_>, Unread>
    requires { IsOf QUEUE_GET_CONFIG_REPLY frame.now }
    ensures exact { ReadsAsSaid result (formed said.QueueGetConfigReply (read_queues frame.now)) }
    ensures range { IfOk result (λ m. IsSaid (said_by m)) }
{
    match QueuesView::decode(frame) {
        Ok(queues) => Ok(SwitchMessageView::QueueGetConfigReply(queues)),
        Err(fault) => Err(Unread::BadForm(fault)),
    }
}

/// A message of version 1 that is no HELLO, by its type.
#[tactic(auto, unfolding(crate::specs::Switch::read_sent))]
#[inline(always)]
fn sent(frame: &Frame) -> Result<SwitchMessageView<'_>, Unread>
    requires version { version_of frame.now ≡ 1 }
    requires length { is_bad frame.now ≡ false }
    ensures exact { ReadsAsSaid result (said.read_sent frame.now) }
    ensures range { IfOk result (λ m. IsSaid (said_by m)) }
{
    let _bytes = frame.as_slice();
    match frame.head().kind {
        ERROR => error(frame),
        ECHO_REQUEST => Ok(SwitchMessageView::EchoRequest(BodyView::of(frame))),
        ECHO_REPLY => Ok(SwitchMessageView::EchoReply),
        VENDOR => Ok(SwitchMessageView::Vendor),
        FEATURES_REPLY => features(frame),
        GET_CONFIG_REPLY => config(frame),
        PACKET_IN => packet_in(frame),
        FLOW_REMOVED => flow_removed(frame),
        PORT_STATUS => port_status(frame),
        STATS_REPLY => statistics(frame),
        BARRIER_REPLY => barrier(frame),
        QUEUE_GET_CONFIG_REPLY => queues(frame),
        _ => Err(Unread::BadType),
    }
}

/// What a switch's message says, or the first thing that is wrong with it. Takes no memory: what it says stays
/// where it lies.
#[tactic(auto, unfolding(crate::specs::Switch::read_switch))]
#[inline(always)]
pub fn read_switch(frame: &Frame) -> Result<SwitchMessageView<'_>, Unread>
    ensures exact { ReadsAsSaid result (said.read_switch frame.now) }
    ensures range { IfOk result (λ m. IsSaid (said_by m)) }
{
    let head = frame.head();
    if frame.bad_length() {
        return Err(Unread::BadLength);
    }
    if head.kind == HELLO {
        if head.version == 0 {
            return Err(Unread::NoCommonVersion);
        }
        return Ok(SwitchMessageView::Hello);
    }
    if head.version != 1 {
        return Err(Unread::BadVersion);
    }
    sent(frame)
}
