//! A controller's message, by its type.

ghost use Rattle.std.specs.Prelude.{◌≡◌, false};
ghost use Rattle.of10_ctl.specs.declared.kind.TheConstants.{PACKET_OUT, FLOW_MOD, STATS_REQUEST};
ghost use Rattle.of10_ctl.specs.Kinds.{IsOf};
ghost use Rattle.of10_ctl.specs.Frames.{is_bad};
ghost use Rattle.of10_message.specs.Configs.{read_config};
ghost use Rattle.of10_message.specs.Queues.{read_queues_request};
ghost use Rattle.of10_flow.specs.PacketOuts.{read_packet_out};
ghost use Rattle.of10_flow.specs.FlowMods.{read_flow_mod};
ghost use Rattle.of10_stats.specs.Requests.{read_request};
ghost use Rattle.of10_message.specs.declared.controller.FromController.TheVariants as said;
ghost use Rattle.of10_message.specs.Heads.{version_of};
ghost use Rattle.of10_message.specs.Forms.{formed};
ghost use Rattle.of10_message.specs.Controller.{read_typed, read_controller};

use crate::bodiless::bare;
use crate::config::SwitchConfig;
use crate::controller::FromController;
use crate::fault::Unread;
use crate::queues::QueuesQuestion;
use of10_ctl::kind::{
    BARRIER_REQUEST, ECHO_REPLY, ECHO_REQUEST, ERROR, FEATURES_REQUEST, FLOW_MOD,
    GET_CONFIG_REQUEST, HELLO, PACKET_OUT, PORT_MOD, QUEUE_GET_CONFIG_REQUEST, SET_CONFIG,
    STATS_REQUEST, VENDOR,
};
use of10_ctl::{BodyView, Frame};
use of10_flow::{FlowModView, PacketOutView};
use of10_stats::StatsRequest;

fn packet_out(frame: &Frame) -> Result<FromController<'_>, Unread>
    requires { IsOf PACKET_OUT frame.now }
    ensures { result ≡ formed said.PacketOut (read_packet_out frame.now) }
{
    match PacketOutView::decode(frame) {
        Ok(message) => Ok(FromController::PacketOut(message)),
        Err(fault) => Err(Unread::BadForm(fault)),
    }
}

fn flow_mod(frame: &Frame) -> Result<FromController<'_>, Unread>
    requires { IsOf FLOW_MOD frame.now }
    ensures { result ≡ formed said.FlowMod (read_flow_mod frame.now) }
{
    match FlowModView::decode(frame) {
        Ok(message) => Ok(FromController::FlowMod(message)),
        Err(fault) => Err(Unread::BadForm(fault)),
    }
}

fn stats_request(frame: &Frame) -> Result<FromController<'_>, Unread>
    requires { IsOf STATS_REQUEST frame.now }
    ensures { result ≡ formed said.StatsRequest (read_request frame.now) }
{
    match StatsRequest::decode(frame) {
        Ok(message) => Ok(FromController::StatsRequest(message)),
        Err(fault) => Err(Unread::BadForm(fault)),
    }
}

fn config(frame: &Frame) -> Result<FromController<'_>, Unread>
    ensures { result ≡ formed said.SetConfig (read_config frame.now) }
{
    match SwitchConfig::decode(frame) {
        Ok(config) => Ok(FromController::SetConfig(config)),
        Err(fault) => Err(Unread::BadForm(fault)),
    }
}

fn queues_request(frame: &Frame) -> Result<FromController<'_>, Unread>
    ensures { result ≡ formed said.QueueGetConfigRequest (read_queues_request frame.now) }
{
    match QueuesQuestion::decode(frame) {
        Ok(question) => Ok(FromController::QueueGetConfigRequest(question)),
        Err(fault) => Err(Unread::BadForm(fault)),
    }
}

/// A message of version 1 that is no HELLO, by its type.
#[tactic(auto, unfolding(crate::specs::Controller::read_typed))]
fn typed(frame: &Frame) -> Result<FromController<'_>, Unread>
    requires version { version_of frame.now ≡ 1 }
    requires length { is_bad frame.now ≡ false }
    ensures { result ≡ read_typed frame.now }
{
    let _bytes = frame.as_slice();
    match frame.head().kind {
        ERROR => Ok(FromController::Error),
        ECHO_REQUEST => Ok(FromController::EchoRequest(BodyView::of(frame))),
        ECHO_REPLY => Ok(FromController::EchoReply),
        VENDOR => Ok(FromController::Vendor),
        FEATURES_REQUEST => {
            bare(frame)?;
            Ok(FromController::FeaturesRequest)
        }
        GET_CONFIG_REQUEST => {
            bare(frame)?;
            Ok(FromController::GetConfigRequest)
        }
        SET_CONFIG => config(frame),
        PACKET_OUT => packet_out(frame),
        FLOW_MOD => flow_mod(frame),
        PORT_MOD => Ok(FromController::PortMod),
        STATS_REQUEST => stats_request(frame),
        BARRIER_REQUEST => {
            bare(frame)?;
            Ok(FromController::BarrierRequest)
        }
        QUEUE_GET_CONFIG_REQUEST => queues_request(frame),
        _ => Err(Unread::BadType),
    }
}

/// What a controller's message says, or the first thing that is wrong with it. Takes no memory: what has lists stays
/// where it lies.
#[tactic(auto, unfolding(crate::specs::Controller::read_controller))]
pub fn read_controller(frame: &Frame) -> Result<FromController<'_>, Unread>
    ensures { result ≡ read_controller frame.now }
{
    let head = frame.head();
    if frame.bad_length() {
        return Err(Unread::BadLength);
    }
    if head.kind == HELLO {
        if head.version == 0 {
            return Err(Unread::NoCommonVersion);
        }
        return Ok(FromController::Hello);
    }
    if head.version != 1 {
        return Err(Unread::BadVersion);
    }
    typed(frame)
}
