//! A slice's own messages, with the numbers exchanged that its swaps name, in place.

ghost use Rattle.std.specs.Prelude.{◌≡◌, ◌+◌, ◌≤◌, true, is_ok, length, take, drop};
ghost use Rattle.of10_model.specs.Normal.{number_at};
ghost use Rattle.of10_action.specs.Reading.{read_all};
ghost use Rattle.of10_message.specs.Controller.{read_controller};
ghost use Rattle.flowspace.specs.Swaps.{pairs_of};
ghost use Rattle.port_turns.specs.Turns.{turn_flow_mod, turn_packet_out};
ghost use Rattle.port_turns.specs.Readings.{turn_entries, turn_in};
ghost use Rattle.port_turns.specs.Received.{layout_of, layout_of_request, turn_laid, AreLaid};

use crate::sending::{has_swaps, turn_actions, turn_match, turn_port};
use flowspace::SwitchPolicy;
use of10_ctl::Frame;
use of10_message::{FromController, read_controller};
use of10_model::wire::u16_at;
use of10_stats::StatsRequest;

/// Where the port numbers stand in a message of a slice's own.
#[derive(Clone, Copy)]
pub(crate) enum Layout {
    /// As in a FLOW_MOD (OpenFlow 1.0.0, section 5.3.3).
    FlowMod,
    /// As in a PACKET_OUT (section 5.3.6).
    PacketOut,
    /// As in a question for flow entries (section 5.3.5).
    Entries,
    /// One number.
    Port(usize),
    /// No port is named.
    Other,
}

/// Those of a question for statistics.
fn layout_of_request(request: &StatsRequest) -> Layout
    ensures { result ≡ layout_of_request request.now }
{
    match request {
        StatsRequest::Flow { .. } | StatsRequest::Aggregate { .. } => Layout::Entries,
        StatsRequest::Port(_) | StatsRequest::Queue { .. } => Layout::Port(12),
        StatsRequest::Desc | StatsRequest::Table => Layout::Other,
    }
}

/// Where they stand in this message: nowhere where it isn't read.
fn layout_of(frame: &Frame) -> Layout
    ensures value { result ≡ layout_of (read_controller frame.now) }
    ensures laid { AreLaid frame.now result }
{
    match read_controller(frame) {
        Ok(FromController::FlowMod(_)) => Layout::FlowMod,
        Ok(FromController::PacketOut(_)) => Layout::PacketOut,
        Ok(FromController::StatsRequest(request)) => layout_of_request(&request),
        Ok(FromController::QueueGetConfigRequest(_)) => Layout::Port(8),
        _ => Layout::Other,
    }
}

/// The numbers of a FLOW_MOD are exchanged, whose actions are right.
fn turn_flow_mod(policy: &SwitchPolicy, slot: u8, frame: &mut Frame)
    requires long { 72 ≤ length frame.old }
    requires right { is_ok (read_all (drop 72 frame.old)) ≡ true }
    ensures { frame.new ≡ turn_flow_mod (pairs_of policy.now.swaps slot) frame.old }
{
    let end = frame.as_slice().len();
    turn_match(policy, slot, frame, 8);
    turn_port(policy, slot, frame, 68);
    turn_actions(policy, slot, frame, 72, end);
}

/// The numbers of a PACKET_OUT are exchanged, whose actions are right.
fn turn_packet_out(policy: &SwitchPolicy, slot: u8, frame: &mut Frame)
    requires whole { 16 + number_at frame.old 14 2 ≤ length frame.old }
    requires right { is_ok (read_all (take (number_at frame.old 14 2) (drop 16 frame.old))) ≡ true }
    ensures { frame.new ≡ turn_packet_out (pairs_of policy.now.swaps slot) frame.old }
{
    let size = usize::from(u16_at(frame.as_slice(), 14));
    turn_port(policy, slot, frame, 12);
    turn_actions(policy, slot, frame, 16, 16 + size);
}

/// The numbers of a question for flow entries are exchanged.
fn turn_entries(policy: &SwitchPolicy, slot: u8, frame: &mut Frame)
    requires { 56 ≤ length frame.old }
    ensures { frame.new ≡ turn_entries (pairs_of policy.now.swaps slot) frame.old }
{
    turn_match(policy, slot, frame, 12);
    turn_port(policy, slot, frame, 54);
}

/// Numbers that stand so are exchanged.
fn turn_laid(policy: &SwitchPolicy, slot: u8, frame: &mut Frame, layout: Layout)
    requires { AreLaid frame.old layout }
    ensures { frame.new ≡ turn_laid (pairs_of policy.now.swaps slot) layout frame.old }
{
    match layout {
        Layout::FlowMod => turn_flow_mod(policy, slot, frame),
        Layout::PacketOut => turn_packet_out(policy, slot, frame),
        Layout::Entries => turn_entries(policy, slot, frame),
        Layout::Port(at) => turn_port(policy, slot, frame, at),
        Layout::Other => {}
    }
}

/// A message of the slice at a slot has the switch's own port numbers, where it is read (OpenFlow 1.0.0, sections
/// 5.3.3 to 5.3.6; that numbers are exchanged is this proxy's own rule). Takes no memory.
pub fn turn_in(policy: &SwitchPolicy, slot: u8, frame: &mut Frame)
    ensures value { frame.new ≡ turn_in (pairs_of policy.now.swaps slot) frame.old }
{
    if has_swaps(policy, slot) {
        let layout = layout_of(frame);
        turn_laid(policy, slot, frame, layout);
    }
}
