//! The messages that are drawn.

ghost use Rattle.std.specs.Prelude.{◌≡◌, ◌≤◌, IfOk};
ghost use Rattle.fv_generator.specs.Drawing.{Drew};
ghost use Rattle.fv_generator.specs.Messages.{tcp_port, drawn_port, drawn_buffer, drawn_packet_in, drawn_flow_mod, drawn_packet_out, drawn_request};

use crate::packets::{PACKET_BYTES, packet_to, tcp_from};
use draws::Draws;
use of10_action::{Action, Actions, Bytes};
use of10_ctl::kind::BARRIER_REQUEST;
use of10_ctl::{Frame, message};
use of10_flow::protocol::{ADD, NO_BUFFER, SEND_FLOW_REM};
use of10_flow::{FlowModParts, PacketInView, PacketOut};
use of10_port::protocol::NONE;
use std::alloc::{AllocError, Global};

fn tcp_port(place: u8) -> u16
    ensures { result ≡ tcp_port place }
{
    match place {
        0 => 80,
        1 => 22,
        _ => 443,
    }
}

/// A port of the switch.
fn port(draws: &mut Draws) -> u16
    ensures { Drew drawn_port draws.old.state result draws.new.state }
{
    1 + u16::from(draws.below(3))
}

/// A buffer of the switch, or none.
fn buffer(draws: &mut Draws) -> u32
    ensures { Drew drawn_buffer draws.old.state result draws.new.state }
{
    if draws.below(2) == 0 {
        NO_BUFFER
    } else {
        u32::from(draws.below(64))
    }
}

/// A packet that the switch hands up (OpenFlow 1.0.0, section 5.4.1).
pub(crate) fn packet_in(alloc: Global, draws: &mut Draws) -> Result<Frame, AllocError>
    ensures { IfOk result (λ f. Drew drawn_packet_in draws.old.state f draws.new.state) }
{
    let packet = packet_to(tcp_port(draws.below(3)));
    let buffer = buffer(draws);
    let in_port = port(draws);
    let view = PacketInView {
        xid: 0,
        buffer,
        total_len: PACKET_BYTES,
        in_port,
        reason: 0,
        payload: &packet,
    };
    view.encode(alloc)
}

/// An entry that a slice adds (OpenFlow 1.0.0, section 5.3.3).
fn flow_mod(alloc: Global, xid: u32, draws: &mut Draws) -> Result<Frame, AllocError>
    ensures { IfOk result (λ f. Drew (drawn_flow_mod xid) draws.old.state f draws.new.state) }
{
    let pattern = tcp_from(u16::from(draws.below(100)));
    let priority = u16::from(draws.below(4));
    let port = port(draws);
    let parts = FlowModParts {
        xid,
        pattern: &pattern,
        cookie: 0,
        command: ADD,
        idle: 0,
        hard: 0,
        priority,
        buffer: NO_BUFFER,
        out_port: NONE,
        flags: SEND_FLOW_REM,
        actions: &[Action::Output { port, max_len: 0 }],
    };
    parts.encode(alloc)
}

/// A packet that a slice sends out (OpenFlow 1.0.0, section 5.3.6).
fn packet_out(alloc: Global, xid: u32, draws: &mut Draws) -> Result<Frame, AllocError>
    ensures { IfOk result (λ f. Drew (drawn_packet_out xid) draws.old.state f draws.new.state) }
{
    let port = port(draws);
    let packet = packet_to(tcp_port(draws.below(2)));
    let sent = PacketOut {
        xid,
        buffer: NO_BUFFER,
        in_port: 1,
        actions: Actions::of(alloc, &[Action::Output { port, max_len: 0 }])?,
        payload: Bytes::of(alloc, &packet)?,
    };
    sent.encode(alloc)
}

/// A message of a slice: a flow-mod for a kind below 6, a packet-out for 6, a barrier for one above.
pub(crate) fn request(
    alloc: Global,
    kind: u8,
    xid: u32,
    draws: &mut Draws,
) -> Result<Frame, AllocError>
    ensures { IfOk result (λ f. Drew (drawn_request kind xid) draws.old.state f draws.new.state) }
{
    match kind {
        0..6 => flow_mod(alloc, xid, draws),
        6 => packet_out(alloc, xid, draws),
        _ => message(alloc, BARRIER_REQUEST, xid, &[]),
    }
}
