//! Messages that cost a desk much time, spelled byte by byte (OpenFlow 1.0.0, section 5).

use crate::policies::LAST_PORT;
use of10_ctl::kind::{
    ECHO_REQUEST, FEATURES_REPLY, FLOW_MOD, PACKET_IN, PACKET_OUT, STATS_REPLY, STATS_REQUEST,
};
use of10_ctl::{Frame, message};
use of10_flow::protocol::NO_BUFFER;
use of10_model::wire::{put_u16, put_u32, put_u64};
use of10_port::protocol::NONE;
use std::alloc::{AllocError, Global};

/// The most bytes of a message behind its header.
const MOST_BYTES: usize = 65_527;

/// As many ports as a switch can report.
const PORTS: u16 = 1_364;

/// The port that messages send to.
pub const OUT: u16 = 2;

/// So many flows fit one part of statistics.
const FLOWS: u16 = 744;

/// The type of statistics on flows (section 5.3.5), and the flag that more parts come.
const FLOW_STATISTICS: u16 = 1;

const MORE: u16 = 1;

/// A TCP packet to the last port of the crowded slice.
const PACKET: [u8; 54] = [
    0, 0, 0, 0, 0, 2, 0, 0, 0, 0, 0, 1, 8, 0, 0x45, 0, 0, 40, 0, 0, 0, 0, 64, 6, 0, 0, 10, 0, 0, 1,
    10, 0, 0, 2, 4, 0, 0x08, 0xcf, 0, 0, 0, 0, 0, 0, 0, 0, 0x50, 2, 0, 0, 0, 0, 0, 0,
];

/// The packets of a match.
#[derive(Clone, Copy)]
pub enum Packets {
    All,
    /// TCP packets from a port.
    OfSource(u16),
    /// TCP packets from a port to a port.
    OfPorts(u16, u16),
}

/// What a flow-mod says beside its actions (section 5.3.3).
#[derive(Clone, Copy)]
pub struct Entry {
    pub packets: Packets,
    pub command: u16,
    pub priority: u16,
    pub flags: u16,
}

/// The message with this body, or with as much of it as a message may have.
fn message_with(alloc: Global, kind: u8, xid: u32, body: &[u8]) -> Result<Frame, AllocError> {
    let size = body.len().min(MOST_BYTES);
    message(alloc, kind, xid, &body[..size])
}

/// Appends a match (section 5.2.3).
fn put_match(out: &mut Vec<u8>, packets: Packets) -> Result<(), AllocError> {
    let (wildcards, from, to) = match packets {
        Packets::All => (0x0038_20ff, 0, 0),
        Packets::OfSource(from) => (0x0038_208f, from, 0),
        Packets::OfPorts(from, to) => (0x0038_200f, from, to),
    };
    put_u32(out, wildcards)?;
    out.extend_from_slice(&[0; 18])?;
    // IPv4 and TCP.
    out.extend_from_slice(&[8, 0, 0, 6])?;
    out.extend_from_slice(&[0; 10])?;
    put_u16(out, from)?;
    put_u16(out, to)
}

/// The types of an output, and of the actions that set the TCP port from which a packet comes and to which it goes
/// (section 5.2.4).
const OUTPUT: u8 = 0;

const SET_FROM: u8 = 9;

const SET_TO: u8 = 10;

/// Appends an action with a port.
fn put_action(out: &mut Vec<u8>, kind: u8, port: u16) -> Result<(), AllocError> {
    out.extend_from_slice(&[0, kind, 0, 8])?;
    put_u16(out, port)?;
    put_u16(out, 0)
}

/// So many outputs to a port.
pub fn outputs(alloc: Global, port: u16, count: u16) -> Result<Vec<u8>, AllocError> {
    let mut actions = Vec::new(alloc);
    for _ in 0..count {
        put_action(&mut actions, OUTPUT, port)?;
    }
    Ok(actions)
}

/// So many outputs, before each of which the packet gets another port from which it comes. All go to the last
/// port of the crowded slice, so that the last of its rules alone has them.
pub fn rewritten_outputs(alloc: Global, count: u16) -> Result<Vec<u8>, AllocError> {
    let mut actions = Vec::new(alloc);
    put_action(&mut actions, SET_TO, LAST_PORT)?;
    for port in 0..count {
        put_action(&mut actions, SET_FROM, port)?;
        put_action(&mut actions, OUTPUT, OUT)?;
    }
    Ok(actions)
}

/// So many outputs, before each of which the packet goes to the last port of the crowded slice or to the one before,
/// in turn, so that another rule has it each time.
pub fn turning_outputs(alloc: Global, count: u16) -> Result<Vec<u8>, AllocError> {
    let mut actions = Vec::new(alloc);
    for place in 0..count {
        put_action(&mut actions, SET_TO, LAST_PORT - place % 2)?;
        put_action(&mut actions, OUTPUT, OUT)?;
    }
    Ok(actions)
}

/// A flow-mod with these actions.
pub fn flow_mod(alloc: Global, entry: &Entry, actions: &[u8]) -> Result<Frame, AllocError> {
    let mut body = Vec::new(alloc);
    put_match(&mut body, entry.packets)?;
    put_u64(&mut body, 0)?;
    put_u16(&mut body, entry.command)?;
    put_u32(&mut body, 0)?;
    put_u16(&mut body, entry.priority)?;
    put_u32(&mut body, NO_BUFFER)?;
    put_u16(&mut body, NONE)?;
    put_u16(&mut body, entry.flags)?;
    body.extend_from_slice(actions)?;
    message_with(alloc, FLOW_MOD, 1, &body)
}

/// What a packet-out has behind its header: these actions, and a packet (section 5.3.6).
fn packet_out_body(alloc: Global, actions: &[u8]) -> Result<Vec<u8>, AllocError> {
    let Ok(size) = u16::try_from(actions.len()) else {
        return Err(AllocError);
    };
    let mut body = Vec::new(alloc);
    put_u32(&mut body, NO_BUFFER)?;
    put_u16(&mut body, NONE)?;
    put_u16(&mut body, size)?;
    body.extend_from_slice(actions)?;
    body.extend_from_slice(&PACKET)?;
    Ok(body)
}

/// A packet-out with these actions.
pub fn packet_out(alloc: Global, actions: &[u8]) -> Result<Frame, AllocError> {
    let body = packet_out_body(alloc, actions)?;
    message_with(alloc, PACKET_OUT, 1, &body)
}

/// The longest packet-out, with one output.
pub fn longest_packet_out(alloc: Global) -> Result<Frame, AllocError> {
    let actions = outputs(alloc, OUT, 1)?;
    let mut body = packet_out_body(alloc, &actions)?;
    body.resize(MOST_BYTES, 0)?;
    message_with(alloc, PACKET_OUT, 1, &body)
}

/// The longest packet-in of a packet that isn't buffered (section 5.4.1).
pub fn longest_packet_in(alloc: Global) -> Result<Frame, AllocError> {
    let mut body = Vec::new(alloc);
    put_u32(&mut body, NO_BUFFER)?;
    put_u16(&mut body, 0xffff)?;
    put_u16(&mut body, 1)?;
    body.extend_from_slice(&[0, 0])?;
    body.extend_from_slice(&PACKET)?;
    body.resize(MOST_BYTES, 0)?;
    message_with(alloc, PACKET_IN, 0, &body)
}

/// The longest question whether the other side is there.
pub fn longest_echo(alloc: Global) -> Result<Frame, AllocError> {
    let mut body = Vec::new(alloc);
    body.resize(MOST_BYTES, 0)?;
    message_with(alloc, ECHO_REQUEST, 1, &body)
}

/// What a switch says of itself, with as many ports as it can report, the last one first (section 5.3.1).
pub fn features(alloc: Global) -> Result<Frame, AllocError> {
    let mut body = Vec::new(alloc);
    put_u64(&mut body, 0xa1)?;
    put_u32(&mut body, 256)?;
    body.extend_from_slice(&[1, 0, 0, 0])?;
    put_u32(&mut body, 0)?;
    put_u32(&mut body, 0x0fff)?;
    for place in 0..PORTS {
        put_u16(&mut body, PORTS - place)?;
        body.extend_from_slice(&[0; 46])?;
    }
    message_with(alloc, FEATURES_REPLY, 0xff00_0001, &body)
}

/// A question for all flows (section 5.3.5).
pub fn flows_question(alloc: Global) -> Result<Frame, AllocError> {
    let mut body = Vec::new(alloc);
    put_u16(&mut body, FLOW_STATISTICS)?;
    put_u16(&mut body, 0)?;
    put_match(&mut body, Packets::All)?;
    body.extend_from_slice(&[0xff, 0])?;
    put_u16(&mut body, NONE)?;
    message_with(alloc, STATS_REQUEST, 1, &body)
}

/// Appends a flow of 88 bytes, which the last rule of the crowded slice has (section 5.3.5).
fn put_flow(out: &mut Vec<u8>, from: u16) -> Result<(), AllocError> {
    out.extend_from_slice(&[0, 88, 0, 0])?;
    put_match(out, Packets::OfPorts(from, LAST_PORT))?;
    out.extend_from_slice(&[0; 20])?;
    put_u64(out, 0)?;
    put_u64(out, 1)?;
    put_u64(out, 60)
}

/// A part of the flows that a switch has, of as many flows as a message can report.
pub fn flows_part(alloc: Global, xid: u32, is_last: bool) -> Result<Frame, AllocError> {
    let mut body = Vec::new(alloc);
    put_u16(&mut body, FLOW_STATISTICS)?;
    put_u16(&mut body, if is_last { 0 } else { MORE })?;
    for from in 0..FLOWS {
        put_flow(&mut body, from)?;
    }
    message_with(alloc, STATS_REPLY, xid, &body)
}
