//! What a message says, and the message that says it, for each type that has a decoder.

ghost use Rattle.of10_ctl.specs.declared.kind.TheConstants.{FEATURES_REPLY, PACKET_IN, FLOW_REMOVED, PORT_STATUS, PACKET_OUT, FLOW_MOD, STATS_REQUEST, STATS_REPLY};
ghost use Rattle.of10_ctl.specs.Kinds.{IsOf};

use super::with_written;
use of10_action::{DecodeFault, WireFault};
use of10_ctl::kind::{
    ERROR, FEATURES_REPLY, FLOW_MOD, FLOW_REMOVED, PACKET_IN, PACKET_OUT, PORT_STATUS, STATS_REPLY,
    STATS_REQUEST,
};
use of10_ctl::{Frame, error_frame, message};
use of10_flow::{FlowMod, FlowRemoved, PacketIn, PacketOut};
use of10_model::wire::u16_at;
use of10_port::{Features, PortStatus, Ports};
use of10_stats::protocol::{FLOW, PORT, QUEUE};
use of10_stats::{StatsRequest, entry_port, entry_size, flow_entry, part};
use std::alloc::{AllocError, Global};
use wire_samples::frame_of;

/// What a message says, in words, and the message that says it.
#[derive(Drop)]
struct Said {
    words: String,
    again: Frame,
}

/// The first bytes of the message as a head, and all behind it as a body.
fn plain(alloc: Global, frame: &Frame) -> Result<Said, DecodeFault> {
    let head = frame.head();
    let body = frame.body();
    Ok(Said {
        words: format!(in alloc; "{head:?}")?,
        again: message(alloc, head.kind, head.xid, &body[..body.len().min(65527)])?,
    })
}

fn error(alloc: Global, frame: &Frame) -> Result<Said, DecodeFault> {
    let bytes = frame.as_slice();
    let head = frame.head();
    if bytes.len() < 12 {
        return Err(DecodeFault::Wire(WireFault::Length(head.length)));
    }
    let (class, code) = (u16_at(bytes, 8), u16_at(bytes, 10));
    Ok(Said {
        words: format!(in alloc; "error {class} {code}")?,
        again: error_frame(alloc, head.xid, class, code, &bytes[12..])?,
    })
}

fn features(alloc: Global, frame: &Frame) -> Result<Said, DecodeFault>
    requires { IsOf FEATURES_REPLY frame.now }
{
    let said = Features::decode(alloc, frame)?;
    let made = Features {
        datapath: said.datapath,
        buffers: said.buffers,
        tables: said.tables,
        capabilities: said.capabilities,
        actions: said.actions,
        ports: Ports::of(alloc, said.ports.as_slice())?,
    };
    let again = made.encode(alloc, frame.head().xid)?;
    let mut words = format!(in alloc; "{said:?}")?;
    for port in said.ports.as_slice() {
        write!(words, " number {} config {}", port.number(), port.config())?;
    }
    Ok(Said { words, again })
}

fn packet_in(alloc: Global, frame: &Frame) -> Result<Said, DecodeFault>
    requires { IsOf PACKET_IN frame.now }
{
    let said = PacketIn::decode(alloc, frame)?;
    let words = format!(in alloc; "{said:?}")?;
    let again = said.encode(alloc)?;
    Ok(Said { words, again })
}

fn flow_removed(alloc: Global, frame: &Frame) -> Result<Said, DecodeFault>
    requires { IsOf FLOW_REMOVED frame.now }
{
    let said = FlowRemoved::decode(frame)?;
    let words = format!(in alloc; "{said:?}")?;
    let again = said.encode(alloc)?;
    Ok(Said { words, again })
}

fn port_status(alloc: Global, frame: &Frame) -> Result<Said, DecodeFault>
    requires { IsOf PORT_STATUS frame.now }
{
    let said = match PortStatus::decode(frame) {
        Ok(said) => said,
        Err(fault) => return Err(DecodeFault::Wire(fault)),
    };
    let words = format!(in alloc; "{said:?}")?;
    let again = said.encode(alloc, frame.head().xid)?;
    Ok(Said { words, again })
}

fn packet_out(alloc: Global, frame: &Frame) -> Result<Said, DecodeFault>
    requires { IsOf PACKET_OUT frame.now }
{
    let said = PacketOut::decode(alloc, frame)?;
    let words = format!(in alloc; "{said:?}")?;
    let again = said.encode(alloc)?;
    Ok(Said { words, again })
}

fn flow_mod(alloc: Global, frame: &Frame) -> Result<Said, DecodeFault>
    requires { IsOf FLOW_MOD frame.now }
{
    let said = FlowMod::decode(alloc, frame)?;
    let words = format!(in alloc; "{said:?}")?;
    let again = said.encode(alloc)?;
    Ok(Said { words, again })
}

fn stats_request(alloc: Global, frame: &Frame) -> Result<Said, DecodeFault>
    requires { IsOf STATS_REQUEST frame.now }
{
    let said = match StatsRequest::decode(frame) {
        Ok(said) => said,
        Err(fault) => return Err(DecodeFault::Wire(fault)),
    };
    let words = format!(in alloc; "{said:?}")?;
    let again = said.encode(alloc, frame.head().xid)?;
    Ok(Said { words, again })
}

/// One part of an answer, with its first entry.
fn stats_reply(alloc: Global, frame: &Frame) -> Result<Said, DecodeFault>
    requires { IsOf STATS_REPLY frame.now }
{
    let said = match part(frame) {
        Ok(said) => said,
        Err(fault) => return Err(DecodeFault::Wire(fault)),
    };
    let entry = entry_words(alloc, said.kind, &frame.as_slice()[said.from..])?;
    Ok(Said {
        words: format!(in alloc; "{said:?}, {entry}")?,
        again: frame.copy(alloc)?,
    })
}

/// The size of the entry that begins the bytes, and what is read of it.
fn entry_words(alloc: Global, kind: u16, rest: &[u8]) -> Result<String, AllocError> {
    let Some(size) = entry_size(kind, rest) else {
        return String::from_str(alloc, "no entry");
    };
    let entry = &rest[..size];
    match kind {
        FLOW => format!(in alloc; "{size} {:?}", flow_entry(entry)),
        PORT | QUEUE => format!(in alloc; "{size} port {}", entry_port(entry)),
        _ => format!(in alloc; "{size}"),
    }
}

fn read(alloc: Global, frame: &Frame) -> Result<Said, DecodeFault> {
    if frame.is_of(ERROR) {
        error(alloc, frame)
    } else if frame.is_of(FEATURES_REPLY) {
        features(alloc, frame)
    } else if frame.is_of(PACKET_IN) {
        packet_in(alloc, frame)
    } else if frame.is_of(FLOW_REMOVED) {
        flow_removed(alloc, frame)
    } else if frame.is_of(PORT_STATUS) {
        port_status(alloc, frame)
    } else if frame.is_of(PACKET_OUT) {
        packet_out(alloc, frame)
    } else if frame.is_of(FLOW_MOD) {
        flow_mod(alloc, frame)
    } else if frame.is_of(STATS_REQUEST) {
        stats_request(alloc, frame)
    } else if frame.is_of(STATS_REPLY) {
        stats_reply(alloc, frame)
    } else {
        plain(alloc, frame)
    }
}

/// What the bytes say as a message, or what is wrong with them.
pub fn message_words(alloc: Global, bytes: &[u8]) -> Result<String, DecodeFault> {
    let Some(frame) = frame_of(alloc, bytes)? else {
        return Ok(String::from_str(alloc, "no frame")?);
    };
    match read(alloc, &frame) {
        Ok(said) => Ok(with_written(alloc, said.words, said.again.as_slice(), bytes)?),
        Err(DecodeFault::Wire(fault)) => Ok(format!(in alloc; "{fault:?}")?),
        Err(fault) => Err(fault),
    }
}
