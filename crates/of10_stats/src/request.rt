//! Questions for statistics (OpenFlow 1.0.0, section 5.3.5).

ghost use Rattle.std.specs.Prelude.{◌≡◌, ◌+◌, ◌≤◌, ◌++◌, IfOk, OnOk, length};
ghost use Rattle.of10_action.specs.Reading.{Reads};
ghost use Rattle.of10_ctl.specs.declared.kind.TheConstants.{STATS_REQUEST};
ghost use Rattle.of10_ctl.specs.Kinds.{IsOf};
ghost use Rattle.of10_stats.specs.Requests.{IsRequest, body_size, flow_body, statistics_kind, read_request, request_body, request_of, spell_request};

use crate::protocol::{AGGREGATE, DESC, FLOW, PORT, QUEUE, TABLE, VENDOR};
use of10_action::WireFault;
use of10_ctl::kind::STATS_REQUEST;
use of10_ctl::{Frame, begin};
use of10_match::Match;
use of10_model::wire::{put_u16, put_u32, u16_at, u32_at};
use std::alloc::{AllocError, Global};

/// Bytes in front of what a request asks, the header counted (OpenFlow 1.0.0, section 5.3.5).
pub(crate) const FRONT: usize = 12;

/// What a controller asks of a switch (OpenFlow 1.0.0, section 5.3.5).
#[derive(Clone, Copy, Debug, PartialEq, Eq)]
pub enum StatsRequest {
    /// What the switch is.
    Desc,
    /// The entries within a match, of one table or of all, that output to a port; 0xffff for any port.
    Flow {
        pattern: Match,
        table: u8,
        out_port: u16,
    },
    /// The same entries summed up.
    Aggregate {
        pattern: Match,
        table: u8,
        out_port: u16,
    },
    /// All tables.
    Table,
    /// A port; 0xffff for all.
    Port(u16),
    /// A queue of a port; 0xfffc for all ports, 0xffffffff for all queues.
    Queue {
        port: u16,
        queue: u32,
    },
}

/// Bytes of what a request of the type asks.
fn body_size(kind: u16) -> usize
    ensures value { result ≡ body_size kind }
    ensures small { result ≤ 44 }
{
    match kind {
        FLOW | AGGREGATE => 44,
        PORT | QUEUE => 8,
        _ => 0,
    }
}

/// The request of the type that the message makes.
#[tactic(auto, unfolding(crate::specs::Requests::request_of))]
fn request_of(kind: u16, bytes: &[u8]) -> StatsRequest
    requires known { kind ≤ 5 }
    requires whole { length bytes.now ≡ 12 + body_size kind }
    ensures value { result ≡ request_of kind bytes.now }
    ensures range { IsRequest result }
{
    match kind {
        DESC => StatsRequest::Desc,
        FLOW => StatsRequest::Flow {
            pattern: Match::decode_at(bytes, 12),
            table: bytes[52],
            out_port: u16_at(bytes, 54),
        },
        AGGREGATE => StatsRequest::Aggregate {
            pattern: Match::decode_at(bytes, 12),
            table: bytes[52],
            out_port: u16_at(bytes, 54),
        },
        TABLE => StatsRequest::Table,
        PORT => StatsRequest::Port(u16_at(bytes, 12)),
        _ => StatsRequest::Queue {
            port: u16_at(bytes, 12),
            queue: u32_at(bytes, 16),
        },
    }
}

/// Appends what a request for flow entries asks.
fn put_flow(out: &mut Vec<u8>, pattern: &Match, table: u8, out_port: u16) -> Result<(), AllocError>
    ensures { OnOk result (out.new.items ≡ out.old.items ++ flow_body pattern.now table out_port) }
{
    out.extend_from_slice(&pattern.encode())?;
    out.extend_from_slice(&[table, 0])?;
    put_u16(out, out_port)
}

impl StatsRequest {
    /// What the message asks, padding and flags disregarded. Of its faults the first is reported: `Length`
    /// below 12 bytes, `StatVendor`, `StatKind`, and `Length` for a body of another length than its type
    /// of statistics has (OpenFlow 1.0.0, section 5.3.5).
    #[tactic(auto, unfolding(crate::specs::Requests::read_request))]
    pub fn decode(frame: &Frame) -> Result<StatsRequest, WireFault>
        requires { IsOf STATS_REQUEST frame.now }
        ensures exact { Reads (λ x. x) result (read_request frame.now) }
        ensures range { IfOk result (λ r. IsRequest r) }
    {
        let bytes = frame.as_slice();
        let length = bytes.len() as u16;
        if bytes.len() < FRONT {
            return Err(WireFault::Length(length));
        }
        let kind = u16_at(bytes, 8);
        if kind == VENDOR {
            return Err(WireFault::StatVendor);
        }
        if kind > QUEUE {
            return Err(WireFault::StatKind(kind));
        }
        if bytes.len() != FRONT + body_size(kind) {
            return Err(WireFault::Length(length));
        }
        Ok(request_of(kind, bytes))
    }

    /// The message that asks this, of version 1 and without flags (OpenFlow 1.0.0, section 5.3.5).
    pub fn encode(&self, alloc: Global, xid: u32) -> Result<Frame, AllocError>
        ensures value { IfOk result (λ f. f ≡ spell_request self.now xid) }
        ensures kind { IfOk result (λ f. IsOf STATS_REQUEST f) }
    {
        Ok(Frame::of(self.spelled(alloc, xid)?))
    }

    // The bytes of the message.
    #[tactic(auto, using(crate::proofs::Written::request_written))]
    fn spelled(&self, alloc: Global, xid: u32) -> Result<Vec<u8>, AllocError>
        ensures { IfOk result (λ v. v.items ≡ spell_request self.now xid) }
    {
        let kind = self.kind();
        let mut bytes = begin(alloc, STATS_REQUEST, xid, 4 + body_size(kind))?;
        put_u16(&mut bytes, kind)?;
        put_u16(&mut bytes, 0)?;
        self.put_body(&mut bytes)?;
        Ok(bytes)
    }

    /// Its type of statistics.
    pub fn kind(&self) -> u16
        ensures { result ≡ statistics_kind self.now }
    {
        match self {
            StatsRequest::Desc => DESC,
            StatsRequest::Flow { .. } => FLOW,
            StatsRequest::Aggregate { .. } => AGGREGATE,
            StatsRequest::Table => TABLE,
            StatsRequest::Port(_) => PORT,
            StatsRequest::Queue { .. } => QUEUE,
        }
    }

    // Appends what it asks.
    fn put_body(&self, out: &mut Vec<u8>) -> Result<(), AllocError>
        ensures { OnOk result (out.new.items ≡ out.old.items ++ request_body self.now) }
    {
        match self {
            StatsRequest::Desc | StatsRequest::Table => Ok(()),
            StatsRequest::Flow {
                pattern,
                table,
                out_port,
            }
            | StatsRequest::Aggregate {
                pattern,
                table,
                out_port,
            } => put_flow(out, pattern, *table, *out_port),
            StatsRequest::Port(port) => {
                put_u16(out, *port)?;
                out.extend_from_slice(&[0; 6])
            }
            StatsRequest::Queue { port, queue } => {
                put_u16(out, *port)?;
                out.extend_from_slice(&[0; 2])?;
                put_u32(out, *queue)
            }
        }
    }
}
