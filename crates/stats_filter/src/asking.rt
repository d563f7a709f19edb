//! What the switch is asked.

ghost use Rattle.std.specs.Prelude.{◌≡◌, IfOk};
ghost use Rattle.stats_filter.specs.Asking.{question_for, type_sent};

use of10_ctl::Frame;
use of10_stats::StatsRequest;
use of10_stats::protocol::{DESC, FLOW, PORT, QUEUE};
use std::alloc::{AllocError, Global};
use xid_map::AskKind;

/// The message that asks the switch for what a slice requests (OpenFlow 1.0.0, section 5.3.5), under this
/// transaction id: a sum of flows is asked for as the single flows. None for tables, which this proxy answers
/// itself.
pub fn ask(alloc: Global, request: &StatsRequest, xid: u32) -> Result<Option<Frame>, AllocError>
    ensures { IfOk result (λ asked. asked ≡ question_for request.now xid) }
{
    match request {
        StatsRequest::Table => Ok(None),
        StatsRequest::Aggregate {
            pattern,
            table,
            out_port,
        } => {
            let flows = StatsRequest::Flow {
                pattern: *pattern,
                table: *table,
                out_port: *out_port,
            };
            Ok(Some(flows.encode(alloc, xid)?))
        }
        _ => Ok(Some(request.encode(alloc, xid)?)),
    }
}

/// The type of statistics that the switch sends for a request of the kind; none where it isn't one for
/// statistics.
pub fn type_sent(asked: AskKind) -> Option<u16>
    ensures { result ≡ type_sent asked }
{
    match asked {
        AskKind::Desc => Some(DESC),
        AskKind::Flow | AskKind::Aggregate => Some(FLOW),
        AskKind::Port => Some(PORT),
        AskKind::Queue => Some(QUEUE),
        AskKind::FlowMod | AskKind::PacketOut | AskKind::Barrier | AskKind::QueueConfig => None,
    }
}
