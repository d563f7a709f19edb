//! The messages of a plan.

ghost use Rattle.std.specs.Prelude.{◌≡◌, IfOk};
ghost use Rattle.policy_change.specs.Plans.{deletion, plan_from};

use flow_book::Booked;
use of10_action::Actions;
use of10_flow::FlowMod;
use of10_flow::protocol::{DELETE_STRICT, NO_BUFFER};
use of10_port::protocol::NONE;
use std::alloc::{AllocError, Global};

/// The transaction id of a plan's first message. The proxy's own messages to a switch have those from 0xff000000 to
/// 0xff000004, so that all of a plan are among the proxy's own too.
const FIRST_XID: u32 = 0xff00_0005;

/// The message that takes the pair's entry away, whatever that outputs to (OpenFlow 1.0.0, section 5.3.3).
fn deletion(alloc: Global, xid: u32, booked: &Booked) -> FlowMod
    ensures { result ≡ deletion xid booked.now }
{
    FlowMod {
        xid,
        pattern: booked.pattern,
        cookie: 0,
        command: DELETE_STRICT,
        idle: 0,
        hard: 0,
        priority: booked.priority,
        buffer: NO_BUFFER,
        out_port: NONE,
        flags: 0,
        actions: Actions::from_vec(Vec::new(alloc)),
    }
}

/// The messages for these pairs, in their order.
pub(crate) fn messages(alloc: Global, pairs: &[Booked]) -> Result<Vec<FlowMod>, AllocError>
    ensures { IfOk result (λ v. v.items ≡ plan_from 0xff000005 pairs.now) }
{
    let mut messages = Vec::with_capacity(alloc, pairs.len())?;
    let mut xid = FIRST_XID;
    for booked in pairs {
        messages.push(deletion(alloc, xid, booked))?;
        xid = xid.wrapping_add(1);
    }
    Ok(messages)
}
