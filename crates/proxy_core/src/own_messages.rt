//! The proxy's own messages to a switch.

ghost use Rattle.std.specs.Prelude.{◌≡◌, Ok, IfOk};
ghost use Rattle.of10_message.specs.SwitchViews.{said_by};
ghost use Rattle.of10_message.specs.SwitchRanges.{IsSaid};
ghost use Rattle.desk_words.specs.Sent.{greeting, whole_packets, clearing, preparation, echo_said};

use of10_action::Actions;
use of10_ctl::kind::{BARRIER_REQUEST, FEATURES_REQUEST, HELLO};
use of10_ctl::{Frame, echo_reply, message};
use of10_flow::FlowMod;
use of10_flow::protocol::{DELETE, NO_BUFFER};
use of10_match::Match;
use of10_message::{SwitchConfig, SwitchMessageView, set_config};
use of10_port::protocol::NONE;
use std::alloc::{AllocError, Global};

/// The transaction ids of the proxy's own requests.
const HELLO_XID: u32 = 0xff00_0000;

const FEATURES_XID: u32 = 0xff00_0001;

const CONFIG_XID: u32 = 0xff00_0002;

const DELETE_XID: u32 = 0xff00_0003;

const BARRIER_XID: u32 = 0xff00_0004;

/// No flags, and packets are handed up whole (OpenFlow 1.0.0, section 5.3.2).
const WHOLE_PACKETS: SwitchConfig = SwitchConfig {
    flags: 0,
    miss_send_len: 0xffff,
};

/// What a switch that connects is sent: a greeting, and the question what it is.
pub(crate) fn greeting(alloc: Global) -> Result<Vec<Frame>, AllocError>
    ensures { IfOk result (λ v. v.items ≡ greeting) }
{
    let mut messages = Vec::new(alloc);
    messages.push(message(alloc, HELLO, HELLO_XID, &[])?)?;
    messages.push(message(alloc, FEATURES_REQUEST, FEATURES_XID, &[])?)?;
    Ok(messages)
}

fn whole_packets(alloc: Global) -> Result<Frame, AllocError>
    ensures { IfOk result (λ f. f ≡ whole_packets) }
{
    set_config(alloc, CONFIG_XID, &WHOLE_PACKETS)
}

/// Every entry is to be deleted (OpenFlow 1.0.0, section 5.3.3).
fn clearing(alloc: Global) -> Result<Frame, AllocError>
    ensures { IfOk result (λ f. f ≡ clearing) }
{
    let deletion = FlowMod {
        xid: DELETE_XID,
        pattern: Match::all(),
        cookie: 0,
        command: DELETE,
        idle: 0,
        hard: 0,
        priority: 0,
        buffer: NO_BUFFER,
        out_port: NONE,
        flags: 0,
        actions: Actions::from_vec(Vec::new(alloc)),
    };
    deletion.encode(alloc)
}

/// What a switch that has said what it is is sent first: packets are to be handed up whole, the table is
/// emptied, and a barrier ends that.
pub(crate) fn preparation(alloc: Global) -> Result<Vec<Frame>, AllocError>
    ensures { IfOk result (λ v. v.items ≡ preparation) }
{
    let mut messages = Vec::new(alloc);
    messages.push(whole_packets(alloc)?)?;
    messages.push(clearing(alloc)?)?;
    messages.push(message(alloc, BARRIER_REQUEST, BARRIER_XID, &[])?)?;
    Ok(messages)
}

/// What answers a message under a transaction id: an ECHO_REQUEST its reply (OpenFlow 1.0.0, section 5.5), any
/// other nothing.
pub(crate) fn echo(
    alloc: Global,
    xid: u32,
    said: &SwitchMessageView<'_>,
) -> Result<Vec<Frame>, AllocError>
    requires { IsSaid (said_by said.now) }
    ensures { IfOk result (λ v. v.items ≡ echo_said xid (Ok (said_by said.now))) }
{
    let mut messages = Vec::new(alloc);
    if let SwitchMessageView::EchoRequest(body) = said {
        messages.push(echo_reply(alloc, xid, body)?)?;
    }
    Ok(messages)
}
