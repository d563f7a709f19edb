//! What is wrong with a message that was sent for a slice, as its bytes and the session of its switch say.

ghost use Rattle.std.specs.Prelude.{ℕ, ◌≡◌, List, IfOk, IfSome};
ghost use Rattle.std.specs.Ordering.{nat_cmp};
ghost use Rattle.std.specs.BTreeMap.{get};
ghost use Rattle.of10_message.specs.Controller.{read_controller};
ghost use Rattle.desk_words.specs.declared.event.Timed.{Timed};
ghost use Rattle.desk_words.specs.Arrivals.{buffer_header};
ghost use Rattle.trace_audit.specs.Auditing.{read_why};
ghost use Rattle.trace_audit.specs.Standing.{IsFrameAt, SessionStands};

use crate::judging::{flow_mod_why, packet_out_why};
use crate::session::Session;
use crate::why::Why;
use flowspace::SwitchPolicy;
use of10_ctl::Frame;
use of10_message::{FromController, read_controller};
use std::alloc::{AllocError, Global};

/// What is wrong with a message that was sent for the slice at a slot, by the rules of the switch, which has
/// said what it is: with its type and form, or as a flow-mod or a packet-out. The file is the trace in which
/// the session stands.
pub fn message_why(
    alloc: Global,
    policy: &SwitchPolicy,
    session: &Session,
    file: &[u8],
    slot: u8,
    frame: &Frame,
) -> Result<Option<Why>, AllocError>
    requires { (number : ℕ) → IfSome (get nat_cmp session.now.packets number) (IsFrameAt file.now) }
    ensures { (h : List Timed) → SessionStands file.now h session.now → IfOk result (λ why. why ≡ read_why (buffer_header h) policy.now.rules slot (read_controller frame.now)) }
{
    match read_controller(frame) {
        Ok(FromController::FlowMod(message)) => {
            let m = message.copied(alloc)?;
            let held = session.header_under(alloc, file, m.buffer)?;
            flow_mod_why(alloc, policy, &held, slot, &m)
        }
        Ok(FromController::PacketOut(message)) => {
            let m = message.copied(alloc)?;
            let held = session.header_under(alloc, file, m.buffer)?;
            packet_out_why(alloc, policy, &held, slot, &m)
        }
        _ => Ok(Some(Why::Kind)),
    }
}
