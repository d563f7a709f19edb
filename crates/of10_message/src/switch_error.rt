//! Errors of a switch (OpenFlow 1.0.0, section 5.4.4).

ghost use Rattle.std.specs.Prelude.{◌≡◌, ◌<◌, ◌^◌, IfOk, option_map};
ghost use Rattle.of10_action.specs.Reading.{Reads};
ghost use Rattle.of10_ctl.specs.declared.kind.TheConstants.{ERROR};
ghost use Rattle.of10_ctl.specs.Kinds.{IsOf};
ghost use Rattle.of10_message.specs.Errors.{error_of_view, read_error, pair_in, begins_flow_mod};

use of10_action::WireFault;
use of10_ctl::Frame;
use of10_ctl::kind::FLOW_MOD;
use of10_match::Match;
use of10_model::wire::{u8_at, u16_at, u32_at};

/// An error, with the message at fault where it lies: nothing is copied.
#[derive(Clone, Copy)]
pub struct ErrorView<'a> {
    /// What kind of fault it is, such as `of10_action::error::FLOW_MOD_FAILED`.
    pub class: u16,
    /// Which fault of that class.
    pub code: u16,
    /// The message at fault, or its first bytes; the standard asks for at least 64.
    pub cause: &'a [u8],
}

impl<'a> ErrorView<'a> {
    /// The error that the frame is, or its length where it is shorter than its fields. Takes no memory.
    #[tactic(auto, unfolding(crate::specs::Errors::read_error))]
    pub fn decode(frame: &'a Frame) -> Result<ErrorView<'a>, WireFault>
        requires { IsOf ERROR frame.now }
        ensures exact { Reads error_of_view result (read_error frame.now) }
    {
        let bytes = frame.as_slice();
        if bytes.len() < 12 {
            return Err(WireFault::Length(bytes.len() as u16));
        }
        Ok(ErrorView {
            class: u16_at(bytes, 8),
            code: u16_at(bytes, 10),
            cause: &bytes[12..],
        })
    }
}

/// Whether the bytes begin as a flow-mod under the transaction id.
fn begins_flow_mod(xid: u32, bytes: &[u8]) -> bool
    ensures { result ≡ begins_flow_mod xid bytes.now }
{
    bytes.len() >= 64
        && u8_at(bytes, 0) == 1
        && u8_at(bytes, 1) == FLOW_MOD
        && u32_at(bytes, 4) == xid
}

/// The match and the priority of the flow-mod as which the bytes begin, if they have 64 bytes of one under
/// the transaction id. How long the flow-mod says that it is isn't looked at.
#[tactic(auto, unfolding(crate::specs::Errors::pair_in))]
pub fn pair_in(xid: u32, bytes: &[u8]) -> Option<(Match, u16)>
    ensures { result ≡ pair_in xid bytes.now }
{
    if begins_flow_mod(xid, bytes) {
        Some((Match::decode_at(bytes, 8), u16_at(bytes, 62)))
    } else {
        None
    }
}
