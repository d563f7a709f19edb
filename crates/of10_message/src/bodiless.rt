//! Messages that are a header alone.

ghost use Rattle.std.specs.Prelude.{◌≡◌};
ghost use Rattle.of10_message.specs.Forms.{sized};

use crate::fault::Unread;
use of10_action::WireFault;
use of10_ctl::Frame;

/// What is wrong with a message that should have nothing behind its head, as a barrier and the reply to it
/// (OpenFlow 1.0.0, section 5.3.7): how long it is.
pub fn bare(frame: &Frame) -> Result<(), Unread>
    ensures { result ≡ sized 8 tt frame.now }
{
    let found = frame.as_slice().len();
    if found == 8 {
        Ok(())
    } else {
        Err(Unread::BadForm(WireFault::Length(found as u16)))
    }
}
