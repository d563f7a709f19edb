//! Errors that refuse a slice's message, and what is answered to one that can't be read.

ghost use Rattle.std.specs.Prelude.{◌≡◌, true, false, [], ◌∷◌, IfOk, Err};
ghost use Rattle.slice_words.specs.Items.{Settings, Sight};
ghost use Rattle.slice_words.specs.Answers.{error_for, unread_answer};
ghost use Rattle.slice_side.specs.declared.change.Change.TheVariants.{Dismissed};
ghost use Rattle.slice_side.specs.Reactions.{Follows, IsSoundChange};

use crate::change::Change;
use crate::reaction::Reaction;
use of10_action::code;
use of10_action::error::{
    BAD_LENGTH, BAD_REQUEST, BAD_TYPE, BAD_VERSION, HELLO_FAILED, INCOMPATIBLE,
};
use of10_ctl::{Frame, error_frame};
use of10_message::Unread;
use std::alloc::{AllocError, Global};

/// The error that refuses a message.
fn refusal(alloc: Global, class: u16, code: u16, frame: &Frame) -> Result<Frame, AllocError>
    ensures { IfOk result (λ reply. reply ≡ error_for (class, code) frame.now) }
{
    let xid = frame.head().xid;
    error_frame(alloc, xid, class, code, frame.as_slice())
}

/// A message that is refused, with what it changes.
pub(crate) fn refused(
    alloc: Global,
    class: u16,
    code: u16,
    frame: &Frame,
    change: Change,
) -> Result<Reaction, AllocError>
    requires { IsSoundChange change }
    ensures sound { IfOk result (λ r. IsSoundChange r.change) }
    ensures to_slice { IfOk result (λ r. r.to_slice.items ≡ error_for (class, code) frame.now ∷ []) }
    ensures to_switch { IfOk result (λ r. r.to_switch.items ≡ []) }
    ensures change { IfOk result (λ r. r.change ≡ change) }
    ensures close { IfOk result (λ r. r.close ≡ false) }
{
    let reply = refusal(alloc, class, code, frame)?;
    Reaction::replying(alloc, reply, change)
}

/// A message that ends its connection, with what is said last.
fn dismissed(alloc: Global, reply: Frame, moment: u64) -> Result<Reaction, AllocError>
    ensures sound { IfOk result (λ r. IsSoundChange r.change) }
    ensures to_slice { IfOk result (λ r. r.to_slice.items ≡ reply ∷ []) }
    ensures to_switch { IfOk result (λ r. r.to_switch.items ≡ []) }
    ensures change { IfOk result (λ r. r.change ≡ Dismissed moment) }
    ensures close { IfOk result (λ r. r.close ≡ true) }
{
    let reaction = Reaction::replying(alloc, reply, Change::Dismissed { moment })?;
    Ok(Reaction {
        close: true,
        ..reaction
    })
}

/// What follows from a message that isn't read.
pub(crate) fn unread(
    alloc: Global,
    fault: Unread,
    frame: &Frame,
    moment: u64,
) -> Result<Reaction, AllocError>
    ensures sound { IfOk result (λ r. IsSoundChange r.change) }
    ensures nothing { IfOk result (λ r. r.to_switch.items ≡ []) }
    ensures follows { (s : Settings) (sight : Sight) → IfOk result (Follows s sight frame.now (Err fault) (unread_answer fault frame.now) moment) }
{
    match fault {
        Unread::BadLength => {
            let reply = refusal(alloc, BAD_REQUEST, BAD_LENGTH, frame)?;
            dismissed(alloc, reply, moment)
        }
        Unread::NoCommonVersion => {
            let xid = frame.head().xid;
            let reply = error_frame(alloc, xid, HELLO_FAILED, INCOMPATIBLE, &[])?;
            dismissed(alloc, reply, moment)
        }
        Unread::BadVersion => refused(
            alloc,
            BAD_REQUEST,
            BAD_VERSION,
            frame,
            Change::Heard { moment },
        ),
        Unread::BadType => refused(
            alloc,
            BAD_REQUEST,
            BAD_TYPE,
            frame,
            Change::Heard { moment },
        ),
        Unread::BadForm(fault) => {
            let (class, code) = code(fault);
            refused(alloc, class, code, frame, Change::Heard { moment })
        }
    }
}
