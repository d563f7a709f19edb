ghost use Rattle.std.specs.Prelude.{◌≡◌, [], ◌∷◌, false, IfOk};
ghost use Rattle.slice_side.specs.Reactions.{IsSoundChange};

use crate::change::Change;
use of10_ctl::Frame;
use std::alloc::{AllocError, Global};

/// What follows from a message of a slice.
#[derive(Drop)]
pub struct Reaction {
    /// Messages to the slice, in order.
    pub to_slice: Vec<Frame>,
    /// Messages for the switch, in order.
    pub to_switch: Vec<Frame>,
    /// What changes in the slice's state.
    pub change: Change,
    /// Whether the connection is to be closed.
    pub close: bool,
}

impl Reaction {
    /// Nothing is sent.
    pub(crate) fn silent(alloc: Global, change: Change) -> Reaction
        requires { IsSoundChange change }
        ensures sound { IsSoundChange result.change }
        ensures to_slice { result.to_slice.items ≡ [] }
        ensures to_switch { result.to_switch.items ≡ [] }
        ensures change { result.change ≡ change }
        ensures close { result.close ≡ false }
    {
        Reaction {
            to_slice: Vec::new(alloc),
            to_switch: Vec::new(alloc),
            change,
            close: false,
        }
    }

    /// One message is sent to the slice.
    pub(crate) fn replying(
        alloc: Global,
        reply: Frame,
        change: Change,
    ) -> Result<Reaction, AllocError>
        requires { IsSoundChange change }
        ensures sound { IfOk result (λ r. IsSoundChange r.change) }
        ensures to_slice { IfOk result (λ r. r.to_slice.items ≡ reply ∷ []) }
        ensures to_switch { IfOk result (λ r. r.to_switch.items ≡ []) }
        ensures change { IfOk result (λ r. r.change ≡ change) }
        ensures close { IfOk result (λ r. r.close ≡ false) }
    {
        let mut reaction = Reaction::silent(alloc, change);
        reaction.to_slice.push(reply)?;
        Ok(reaction)
    }

    /// Messages are sent on to the switch.
    pub(crate) fn forwarding(alloc: Global, to_switch: Vec<Frame>, change: Change) -> Reaction
        requires { IsSoundChange change }
        ensures sound { IsSoundChange result.change }
        ensures to_slice { result.to_slice.items ≡ [] }
        ensures to_switch { result.to_switch.items ≡ to_switch.items }
        ensures change { result.change ≡ change }
        ensures close { result.close ≡ false }
    {
        Reaction {
            to_slice: Vec::new(alloc),
            to_switch,
            change,
            close: false,
        }
    }

    /// One message is sent on to the switch.
    pub(crate) fn sending(
        alloc: Global,
        message: Frame,
        change: Change,
    ) -> Result<Reaction, AllocError>
        requires { IsSoundChange change }
        ensures sound { IfOk result (λ r. IsSoundChange r.change) }
        ensures to_slice { IfOk result (λ r. r.to_slice.items ≡ []) }
        ensures to_switch { IfOk result (λ r. r.to_switch.items ≡ message ∷ []) }
        ensures change { IfOk result (λ r. r.change ≡ change) }
        ensures close { IfOk result (λ r. r.close ≡ false) }
    {
        let mut reaction = Reaction::silent(alloc, change);
        reaction.to_switch.push(message)?;
        Ok(reaction)
    }
}
