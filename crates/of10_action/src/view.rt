//! Actions where they lie.

ghost use Rattle.std.specs.Prelude.{◌≡◌, ◌≤◌, false, is_ok, IfOk, length};
ghost use Rattle.std.specs.List.{All};
ghost use Rattle.of10_action.specs.Actions.{IsAction};
ghost use Rattle.of10_action.specs.Reading.{Reads, actions_in, read_all};

use crate::action::Actions;
use crate::decode::{first, list};
use crate::fault::{DecodeFault, WireFault};
use std::alloc::{AllocError, Global};
use std::marker::Model;

/// A list of actions where it lies, as in the message that carries it: all of them are right, and nothing is
/// copied (OpenFlow 1.0.0, section 5.2.4).
#[derive(Drop)]
pub struct ActionsView<'a> {
    bytes: &'a [u8],
}

impl<'a> Model for ActionsView<'a> {
    ghost use Rattle.std.specs.Prelude.{◌≡◌, List, Ok};
    ghost use Rattle.of10_action.specs.declared.action.Action.{Action};
    ghost use Rattle.of10_action.specs.Reading.{actions_in, read_all};

    ghost Value = { List Action };

    ghost view = { λ v. actions_in v.bytes.now };

    ghost invariant = { λ v. read_all v.bytes.now ≡ Ok (actions_in v.bytes.now) };
}

/// Whether the bytes are actions up to their end, or what is wrong with the first that is wrong.
fn look(bytes: &[u8]) -> Result<(), WireFault>
    ensures exact { Reads (λ _. actions_in bytes.now) result (read_all bytes.now) }
    ensures range { IfOk result (λ _. All IsAction (actions_in bytes.now)) }
{
    let mut rest = bytes;
    while !rest.is_empty() {
        rest = match first(rest) {
            Ok((_, after)) => after,
            Err(fault) => return Err(fault),
        };
    }
    Ok(())
}

impl<'a> ActionsView<'a> {
    /// The actions that the bytes spell, all of the bytes, padding disregarded; otherwise what is wrong with the
    /// first action that is wrong (OpenFlow 1.0.0, section 5.2.4). Takes no memory.
    pub fn decode(bytes: &'a [u8]) -> Result<ActionsView<'a>, WireFault>
        ensures exact { result ≡ read_all bytes.now }
        ensures range { IfOk result (λ actions. All IsAction actions) }
    {
        look(bytes)?;
        Ok(ActionsView { bytes })
    }

    /// The same in memory of its own, which is taken only where there is an action.
    pub fn copied(&self, alloc: Global) -> Result<Actions, AllocError>
        ensures value { IfOk result (λ actions. actions ≡ self.now) }
        ensures memory { is_ok result ≡ false → 1 ≤ length self.now }
    {
        match list(alloc, self.bytes) {
            Ok(items) => Ok(Actions::from_vec(items)),
            Err(DecodeFault::Memory) => Err(AllocError),
            Err(DecodeFault::Wire(_)) => unreachable!(),
        }
    }
}
