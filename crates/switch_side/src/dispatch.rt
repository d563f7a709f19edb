ghost use Rattle.std.specs.Prelude.{◌≡◌, [], ◌∷◌, true, Some, None, map, IfOk, OnOk};
ghost use Rattle.switch_side.specs.Dispatches.{addressed, shown_by};
ghost use Rattle.switch_side.specs.Carrying.{carried, telling, handing, turning};

use crate::change::Change;
use flowspace::SwitchPolicy;
use of10_ctl::Frame;
use of10_port::PortStatus;
use port_turns::turn_out;
use std::alloc::{AllocError, Global};

/// What follows from one message of a switch.
#[derive(Drop)]
pub struct Dispatch {
    /// Messages for the slices, each with the slot of its slice, by ascending slot.
    pub to_slices: Vec<(u8, Frame)>,
    /// Messages for the switch.
    pub to_switch: Vec<Frame>,
    /// What changes in the states of slices, each with the slot of its slice, by ascending slot; of a slice at
    /// most once.
    pub changes: Vec<(u8, Change)>,
    /// What the switch reported of one of its ports, where the known ports would keep it.
    pub port: Option<PortStatus>,
    /// Whether the switch's connection ends.
    pub close: bool,
}

/// One message.
pub(crate) fn one(alloc: Global, message: Frame) -> Result<Vec<Frame>, AllocError>
    ensures { IfOk result (λ v. v.items ≡ message ∷ []) }
{
    let mut messages = Vec::new(alloc);
    messages.push(message)?;
    Ok(messages)
}

/// Messages with the slot of their slice.
fn addressed(alloc: Global, slot: u8, messages: Vec<Frame>) -> Result<Vec<(u8, Frame)>, AllocError>
    ensures { IfOk result (λ v. v.items ≡ addressed slot messages.items) }
{
    messages
        .into_iter()
        .map(|message| (slot, message))
        .collect(alloc)
}

/// One message has the port numbers that its slice is shown.
fn show_one(
    alloc: Global,
    policy: &SwitchPolicy,
    message: &mut (u8, Frame),
) -> Result<(), AllocError>
    ensures { OnOk result (message.new ≡ shown_by policy.now.swaps message.old) }
{
    let slot = message.0;
    turn_out(alloc, policy, slot, &mut message.1)
}

fn show_each(
    alloc: Global,
    policy: &SwitchPolicy,
    messages: &mut [(u8, Frame)],
) -> Result<(), AllocError>
    ensures { OnOk result (messages.new ≡ map (shown_by policy.now.swaps) messages.old) }
{
    for message in messages.iter_mut() {
        show_one(alloc, policy, message)?;
    }
    Ok(())
}

impl Dispatch {
    /// Messages for slices, and what the switch reported of a port.
    pub(crate) fn telling(
        alloc: Global,
        to_slices: Vec<(u8, Frame)>,
        port: Option<PortStatus>,
    ) -> Dispatch
        ensures { carried result ≡ telling to_slices.items port }
    {
        Dispatch {
            to_slices,
            to_switch: Vec::new(alloc),
            changes: Vec::new(alloc),
            port,
            close: false,
        }
    }

    /// Messages for slices, and what changes in their states.
    fn handing(alloc: Global, to_slices: Vec<(u8, Frame)>, changes: Vec<(u8, Change)>) -> Dispatch
        ensures { carried result ≡ handing to_slices.items changes.items }
    {
        Dispatch {
            to_slices,
            to_switch: Vec::new(alloc),
            changes,
            port: None,
            close: false,
        }
    }

    /// Nothing follows.
    pub(crate) fn nothing(alloc: Global) -> Dispatch
        ensures { carried result ≡ telling [] None }
    {
        Dispatch::telling(alloc, Vec::new(alloc), None)
    }

    /// A reply to the switch.
    pub(crate) fn replying(alloc: Global, reply: Frame) -> Result<Dispatch, AllocError>
        ensures { IfOk result (λ d. carried d ≡ record (telling [] None) { replies = reply ∷ [] }) }
    {
        let mut dispatch = Dispatch::nothing(alloc);
        dispatch.to_switch.push(reply)?;
        Ok(dispatch)
    }

    /// What follows for the slice at a slot alone.
    pub(crate) fn turning(
        alloc: Global,
        slot: u8,
        messages: Vec<Frame>,
        change: Change,
    ) -> Result<Dispatch, AllocError>
        ensures { IfOk result (λ d. carried d ≡ turning (Some (record { slot = slot; messages = messages.items; change = change }))) }
    {
        let to_slice = addressed(alloc, slot, messages)?;
        let mut changes = Vec::new(alloc);
        changes.push((slot, change))?;
        Ok(Dispatch::handing(alloc, to_slice, changes))
    }

    /// The connection ends.
    pub(crate) fn closing(alloc: Global) -> Dispatch
        ensures { carried result ≡ record (telling [] None) { ends = true } }
    {
        Dispatch {
            close: true,
            ..Dispatch::nothing(alloc)
        }
    }

    /// The messages for slices have the port numbers that their slices are shown. A policy without swaps costs one
    /// test.
    pub(crate) fn show(&mut self, alloc: Global, policy: &SwitchPolicy) -> Result<(), AllocError>
        ensures { OnOk result (carried self.new ≡ record (carried self.old) { messages = map (shown_by policy.now.swaps) self.old.to_slices.items }) }
    {
        if policy.has_swaps() {
            show_each(alloc, policy, &mut self.to_slices)?;
        }
        Ok(())
    }
}
