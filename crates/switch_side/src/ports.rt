//! Ports that come, go or change (OpenFlow 1.0.0, section 5.4.3).

ghost use Rattle.std.specs.Prelude.{◌≡◌, ◌≤◌, ◌++◌, length, Some, IfOk, OnOk};
ghost use Rattle.of10_port.specs.PortStatus.{spell_port_status};
ghost use Rattle.desk_words.specs.Openings.{kept_beside};
ghost use Rattle.switch_side.specs.Dispatches.{addressed, said_from};
ghost use Rattle.switch_side.specs.Carrying.{carried, telling, once, status_for, port_told};
ghost use Rattle.switch_side.specs.Sharing.{HasNoted, HaveNoted, AreSlotsWith};

use crate::dispatch::Dispatch;
use flow_book::SliceState;
use flowspace::limits::SLICES;
use flowspace::{Rule, SwitchPolicy, is_in_port, takes_from};
use of10_ctl::Frame;
use of10_port::PortStatus;
use port_view::{Kept, PortView};
use std::alloc::{AllocError, Global};

/// Notes the slot of the rule's writer, where the rule takes packets from the port.
fn note(slots: &mut [bool; SLICES], rule: &Rule, port: u16)
    ensures { HasNoted rule.now port slots.old slots.new }
{
    let Some(slot) = rule.writer else {
        return;
    };
    let place = usize::from(slot);
    if place < SLICES && takes_from(rule, port) {
        slots[place] = true;
    }
}

fn note_all(slots: &mut [bool; SLICES], rules: &[Rule], port: u16)
    ensures { HaveNoted rules.now port slots.old slots.new }
{
    for rule in rules {
        note(slots, rule, port);
    }
}

/// The slots of the slices that have a port, found in one pass over the rules.
fn slots_with(policy: &SwitchPolicy, port: u16) -> [bool; SLICES]
    ensures { AreSlotsWith policy.now.rules port result }
{
    let mut slots = [false; SLICES];
    if is_in_port(port) {
        note_all(&mut slots, policy.rules(), port);
    }
    slots
}

/// The change of a port for the slice at a slot, where it is due.
fn put_for_slice(
    alloc: Global,
    to_slices: &mut Vec<(u8, Frame)>,
    slot: u8,
    is_due: bool,
    status: &PortStatus,
) -> Result<(), AllocError>
    ensures { OnOk result (to_slices.new.items ≡ to_slices.old.items ++ addressed slot (once is_due (spell_port_status status.now 0))) }
{
    if !is_due {
        return Ok(());
    }
    let message = status.encode(alloc, 0)?;
    to_slices.push((slot, message))?;
    Ok(())
}

/// The change of a port for the slices that are up and have the port.
fn put_for_all(
    alloc: Global,
    policy: &SwitchPolicy,
    states: &[SliceState],
    status: &PortStatus,
) -> Result<Vec<(u8, Frame)>, AllocError>
    requires { length states.now ≤ 32 }
    ensures { IfOk result (λ v. v.items ≡ said_from (status_for policy.now.rules status.now) 0 states.now) }
{
    let slots = slots_with(policy, status.port.number());
    let mut to_slices = Vec::new(alloc);
    for (place, state) in states.iter().enumerate() {
        let is_due = state.up && slots[place];
        put_for_slice(alloc, &mut to_slices, place as u8, is_due, status)?;
    }
    Ok(to_slices)
}

/// What a PORT_STATUS reports, where the known ports would keep it.
fn kept(ports: &PortView, status: &PortStatus) -> Option<PortStatus>
    ensures { result ≡ kept_beside ports.now (Some status.now) }
{
    if ports.test_status(status) == Kept::Kept {
        Some(*status)
    } else {
        None
    }
}

/// What follows from a PORT_STATUS; from one that isn't kept nothing.
pub(crate) fn port_status(
    alloc: Global,
    policy: &SwitchPolicy,
    ports: &PortView,
    states: &[SliceState],
    status: &PortStatus,
) -> Result<Dispatch, AllocError>
    requires few { length states.now ≤ 32 }
    ensures value { IfOk result (λ d. carried d ≡ telling (port_told policy.now.rules states.now (kept_beside ports.now (Some status.now))) (kept_beside ports.now (Some status.now))) }
{
    match kept(ports, status) {
        None => Ok(Dispatch::nothing(alloc)),
        Some(status) => {
            let to_slices = put_for_all(alloc, policy, states, &status)?;
            Ok(Dispatch::telling(alloc, to_slices, Some(status)))
        }
    }
}
