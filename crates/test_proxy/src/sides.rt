//! What one message of a slice or of a switch makes.

mod slices;
mod switches;

use flow_book::SliceState;
use flowspace::{Slice, SwitchPolicy};
use of10_ctl::Frame;
use samples::{rule, switch_policy, tcp};
use slice_side::come_up;
use std::alloc::{AllocError, Global};

/// A rule for TCP packets: its priority, the port from which they come, or any, the TCP port that they are for, and
/// its writer and readers.
type RuleRow = (u32, Option<u16>, u16, u8, u32);

/// The first slice has packets to port 80 that come from port 1, and the second has those to port 22.
const TWO_RULES: &[RuleRow] = &[(100, Some(1), 80, 0, 0), (50, None, 22, 1, 0)];

/// The policy of two slices and these rules.
fn policy_of(alloc: Global, rows: &[RuleRow]) -> Result<SwitchPolicy, AllocError> {
    let mut rules = Vec::new(alloc);
    for (priority, from, to, writer, readers) in rows {
        rules.push(rule(*priority, &tcp(*from, *to), *writer, *readers))?;
    }
    match switch_policy(alloc, &rules) {
        Ok(policy) => Ok(policy),
        Err(_) => Err(AllocError),
    }
}

fn fresh(alloc: Global, slot: u8, slice: &Slice) -> Result<SliceState, AllocError> {
    if slice.burst == 0 {
        return Err(AllocError);
    }
    SliceState::new(alloc, slot, slice)
}

fn connect(state: &mut SliceState) {
    come_up(state);
}

/// The state of a slice, whose controller has connected where it is up.
fn state(
    alloc: Global,
    policy: &SwitchPolicy,
    slot: u8,
    is_up: bool,
) -> Result<SliceState, AllocError> {
    let Some(slice) = policy.slices().get(usize::from(slot)) else {
        return Err(AllocError);
    };
    let mut state = fresh(alloc, slot, slice)?;
    if !is_up {
        return Ok(state);
    }
    connect(&mut state);
    Ok(state)
}

/// Appends the label of a message and its digits.
fn push_message(text: &mut String, label: &str, message: &Frame) -> Result<(), AllocError> {
    text.push_str(label)?;
    for byte in message.as_slice() {
        write!(text, "{byte:02x}")?;
    }
    Ok(())
}
