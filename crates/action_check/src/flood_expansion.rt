//! The list in which outputs to the slice's ports stand for FLOOD and ALL.

ghost use Rattle.std.specs.Prelude.{◌≡◌, ◌≤◌, ◌<◌, ◌^◌, ◌++◌, [], ◌∷◌, length, OnOk, IfOk, IfSome, IfNone, option_map};
ghost use Rattle.of10_action.specs.Actions.{spelling};
ghost use Rattle.action_check.specs.Permitted.{outputs, ports_for, spread, expanded};

use of10_action::{Action, list_size};
use of10_flow::protocol::MOST_ACTION_BYTES;
use of10_port::protocol::{ALL, FLOOD};
use std::alloc::{AllocError, Global};

/// The most bytes that the list may have: as many as a flow-mod's actions take.
const MOST_BYTES: u128 = MOST_ACTION_BYTES as u128;

/// Bytes of an OUTPUT (OpenFlow 1.0.0, section 5.2.4).
const OUTPUT_BYTES: u128 = 8;

fn ports_for<'a>(port: u16, flood: &'a [u16], all: &'a [u16]) -> Option<&'a [u16]>
    ensures { option_map (λ ports. ports.now) result ≡ ports_for port flood.now all.now }
{
    match port {
        FLOOD => Some(flood),
        ALL => Some(all),
        _ => None,
    }
}

fn single_bytes(action: &Action) -> u128
    ensures value { result ≡ length (spelling (action.now ∷ [])) }
    ensures bound { result < 2 ^ 64 }
{
    u128::from(list_size(&[*action]))
}

fn spread_bytes(action: &Action, flood: &[u16], all: &[u16]) -> u128
    ensures value { result ≡ length (spelling (spread flood.now all.now action.now)) }
    ensures bound { result < 2 ^ 67 }
{
    match *action {
        Action::Output { port, .. } => match ports_for(port, flood, all) {
            Some(ports) => OUTPUT_BYTES * ports.len() as u128,
            None => single_bytes(action),
        },
        _ => single_bytes(action),
    }
}

/// Bytes that the expanded list takes; `None` where they are too many.
pub(crate) fn expanded_bytes(actions: &[Action], flood: &[u16], all: &[u16]) -> Option<usize>
    ensures some { IfSome result (λ bytes. (bytes ≡ length (spelling (expanded flood.now all.now actions.now))) × (bytes ≤ 65463)) }
    ensures none { IfNone result (65463 < length (spelling (expanded flood.now all.now actions.now))) }
{
    let mut total = 0;
    for action in actions {
        total += spread_bytes(action, flood, all);
        if total > MOST_BYTES {
            return None;
        }
    }
    Some(total as usize)
}

fn put_single(out: &mut Vec<Action>, action: &Action) -> Result<(), AllocError>
    ensures { OnOk result (out.new.items ≡ out.old.items ++ (action.now ∷ [])) }
{
    out.push(*action)?;
    Ok(())
}

fn put_outputs(out: &mut Vec<Action>, max_len: u16, ports: &[u16]) -> Result<(), AllocError>
    ensures { OnOk result (out.new.items ≡ out.old.items ++ outputs max_len ports.now) }
{
    for port in ports {
        out.push(Action::Output {
            port: *port,
            max_len,
        })?;
    }
    Ok(())
}

fn put_spread(
    out: &mut Vec<Action>,
    action: &Action,
    flood: &[u16],
    all: &[u16],
) -> Result<(), AllocError>
    ensures { OnOk result (out.new.items ≡ out.old.items ++ spread flood.now all.now action.now) }
{
    match *action {
        Action::Output { port, max_len } => match ports_for(port, flood, all) {
            Some(ports) => put_outputs(out, max_len, ports),
            None => put_single(out, action),
        },
        _ => put_single(out, action),
    }
}

/// The list with outputs in the place of FLOOD and ALL, in room for so many actions.
pub(crate) fn expansion(
    alloc: Global,
    actions: &[Action],
    flood: &[u16],
    all: &[u16],
    room: usize,
) -> Result<Vec<Action>, AllocError>
    ensures { IfOk result (λ list. list.items ≡ expanded flood.now all.now actions.now) }
{
    let mut list = Vec::with_capacity(alloc, room)?;
    for action in actions {
        put_spread(&mut list, action, flood, all)?;
    }
    Ok(list)
}
