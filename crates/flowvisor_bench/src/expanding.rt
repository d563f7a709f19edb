//! The expansion of flow-mods, for a slice that has as many rules to write as it may have. They are in turn
//! for a VLAN and for a TCP port of their own, so a flow-mod for all packets has as many pieces.

use crate::policies::{add_rule, load, put, slices};
use flowmod_expand::{build, pieces};
use flowspace::SwitchPolicy;
use flowspace::limits::WRITES;
use of10_action::{Action, Actions};
use of10_flow::FlowMod;
use of10_flow::protocol::{ADD, NO_BUFFER};
use of10_match::Match;
use of10_port::protocol::NONE;
use std::alloc::{AllocError, Global};

/// The policy of that slice. Where there are rules for VLANs, each other one is for one; all others are for a
/// TCP port of their own.
pub fn policy(alloc: Global, has_vlans: bool) -> Result<SwitchPolicy, AllocError> {
    const OF_VLAN: &str = "[[rule]]\npriority = 7\nwrite = \"slice0\"\ndl_vlan = ";
    let mut text = slices(alloc, 1, "")?;
    for number in 0..WRITES {
        if has_vlans && number % 2 == 0 {
            put(&mut text, OF_VLAN, number, "\n")?;
        } else {
            add_rule(&mut text, 0, number)?;
        }
    }
    load(alloc, &text)?.of_switch(alloc, 0)
}

fn add(alloc: Global) -> Result<FlowMod, AllocError> {
    Ok(FlowMod {
        xid: 0,
        pattern: Match::all(),
        cookie: 0,
        command: ADD,
        idle: 60,
        hard: 0,
        priority: 10,
        buffer: NO_BUFFER,
        out_port: NONE,
        flags: 0,
        actions: Actions::of(alloc, &[])?,
    })
}

/// The list of actions of each piece.
fn outputs(alloc: Global, count: usize) -> Result<Vec<Actions>, AllocError> {
    let output = Action::Output {
        port: 2,
        max_len: 0,
    };
    let mut lists = Vec::new(alloc);
    for _ in 0..count {
        lists.push(Actions::of(alloc, &[output])?)?;
    }
    Ok(lists)
}

/// Finds the pieces of all packets so often, and counts them.
pub fn split(alloc: Global, count: u64) -> Result<u64, AllocError> {
    let policy = policy(alloc, true)?;
    let mut found = 0u64;
    for _ in 0..count {
        let pieces = pieces(alloc, &policy, 0, &Match::all())?;
        found = found.saturating_add(pieces.len() as u64);
    }
    Ok(found)
}

/// Makes the messages of those pieces so often, and counts them.
pub fn send(alloc: Global, count: u64) -> Result<u64, AllocError> {
    let policy = policy(alloc, true)?;
    let pieces = pieces(alloc, &policy, 0, &Match::all())?;
    let actions = outputs(alloc, pieces.len())?;
    let asked = add(alloc)?;
    let mut made = 0u64;
    if actions.len() != pieces.len() || asked.command != ADD {
        return Ok(made);
    }
    for _ in 0..count {
        if let Ok(frames) = build(alloc, &asked, 1, &pieces, &actions, None) {
            made = made.saturating_add(frames.len() as u64);
        }
    }
    Ok(made)
}
