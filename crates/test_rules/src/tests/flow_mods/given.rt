//! Matches, actions and answers for the tests.

use flowmod_expand::{BuildFault, build};
use of10_action::{Action, Actions};
use of10_ctl::Frame;
use of10_flow::FlowMod;
use of10_match::Match;
use of10_model::wire::{set_u16, set_u32};
use std::alloc::{AllocError, Global};

/// The 40 bytes of a match of this wildcard word, of IPv4 with these fields.
pub fn spelled(word: u32, protocol: u8, source: u32, destination: u32, port: u16) -> [u8; 40] {
    let mut bytes = [0; 40];
    set_u32(&mut bytes, 0, word);
    set_u16(&mut bytes, 22, 0x0800);
    bytes[25] = protocol;
    set_u32(&mut bytes, 28, source);
    set_u32(&mut bytes, 32, destination);
    set_u16(&mut bytes, 38, port);
    bytes
}

/// So many actions of 8 bytes each.
pub fn strips(alloc: Global, count: usize) -> Result<Actions, AllocError> {
    Ok(Actions::from_vec(vec![in alloc; Action::StripVlan; count]?))
}

/// What `build` answers; out of memory where its conditions don't hold, which no test has.
pub fn built(
    alloc: Global,
    m: &FlowMod,
    xid: u32,
    pieces: &[Match],
    actions: &[Actions],
    buffer: Option<(u32, u32)>,
) -> Result<Vec<Frame>, BuildFault> {
    let is_there = match buffer {
        Some((place, _)) => (place as usize) < pieces.len(),
        None => true,
    };
    if actions.len() == pieces.len() && m.command <= 4 && is_there {
        build(alloc, m, xid, pieces, actions, buffer)
    } else {
        Err(BuildFault::Memory)
    }
}
