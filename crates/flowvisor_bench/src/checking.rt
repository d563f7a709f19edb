//! Checks of lists of actions, for a slice that has as many rules to write as it may have. The list is for
//! packets that the last of them has.

use crate::expanding::policy;
use action_check::{Origin, check};
use of10_action::Action;
use of10_port::protocol::CONTROLLER;
use samples::tcp;
use std::alloc::{AllocError, Global};

/// The TCP port of the last rule.
const LAST_PORT: u16 = 255;

/// Checks so often a list with an output to a port and one to the controller, and counts the lists that
/// are given.
pub fn give(alloc: Global, count: u64) -> Result<u64, AllocError> {
    let policy = policy(alloc, false)?;
    let origin = Origin::Piece(tcp(None, LAST_PORT));
    let actions = [
        Action::SetDlDst(2),
        Action::Output {
            port: 1,
            max_len: 0,
        },
        Action::Output {
            port: CONTROLLER,
            max_len: 128,
        },
    ];
    let mut given = 0u64;
    for _ in 0..count {
        if check(alloc, &policy, 0, &origin, &actions, &[], &[]).is_ok() {
            given = given.saturating_add(1);
        }
    }
    Ok(given)
}
