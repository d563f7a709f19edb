//! What is answered for lists of actions.

ghost use Rattle.std.specs.Prelude.{◌≡◌, All, IsTrue};
ghost use Rattle.std.specs.List.{list_all};
ghost use Rattle.of10_action.specs.Actions.{HasAddress};
ghost use Rattle.flowspace.specs.Owners.{has_port};

use action_check::{CheckFault, Origin, check};
use flowspace::SwitchPolicy;
use of10_action::{Action, Actions};
use std::alloc::{AllocError, Global};

/// The slots of the two slices.
pub const ALICE: u8 = 0;

pub const BOB: u8 = 1;

/// The numbers of two networks.
pub const FIRST_NET: u32 = 0x0a01_0000;

pub const SECOND_NET: u32 = 0x0a02_0000;

/// An action that sends out of a port.
macro_rules! output {
    ($port:expr) => {
        Action::Output {
            port: $port,
            max_len: 0,
        }
    };
}

/// An action that sends to a queue of a port.
macro_rules! enqueue {
    ($port:expr) => {
        Action::Enqueue {
            port: $port,
            queue: 7,
        }
    };
}

pub(crate) use enqueue;
pub(crate) use output;

fn are_ports(policy: &SwitchPolicy, slot: u8, ports: &[u16]) -> bool
    ensures { result ≡ list_all (has_port policy.now.rules slot) ports.now }
{
    ports.iter().all(|port| policy.has_port(slot, *port))
}

fn has_address(action: &Action) -> bool
    ensures { IsTrue result → HasAddress action.now }
{
    match *action {
        Action::SetDlSrc(address) | Action::SetDlDst(address) => address < 1 << 48,
        _ => true,
    }
}

fn have_addresses(actions: &[Action]) -> bool
    ensures { IsTrue result → All HasAddress actions.now }
{
    actions.iter().all(|action| has_address(action))
}

/// What `check` answers for ports of the slice. Other ports are a mistake in a test, which fails by it.
pub fn answer_with(
    alloc: Global,
    policy: &SwitchPolicy,
    slot: u8,
    origin: &Origin,
    actions: &[Action],
    ports: (&[u16], &[u16]),
) -> Result<Result<Actions, CheckFault>, AllocError> {
    let (flood, all) = ports;
    if are_ports(policy, slot, flood) && are_ports(policy, slot, all) && have_addresses(actions) {
        return Ok(check(alloc, policy, slot, origin, actions, flood, all));
    }
    Err(AllocError)
}
