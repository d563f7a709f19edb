//! The actions of a message that was sent to a switch.

ghost use Rattle.std.specs.Prelude.{◌≡◌, All, IfOk};
ghost use Rattle.std.specs.List.{list_any};
ghost use Rattle.of10_action.specs.Actions.{HasAddress};
ghost use Rattle.action_check.specs.Permitted.{first_code};
ghost use Rattle.trace_audit.specs.Judging.{is_flooding, action_code};

use action_check::{BAD_OUT_PORT, CheckFault, Origin, check};
use flowspace::SwitchPolicy;
use of10_action::Action;
use of10_port::protocol::{ALL, FLOOD};
use std::alloc::{AllocError, Global};

/// Whether it is an OUTPUT to FLOOD or ALL, in whose place the proxy sends outputs to single ports.
fn is_flooding(action: &Action) -> bool
    ensures { result ≡ is_flooding action.now }
{
    match *action {
        Action::Output { port, .. } => port == FLOOD || port == ALL,
        _ => false,
    }
}

fn has_flood(actions: &[Action]) -> bool
    ensures { result ≡ list_any is_flooding actions.now }
{
    actions.iter().any(|action| is_flooding(action))
}

/// The code that a check of the list answers, if it answers one. A list that is too long for a flow-mod has none.
#[tactic(auto, using(crate::proofs::Allowed::refused, crate::proofs::Allowed::too_many, crate::proofs::Allowed::given))]
fn code_of(
    alloc: Global,
    policy: &SwitchPolicy,
    slot: u8,
    origin: &Origin,
    actions: &[Action],
) -> Result<Option<u16>, AllocError>
    requires { All HasAddress actions.now }
    ensures { IfOk result (λ code. code ≡ first_code policy.now.rules slot origin.now actions.now) }
{
    match check(alloc, policy, slot, origin, actions, &[], &[]) {
        Ok(_) => Ok(None),
        Err(CheckFault::TooMany) => Ok(None),
        Err(CheckFault::Refused(code)) => Ok(Some(code)),
        Err(CheckFault::Memory) => Err(AllocError),
    }
}

/// The code of what is first forbidden in a list of actions, applied to what the origin says.
pub(crate) fn action_code(
    alloc: Global,
    policy: &SwitchPolicy,
    slot: u8,
    origin: &Origin,
    actions: &[Action],
) -> Result<Option<u16>, AllocError>
    requires { All HasAddress actions.now }
    ensures { IfOk result (λ code. code ≡ action_code policy.now.rules slot origin.now actions.now) }
{
    if has_flood(actions) {
        Ok(Some(BAD_OUT_PORT))
    } else {
        code_of(alloc, policy, slot, origin, actions)
    }
}
