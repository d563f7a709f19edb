//! Which lists of actions a slice may send, and the first fault of one that it may not.

ghost use Rattle.std.specs.Prelude.{ℕ, ◌≡◌, ◌≤◌, List, length, Ok, IfOk, IsTrue};
ghost use Rattle.flowspace.specs.declared.rules.Rule.{Rule};
ghost use Rattle.std.specs.List.{All};
ghost use Rattle.of10_action.specs.Actions.{IsAction, HasAddress, spelling};
ghost use Rattle.flowspace.specs.Owners.{HasPort};
ghost use Rattle.action_check.specs.declared.origin.Origin.{Origin as Image};
ghost use Rattle.action_check.specs.Origins.{image_after};
ghost use Rattle.action_check.specs.Verdicts.{AreVerdicts};
ghost use Rattle.action_check.specs.Permitted.{first_code, permitted, answer_of, GivesList};

use crate::action_rules::code_of;
use crate::fault::CheckFault;
use crate::flood_expansion::{expanded_bytes, expansion};
use crate::origin::{Origin, after};
use crate::verdicts::Verdicts;
use flowspace::SwitchPolicy;
use of10_action::{Action, Actions};
use std::alloc::Global;

/// The fewest bytes that an action takes (OpenFlow 1.0.0, section 5.2.4).
const ACTION_BYTES: usize = 8;

/// Whether an action leaves every header as it is: OUTPUT and ENQUEUE do.
fn keeps_headers(action: &Action) -> bool
    ensures { IsTrue result → (image : Image) → image_after image action.now ≡ image }
{
    matches!(*action, Action::Output { .. } | Action::Enqueue { .. })
}

/// The image by one more action, and what is known of it.
fn advance(image: &mut Origin, verdicts: &mut Verdicts, action: &Action)
    requires { HasAddress action.now }
    ensures image { image.new ≡ image_after image.old action.now }
    ensures kept { (rules : List Rule) (slot : ℕ) → AreVerdicts rules slot image.old verdicts.old → AreVerdicts rules slot image.new verdicts.new }
{
    if !keeps_headers(action) {
        *image = after(image, action);
        verdicts.forget();
    }
}

fn first_code(policy: &SwitchPolicy, slot: u8, origin: &Origin, actions: &[Action]) -> Option<u16>
    requires { All HasAddress actions.now }
    ensures { result ≡ first_code policy.now.rules slot origin.now actions.now }
{
    let mut image = *origin;
    let mut verdicts = Verdicts::new();
    for action in actions {
        let code = code_of(policy, slot, &image, &mut verdicts, action);
        if code.is_some() {
            return code;
        }
        advance(&mut image, &mut verdicts, action);
    }
    None
}

/// The list that a slice may send where it sent these actions: outputs to the ports of `flood` and of
/// `all` stand in it for FLOOD and ALL, each with the `max_len` of the action. An action is forbidden
/// where it sets what the field can't hold, or where it sends to a port that the slice doesn't have. It is
/// also forbidden where not all that it sends, as the earlier actions rewrite the packet, is what one rule
/// lets the slice write. Numbers of ports: OpenFlow 1.0.0, section 5.2.1; the rules themselves are this
/// proxy's own.
pub fn check(
    alloc: Global,
    policy: &SwitchPolicy,
    slot: u8,
    origin: &Origin,
    actions: &[Action],
    flood: &[u16],
    all: &[u16],
) -> Result<Actions, CheckFault>
    requires addresses { All HasAddress actions.now }
    requires flood { All (HasPort policy.now.rules slot) flood.now }
    requires all { All (HasPort policy.now.rules slot) all.now }
    // Which list it is and which fault. Memory can only be wanted for a list.
    ensures exact { GivesList result (answer_of (permitted policy.now.rules slot origin.now actions.now flood.now all.now)) }
    ensures only { IfOk result (λ list. permitted policy.now.rules slot origin.now actions.now flood.now all.now ≡ Ok list) }
    ensures size { IfOk result (λ list. length (spelling list) ≤ 65463) }
    ensures range { All IsAction actions.now → IfOk result (λ list. All IsAction list) }
{
    if let Some(code) = first_code(policy, slot, origin, actions) {
        return Err(CheckFault::Refused(code));
    }
    let Some(bytes) = expanded_bytes(actions, flood, all) else {
        return Err(CheckFault::TooMany);
    };
    match expansion(alloc, actions, flood, all, bytes / ACTION_BYTES) {
        Ok(list) => Ok(Actions::from_vec(list)),
        Err(_) => Err(CheckFault::Memory),
    }
}
