//! The flow-mods that take away what no longer belongs to its slice.

ghost use Rattle.std.specs.Prelude.{◌≡◌, length, All, IfOk};
ghost use Rattle.flow_book.specs.Order.{ArePairsInOrder};
ghost use Rattle.policy_change.specs.Plans.{LeaveNoneOf, LeaveOthers};
ghost use Rattle.policy_change.specs.Planned.{planned, books_of, plan_of, OthersLieInOneRule};

use crate::messages::messages;
use crate::planned::planned;
use flow_book::SliceState;
use flowspace::SwitchPolicy;
use of10_flow::FlowMod;
use std::alloc::{AllocError, Global};

/// The plan of a change of policy on one switch: a strict delete for each pair, booked under the old policy, that doesn't
/// lie in one rule which the slice of the same name writes under the new one. They come by the slots of the old policy
/// and in the order of each book. The states are those of the switch under the old policy, of which the books alone are
/// read; the switch's own entries aren't known, and a plan adds none.
///
/// A controller hears of it only by the switch's FLOW_REMOVED messages. This is the proxy's own rule; the messages are
/// those of OpenFlow 1.0.0, section 5.3.3.
pub fn plan(
    alloc: Global,
    old: &SwitchPolicy,
    new: &SwitchPolicy,
    states: &[SliceState],
) -> Result<Vec<FlowMod>, AllocError>
    requires { length states.now ≡ length old.now.slices }
    ensures messages { IfOk result (λ v. v.items ≡ plan_of new.now old.now.slices (books_of states.now)) }
    ensures gone { IfOk result (λ v. LeaveNoneOf (planned new.now old.now.slices (books_of states.now)) v.items) }
    ensures others { IfOk result (λ v. LeaveOthers (planned new.now old.now.slices (books_of states.now)) v.items) }
    ensures order { IfOk result (λ v. All (λ state. ArePairsInOrder state.book.booked) states.now) }
    ensures kept { OthersLieInOneRule new.now old.now.slices states.now }
{
    let pairs = planned(alloc, old.slices(), new, states)?;
    messages(alloc, &pairs)
}
