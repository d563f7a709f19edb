//! Laws of the definitions. Each function's contract is the law; its body does nothing.

ghost use Rattle.std.specs.Prelude.{ℕ, ◌↔◌, List, IsTrue};
ghost use Rattle.of10_model.specs.Normal.{IsNormal};
ghost use Rattle.flowspace.specs.declared.slices.Slice.{Slice as AnySlice};
ghost use Rattle.flowspace.specs.Slices.{slot_named};
ghost use Rattle.flowspace.specs.Policies.{SwitchView, AreNormal};
ghost use Rattle.flow_book.specs.declared.booked.Booked.{Booked as BookedPair};
ghost use Rattle.policy_change.specs.Plans.{plan_from, LeaveNoneOf, LeaveOthers};
ghost use Rattle.policy_change.specs.Planned.{stays, LiesInOneRule};

/// After all messages of a plan the table has no entry of a pair that it is for, and treats each header that is in the
/// match of none of them as before.
pub fn plan_takes_away_its_pairs_alone()
    ensures gone { (number : ℕ) (pairs : List BookedPair) → LeaveNoneOf pairs (plan_from number pairs) }
    ensures others { (number : ℕ) (pairs : List BookedPair) → LeaveOthers pairs (plan_from number pairs) }
{}

/// A pair stays exactly where each header of its match is in one rule that the slice of the same name writes.
pub fn pair_stays_in_one_rule()
    ensures { (policy : SwitchView) (s : AnySlice) (b : BookedPair) → AreNormal policy.rules → IsNormal b.pattern → IsTrue (stays policy.rules (slot_named policy.slices s.name) b) ↔ LiesInOneRule policy s b }
{}
