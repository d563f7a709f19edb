//! Laws of the definitions. Each function's contract is the law; its body does nothing.

ghost use Rattle.std.specs.Prelude.{ℕ, ◌≡◌, ◌↔◌, List, [], ◌∷◌, Ok, Err};
ghost use Rattle.of10_action.specs.declared.action.Action.{Action};
ghost use Rattle.flowspace.specs.declared.slices.Slice.{Slice};
ghost use Rattle.flowspace.specs.Policies.{IsSwitchPolicy};
ghost use Rattle.action_check.specs.declared.fault.TheConstants.{BAD_OUT_PORT, BAD_ARGUMENT, NOT_PERMITTED};
ghost use Rattle.action_check.specs.Permitted.{expanded};
ghost use Rattle.action_check.specs.Refusals.{AreAllowed, IsFirstForbidden};
ghost use Rattle.action_check.specs.Soundness.{IsSound};
ghost use Rattle.action_check.specs.Laws.{WantedActions, AreWantedInRange, answer_to_wanted};

/// Whatever list is permitted sends only to ports of the slice and to where else it may, and only packets
/// that the slice may write. Each packet that the list sends is, as the actions before rewrite the packet,
/// one that the slice may write by some port of entry. A packet that is sent to the controller or through the
/// table is one that the slice may write by the packet's own port of entry. Probes are excepted.
pub fn permitted_lists_are_sound()
    ensures { (slices : List Slice) (wanted : WantedActions) → IsSwitchPolicy slices wanted.rules → AreWantedInRange wanted → (given : List Action) → answer_to_wanted wanted ≡ Ok given → IsSound wanted.rules wanted.slot wanted.origin given }
{}

/// A list is given exactly where no action of it is forbidden, each as those before it rewrite what it is
/// applied to.
pub fn list_is_given_where_all_are_allowed()
    ensures { (wanted : WantedActions) → (answer_to_wanted wanted ≡ Ok (expanded wanted.flood wanted.all wanted.actions)) ↔ AreAllowed wanted.rules wanted.slot wanted.origin wanted.actions }
{}

/// The codes by which actions are refused have their numbers (OpenFlow 1.0.0, section 5.4.4).
pub fn codes_are_numbered()
    ensures { BAD_OUT_PORT ∷ BAD_ARGUMENT ∷ NOT_PERMITTED ∷ [] ≡ 4 ∷ 5 ∷ 6 ∷ [] }
{}

/// A list is refused exactly with the code of the first action that is forbidden.
pub fn code_is_of_the_first_forbidden()
    ensures { (wanted : WantedActions) (code : ℕ) → (answer_to_wanted wanted ≡ Err code) ↔ IsFirstForbidden wanted.rules wanted.slot wanted.origin wanted.actions code }
{}
