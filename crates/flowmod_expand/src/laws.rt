//! Laws of the definitions. Each function's contract is the law; its body does nothing.

ghost use Rattle.std.specs.Prelude.{ℕ, List, ◌≡◌, ◌≢◌, ◌≤◌, ◌↔◌, false, length, count_by, All, Any, AllPairs, Option, Ok};
ghost use Rattle.of10_model.specs.declared.pattern.Pattern.{Pattern};
ghost use Rattle.of10_model.specs.Header.{Header, IsHeader};
ghost use Rattle.of10_model.specs.Pattern.{Has};
ghost use Rattle.of10_model.specs.Normal.{IsNormal};
ghost use Rattle.of10_model.specs.Inclusion.{Includes};
ghost use Rattle.flowspace.specs.declared.slices.Slice.{Slice};
ghost use Rattle.flowspace.specs.declared.rules.Rule.{Rule};
ghost use Rattle.flowspace.specs.Rules.{is_written_by};
ghost use Rattle.flowspace.specs.Policies.{IsSwitchPolicy, AreNormal};
ghost use Rattle.flowspace.specs.Owners.{Writes, HasWriteRule, Owns};
ghost use Rattle.of10_ctl.specs.declared.kind.TheConstants.{FLOW_MOD};
ghost use Rattle.of10_ctl.specs.Kinds.{IsOf};
ghost use Rattle.of10_action.specs.declared.action.Action.{Action};
ghost use Rattle.of10_flow.specs.declared.flow_entry.FlowEntry.{FlowEntry as Entry};
ghost use Rattle.of10_flow.specs.declared.flow_mod.FlowMod.{FlowMod};
ghost use Rattle.of10_flow.specs.FlowMods.{spell_flow_mod, read_flow_mod};
ghost use Rattle.of10_flow.specs.Tables.{ApplyAll, Treatment};
ghost use Rattle.of10_flow.specs.TableLaws.{LeavesTreatment};
ghost use Rattle.flowmod_expand.specs.Pieces.{pieces_within, pieces_of};
ghost use Rattle.flowmod_expand.specs.Messages.{piece_messages, are_too_large};
ghost use Rattle.flowmod_expand.specs.Laws.{Order, IsPaired, IsOrderInRange, messages_of, MessagePlace, flow_mod_at};

/// The pieces of a match have together the headers of the match that the slice's rules let it write; so
/// under a policy of the switch they have those that the slice writes.
pub fn pieces_have_what_the_slice_writes()
    ensures rules { (rules : List Rule) (slot : ℕ) (m : Pattern) (h : Header) → Any (λ piece. Has piece h) (pieces_of rules slot m) ↔ (Has m h × HasWriteRule rules slot h) }
    ensures policy { (slices : List Slice) (rules : List Rule) → IsSwitchPolicy slices rules → (slot : ℕ) (m : Pattern) (h : Header) → IsHeader h → Any (λ piece. Has piece h) (pieces_of rules slot m) ↔ (Has m h × Writes rules slot h) }
{}

/// Each piece lies in one rule that the slice writes, and in the match.
pub fn piece_lies_in_one_rule()
    ensures rule { (rules : List Rule) (slot : ℕ) (m : Pattern) → All (Owns rules slot) (pieces_of rules slot m) }
    ensures whole { (rules : List Rule) (slot : ℕ) (m : Pattern) → All (Includes m) (pieces_of rules slot m) }
{}

/// No two pieces are one, and there are no more of them than rules that the slice writes.
pub fn pieces_are_distinct()
    ensures distinct { (rules : List Rule) (slot : ℕ) (m : Pattern) → AllPairs (λ a b. a ≢ b) (pieces_of rules slot m) }
    ensures few { (rules : List Rule) (slot : ℕ) (m : Pattern) → length (pieces_of rules slot m) ≤ count_by (is_written_by slot) rules }
{}

/// Of normal matches the pieces are normal, and each has a header.
pub fn piece_is_normal()
    ensures normal { (rules : List Rule) (slot : ℕ) (m : Pattern) → AreNormal rules → IsNormal m → All IsNormal (pieces_of rules slot m) }
    ensures header { (rules : List Rule) (slot : ℕ) (m : Pattern) → AreNormal rules → IsNormal m → All (λ piece. (h : Header) × IsHeader h × Has piece h) (pieces_of rules slot m) }
{}

/// There is one message for each piece, and it is that of the piece, the actions and the buffer at its
/// place.
pub fn each_piece_has_its_message()
    ensures count { (o : Order) → IsPaired o → length (messages_of o) ≡ length o.pieces }
    ensures message { (o : Order) → IsPaired o → (at : MessagePlace o) → at.message ≡ spell_flow_mod (flow_mod_at o at) }
{}

/// The message of a piece, where they aren't too large, is a flow-mod and is read as that of the piece.
pub fn message_is_read_again()
    ensures kind { (o : Order) → IsPaired o → IsOrderInRange o → are_too_large (messages_of o) ≡ false → (at : MessagePlace o) → IsOf FLOW_MOD at.message }
    ensures again { (o : Order) → IsPaired o → IsOrderInRange o → are_too_large (messages_of o) ≡ false → (at : MessagePlace o) → read_flow_mod at.message ≡ Ok (flow_mod_at o at) }
{}

/// Each message of a flow-mod leaves every flow table treating as before each header that none of the given
/// matches has. So a message that is sent for a slice leaves each header that none of the slice's write rules
/// has, and under a policy each that the slice doesn't write.
pub fn message_changes_only_what_its_slice_writes()
    ensures matches { (given : List Pattern) (h : Header) → (Any (λ w. Has w h) given → ⊥) → (m : FlowMod) (xid : ℕ) (lists : List (List Action)) (buffer : Option (ℕ × ℕ))
        → All (λ sent. LeavesTreatment sent h) (piece_messages 0 m xid (pieces_within given m.pattern) lists buffer) }
    ensures rules { (rules : List Rule) (slot : ℕ) (h : Header) → (HasWriteRule rules slot h → ⊥) → (m : FlowMod) (xid : ℕ) (lists : List (List Action)) (buffer : Option (ℕ × ℕ))
        → All (λ sent. LeavesTreatment sent h) (piece_messages 0 m xid (pieces_of rules slot m.pattern) lists buffer) }
    ensures policy { (slices : List Slice) (rules : List Rule) → IsSwitchPolicy slices rules → (slot : ℕ) (h : Header) → IsHeader h → (Writes rules slot h → ⊥) → (m : FlowMod) (xid : ℕ) (lists : List (List Action)) (buffer : Option (ℕ × ℕ))
        → All (λ sent. LeavesTreatment sent h) (piece_messages 0 m xid (pieces_of rules slot m.pattern) lists buffer) }
{}

/// So do all messages of a flow-mod together, in their order.
pub fn flow_mod_changes_only_what_its_slice_writes()
    ensures matches { (given : List Pattern) (h : Header) → (Any (λ w. Has w h) given → ⊥) → (m : FlowMod) (xid : ℕ) (lists : List (List Action)) (buffer : Option (ℕ × ℕ)) (table : List Entry)
        → Treatment (ApplyAll table (piece_messages 0 m xid (pieces_within given m.pattern) lists buffer)) h ≡ Treatment table h }
    ensures rules { (rules : List Rule) (slot : ℕ) (h : Header) → (HasWriteRule rules slot h → ⊥) → (m : FlowMod) (xid : ℕ) (lists : List (List Action)) (buffer : Option (ℕ × ℕ)) (table : List Entry)
        → Treatment (ApplyAll table (piece_messages 0 m xid (pieces_of rules slot m.pattern) lists buffer)) h ≡ Treatment table h }
    ensures policy { (slices : List Slice) (rules : List Rule) → IsSwitchPolicy slices rules → (slot : ℕ) (h : Header) → IsHeader h → (Writes rules slot h → ⊥) → (m : FlowMod) (xid : ℕ) (lists : List (List Action)) (buffer : Option (ℕ × ℕ)) (table : List Entry)
        → Treatment (ApplyAll table (piece_messages 0 m xid (pieces_of rules slot m.pattern) lists buffer)) h ≡ Treatment table h }
{}
