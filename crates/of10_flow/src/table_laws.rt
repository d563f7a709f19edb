//! Laws of flow tables. Each function's contract is the law; its body does nothing.

ghost use Rattle.std.specs.Prelude.{List, [], ◌≡◌, ◌↔◌, ◌⊎◌, false, IsTrue, All, Contains};
ghost use Rattle.std.specs.List.{list_any};
ghost use Rattle.of10_model.specs.declared.pattern.Pattern.{Pattern};
ghost use Rattle.of10_model.specs.Header.{Header};
ghost use Rattle.of10_model.specs.Pattern.{Has};
ghost use Rattle.of10_model.specs.Normal.{IsNormal};
ghost use Rattle.of10_model.specs.Inclusion.{Includes};
ghost use Rattle.of10_action.specs.declared.action.Action.{Action};
ghost use Rattle.of10_flow.specs.declared.flow_mod.FlowMod.{FlowMod};
ghost use Rattle.of10_flow.specs.declared.protocol.TheConstants.{ADD, MODIFY, MODIFY_STRICT};
ghost use Rattle.of10_flow.specs.declared.flow_entry.FlowEntry.{FlowEntry as Entry};
ghost use Rattle.of10_flow.specs.Tables.{names_entry, describes, overlaps, touches, having, Apply, ApplyAll, Treatment};
ghost use Rattle.of10_flow.specs.TableLaws.{SharesHeader, HasEachPairOnce, HaveSameLists, MayBeChosen, Cleans, IsSplit, IsSplitTable, TouchAlike, FollowsByPieces};

/// A flow-mod names the entries of its match and priority, describes those of which its match has all headers,
/// and those overlap it that have its priority and share a header with it.
pub fn tests_are_of_headers()
    ensures named { (m : FlowMod) (e : Entry) → IsTrue (names_entry m e) ↔ ((e.pattern ≡ m.pattern) × (e.priority ≡ m.priority)) }
    ensures described { (m : FlowMod) (e : Entry) → IsNormal m.pattern → IsNormal e.pattern → IsTrue (describes m e) ↔ Includes m.pattern e.pattern }
    ensures overlapping { (m : FlowMod) (e : Entry) → IsNormal m.pattern → IsNormal e.pattern → IsTrue (overlaps m e) ↔ ((e.priority ≡ m.priority) × SharesHeader e.pattern m.pattern) }
{}

/// The treatment of a header has the action lists of those entries that have it and are no lower than any
/// other that has it: the all-exact ones, and where there is none those of the highest priority.
pub fn treatment_is_of_the_entries_that_may_be_chosen()
    ensures { (table : List Entry) (h : Header) (actions : List Action) → Contains (Treatment table h) actions ↔ ((e : Entry) × MayBeChosen table h e × (e.actions ≡ actions)) }
{}

/// A modification that touches no entry acts as an ADD without flags.
pub fn modification_of_nothing_adds()
    ensures { (table : List Entry) (m : FlowMod) → IsNormal m.pattern → (m.command ≡ MODIFY) ⊎ (m.command ≡ MODIFY_STRICT) → list_any (touches m) table ≡ false → Apply table m ≡ Apply table (record m { command = ADD; flags = 0 }) }
{}

/// A table that has each match and priority at most once still has after flow-mods of normal matches.
pub fn each_pair_stays_once()
    ensures empty { HasEachPairOnce [] }
    ensures after { (ms : List FlowMod) (table : List Entry) → All (λ m. IsNormal m.pattern) ms → HasEachPairOnce table → HasEachPairOnce (ApplyAll table ms) }
{}

/// A flow-mod leaves every table treating each header that isn't in its match as before. So where its match
/// lies in a set of headers, it changes nothing for the headers outside that set.
pub fn header_outside_the_match_is_treated_as_before()
    ensures entries { (table : List Entry) (m : FlowMod) (h : Header) → (Has m.pattern h → ⊥) → having h (Apply table m) ≡ having h table }
    ensures treatment { (table : List Entry) (m : FlowMod) (h : Header) → (Has m.pattern h → ⊥) → Treatment (Apply table m) h ≡ Treatment table h }
    ensures in_turn { (ms : List FlowMod) (table : List Entry) (h : Header) → All (λ m. Has m.pattern h → ⊥) ms → Treatment (ApplyAll table ms) h ≡ Treatment table h }
{}

/// Strict deletes that ask for no port leave no entry of the match and priority of any of them.
pub fn strict_deletes_leave_none_of_theirs()
    ensures { (ms : List FlowMod) → All Cleans ms → (table : List Entry) → All (λ m. All (λ e. e.pattern ≡ m.pattern → e.priority ≡ m.priority → ⊥) (ApplyAll table ms)) ms }
{}

/// A table whose entries are the pieces of another one's has the same action lists for a header, repeats
/// disregarded.
pub fn pieces_are_treated_as_the_whole()
    ensures { (whole : List Entry) (pieces : Entry → List Pattern) (split : List Entry) (h : Header) → IsSplit whole pieces split h → HaveSameLists whole split h }
{}

/// Where the entries of a table are the pieces of another one's, they still are after a flow-mod of that one
/// and the flow-mods that follow it on the pieces.
pub fn pieces_stay_pieces()
    ensures { (pieces : Pattern → List Pattern) (whole split : List Entry) → IsSplitTable pieces whole split → (m : FlowMod) (ms : List FlowMod) → TouchAlike pieces whole m ms → FollowsByPieces pieces whole split m ms → IsSplitTable pieces (Apply whole m) (ApplyAll split ms) }
{}
