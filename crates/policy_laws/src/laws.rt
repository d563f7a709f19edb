//! Laws of the definitions. Each function's contract is the law; its body does nothing.

ghost use Rattle.std.specs.Prelude.{ℕ, ◌^◌, ◌<◌, ◌≤◌, nat_eq, true, List, [], map, ◌≡◌, ◌↔◌, Option, Some, None, Ok, Err};
ghost use Rattle.std.specs.List.{list_any};
ghost use Rattle.toml.specs.Data.{Items, Members, table};
ghost use Rattle.of10_model.specs.Normal.{bit};
ghost use Rattle.flowspace.specs.declared.rules.Rule.{Rule};
ghost use Rattle.flowspace.specs.declared.slices.Slice.{Slice};
ghost use Rattle.flowspace.specs.declared.swaps.Swap.{Swap};
ghost use Rattle.flowspace.specs.Policies.{PolicyView};
ghost use Rattle.policy_text.specs.declared.known_keys.Keys.{Keys};
ghost use Rattle.policy_text.specs.declared.known_keys.Keys.TheVariants as keys;
ghost use Rattle.policy_text.specs.declared.fault.ReadFault.{ReadFault};
ghost use Rattle.flowspace.specs.declared.fault.PolicyFault.TheVariants.{UnknownPortSlice, UnknownSlice};
ghost use Rattle.flowspace.specs.declared.fault.Field.TheVariants.{Read};
ghost use Rattle.policy_text.specs.declared.fault.ReadFault.TheVariants.{Improper, Refused, UnknownKey};
ghost use Rattle.policy_text.specs.Keys.{AreKnown, IsLeastUnknown};
ghost use Rattle.policy_laws.specs.Firsts.{AreReadAs, IsFirstRefused, StandsIn};
ghost use Rattle.policy_text.specs.Reading.{SectionView, key_place, known_keys};
ghost use Rattle.policy_laws.specs.Readers.{IsNamedSlot, NamesNoSlice, NamesSlices, NamesTwice, names_of_rule};
ghost use Rattle.policy_laws.specs.Ports.{IsSwapOf};
ghost use Rattle.policy_text.specs.Rules.{bits_below, RuleText, rule_from, rule_of, rules_from, slots_of};
ghost use Rattle.policy_text.specs.Documents.{policy_up_to};
ghost use Rattle.policy_text.specs.Ports.{PortText, swap_from, swap_of, swaps_from};
ghost use Rattle.flowspace.specs.Slices.{slot_named};
ghost use Rattle.policy_text.specs.Slices.{slice_of, slices_from};

/// Slices are read exactly where each item is one, in order; else the fault is that of the first item
/// that is none, read at its own index.
pub fn refused_slice_is_the_first()
    ensures read { (items : Items) (slices : List Slice) → (slices_from 0 items ≡ Ok slices) ↔ AreReadAs slice_of items slices }
    ensures refused { (items : Items) (fault : ReadFault) → (slices_from 0 items ≡ Err fault) ↔ IsFirstRefused slice_of items fault }
{}

/// Rules are read exactly where each item is one that names these slices, in order; else the fault is
/// that of the first item that is none, read at its own index.
pub fn refused_rule_is_the_first()
    ensures read { (slices : List Slice) (items : Items) (rules : List Rule) → (rules_from slices 0 items ≡ Ok rules) ↔ AreReadAs (rule_of slices) items rules }
    ensures refused { (slices : List Slice) (items : Items) (fault : ReadFault) → (rules_from slices 0 items ≡ Err fault) ↔ IsFirstRefused (rule_of slices) items fault }
{}

/// Swaps are read exactly where each item is one that names one of these slices, in order; else the fault
/// is that of the first item that is none, read at its own index.
pub fn refused_swap_is_the_first()
    ensures read { (slices : List Slice) (items : Items) (swaps : List Swap) → (swaps_from slices 0 items ≡ Ok swaps) ↔ AreReadAs (swap_of slices) items swaps }
    ensures refused { (slices : List Slice) (items : Items) (fault : ReadFault) → (swaps_from slices 0 items ≡ Err fault) ↔ IsFirstRefused (swap_of slices) items fault }
{}

/// A table whose keys are all known has no fault of a key; else the fault names the unknown key below
/// which there is no other.
pub fn named_key_is_the_least_unknown()
    ensures known { (kind : Keys) (this : SectionView) → (known_keys kind this ≡ Ok tt) ↔ AreKnown kind this.members }
    ensures unknown { (kind : Keys) (this : SectionView) (key : List ℕ) → (known_keys kind this ≡ Err (UnknownKey (key_place this key))) ↔ IsLeastUnknown kind this.members key }
{}

/// A fault that the table of a slice, a rule or a port has names this table, with its index, and a key. The
/// key is one that such a table needs and this one lacks, or the least that this one has and may not have. Or
/// the key is one that such a table may have and whose value here is of another form than such a table has
/// there. A fault of a rule may have the rule's number instead: with a field whose key is in the table, or
/// for a slice where the table has `write` or `read`. A fault of a port table may have the number of the port
/// table instead, for a slice where the table has `slice`.
pub fn fault_stands_in_its_table()
    ensures slice { (index : ℕ) (members : Members) (fault : ReadFault) → slice_of index (table members) ≡ Err fault → StandsIn keys.Slice index members fault }
    ensures rule { (slices : List Slice) (index : ℕ) (members : Members) (fault : ReadFault) → rule_of slices index (table members) ≡ Err fault → StandsIn keys.Rule index members fault }
    ensures port { (slices : List Slice) (index : ℕ) (members : Members) (fault : ReadFault) → swap_of slices index (table members) ≡ Err fault → StandsIn keys.Port index members fault }
{}

/// The readers of a rule are the slots that its names say, below 32. Of the bits of a list of slots bit k is
/// set exactly where k is among the slots, and no bit from 32 on. Of a rule that is read bit k is set exactly
/// where some name under `read` is that of the slice at slot k.
pub fn readers_are_the_named_slots()
    ensures bits { (slots : List ℕ) (k : ℕ) → k < 32 → bit (bits_below 32 slots) k ≡ list_any (nat_eq k) slots }
    ensures limit { (slots : List ℕ) → bits_below 32 slots < 2 ^ 32 }
    ensures rule { (slices : List Slice) (index : ℕ) (said : RuleText) (rule : Rule) (k : ℕ) → rule_from slices index said ≡ Ok rule → k < 32 → (bit rule.readers k ≡ true) ↔ IsNamedSlot slices said.read k }
{}

/// The slots of names are those of the slices with these names, in order. A rule is refused for a name that
/// no slice has exactly where there is one under its `write` or `read`. It is refused for an improper `read`
/// exactly where all its names are slices' and two under `read` are of one slot.
pub fn names_are_of_slices()
    ensures slots { (slices : List Slice) (index : ℕ) (names : List (List ℕ)) (slots : List ℕ) → (slots_of slices index names ≡ Ok slots) ↔ (map (slot_named slices) names ≡ map Some slots) }
    ensures missing { (slices : List Slice) (index : ℕ) (said : RuleText) → (rule_from slices index said ≡ Err (Refused (UnknownSlice index))) ↔ NamesNoSlice slices (names_of_rule said) }
    ensures repeated { (slices : List Slice) (index : ℕ) (said : RuleText) → (rule_from slices index said ≡ Err (Improper index Read)) ↔ (NamesSlices slices (names_of_rule said) × NamesTwice slices said.read) }
{}

/// A port table is read as a swap exactly where its name is a slice's; else it is refused for a name that no
/// slice has.
pub fn port_table_names_a_slice()
    ensures read { (slices : List Slice) (index : ℕ) (said : PortText) (swap : Swap) → (swap_from slices index said ≡ Ok swap) ↔ IsSwapOf slices said swap }
    ensures missing { (slices : List Slice) (index : ℕ) (said : PortText) (fault : ReadFault) → (swap_from slices index said ≡ Err fault) ↔ ((slot_named slices said.slice ≡ None) × (fault ≡ Refused (UnknownPortSlice index))) }
{}

/// What a text of version 1 says has no swaps.
pub fn version_one_has_no_swaps()
    ensures { (document : Option Members) (policy : PolicyView) → policy_up_to 1 document ≡ Ok policy → policy.swaps ≡ [] }
{}

/// A text that is accepted up to a version is accepted, as the same policy, up to each higher one.
pub fn higher_versions_change_no_policy()
    ensures { (lower higher : ℕ) (document : Option Members) (policy : PolicyView) → lower ≤ higher → policy_up_to lower document ≡ Ok policy → policy_up_to higher document ≡ Ok policy }
{}
