//! Laws of the definitions. Each function's contract is the law; its body does nothing.

ghost use Rattle.std.specs.Prelude.{ℕ, List, [], ◌≡◌, ◌≤◌, ◌↔◌, ◌⊎◌, length, All, Some, Ok, Err};
ghost use Rattle.of10_model.specs.declared.pattern.Pattern.{Pattern};
ghost use Rattle.of10_model.specs.Header.{Header, IsHeader};
ghost use Rattle.of10_model.specs.Normal.{IsNormal};
ghost use Rattle.flowspace.specs.declared.fault.PolicyFault.{PolicyFault};
ghost use Rattle.flowspace.specs.declared.fault.PolicyFault.TheVariants.{Overlap};
ghost use Rattle.flowspace.specs.declared.slices.Slice.{Slice};
ghost use Rattle.flowspace.specs.declared.rules.Rule.{Rule};
ghost use Rattle.flowspace.specs.declared.swaps.Swap.{Swap};
ghost use Rattle.flowspace.specs.Swaps.{AreSwaps, IsFirstSwapFault, IsPlainSwap, pairs_of, swapped, swaps_on};
ghost use Rattle.flowspace.specs.Slices.{IsPlainSlice};
ghost use Rattle.flowspace.specs.Rules.{IsPlainRule};
ghost use Rattle.flowspace.specs.Order.{rules_on};
ghost use Rattle.flowspace.specs.Policies.{IsPolicy, IsSwitchPolicy, AreNormal, IsFirstOverlap};
ghost use Rattle.flowspace.specs.Faults.{IsFirstPolicyFault};
ghost use Rattle.flowspace.specs.Loading.{load_of, load_ports_of};
ghost use Rattle.flowspace.specs.Owners.{Writes, HasWriteRule, owner_of_match, IsOwner, Owns};

/// Plain slices and rules are loaded, and as they are, exactly where they are within their limits, name
/// their slices and are accepted.
pub fn what_is_accepted_is_loaded()
    ensures { (slices : List Slice) (rules : List Rule) → 1 ≤ length slices → All IsPlainSlice slices → All IsPlainRule rules → AreNormal rules → (load_of slices rules ≡ Ok (record { slices = slices; rules = rules; swaps = [] })) ↔ IsPolicy slices rules }
{}

/// What is refused is refused for its first fault. The order is: too many slices, too many rules, and the
/// first slice that has the name of an earlier one. Then follow the first rule in the file that names no
/// slice or whose writer reads, the rules of the first slot that writes too many, and an overlap.
pub fn what_is_refused_has_a_first_fault()
    ensures { (slices : List Slice) (rules : List Rule) (fault : PolicyFault) → AreNormal rules → load_of slices rules ≡ Err fault → IsFirstPolicyFault slices rules fault }
{}

/// An overlap names two rules of which the first comes before the second, that share a header on a
/// switch, and of which the second is written by a slice that doesn't write the first. Of all such pairs
/// it is the one whose second rule comes first, and then the one whose first rule does.
pub fn overlap_is_the_first()
    ensures { (slices : List Slice) (rules : List Rule) (i j : ℕ) → AreNormal rules → load_of slices rules ≡ Err (Overlap i j) → IsFirstOverlap rules i j }
{}

/// What a slice may write on a switch is what its rules there have, together.
pub fn slice_writes_the_union_of_its_rules()
    ensures one_switch { (slices : List Slice) (rules : List Rule) → IsSwitchPolicy slices rules → (slot : ℕ) (h : Header) → IsHeader h → Writes rules slot h ↔ HasWriteRule rules slot h }
    ensures each_switch { (slices : List Slice) (rules : List Rule) → IsPolicy slices rules → (datapath slot : ℕ) (h : Header) → IsHeader h → Writes (rules_on datapath rules) slot h ↔ HasWriteRule (rules_on datapath rules) slot h }
{}

/// A match has an owner exactly where some slice has a rule to write all its headers, and every slice that
/// has one is its owner.
pub fn match_has_one_owner()
    ensures tested { (slices : List Slice) (rules : List Rule) → IsSwitchPolicy slices rules → (slot : ℕ) (m : Pattern) → IsNormal m → (owner_of_match rules m ≡ Some slot) ↔ IsOwner rules slot m }
    ensures headers { (slices : List Slice) (rules : List Rule) → IsSwitchPolicy slices rules → AreNormal rules → (slot : ℕ) (m : Pattern) → IsNormal m → (owner_of_match rules m ≡ Some slot) ↔ Owns rules slot m }
{}

/// Plain slices, rules and swaps are loaded, and as they are, exactly where slices and rules make a policy
/// and the swaps suit it. Swaps suit a policy where they are within their limit and of slices that are there,
/// and no number of a slice is named twice on a switch.
pub fn what_is_accepted_with_swaps_is_loaded()
    ensures { (slices : List Slice) (rules : List Rule) (swaps : List Swap) → 1 ≤ length slices → All IsPlainSlice slices → All IsPlainRule rules → AreNormal rules → All IsPlainSwap swaps → (load_ports_of slices rules swaps ≡ Ok (record { slices = slices; rules = rules; swaps = swaps })) ↔ (IsPolicy slices rules × AreSwaps (length slices) swaps) }
{}

/// What is refused with swaps is refused for the first fault of its slices and rules. Where these are loaded
/// without the swaps, it is refused for the first fault of the swaps. That is the first swap in the file that
/// is of no slice, else too many swaps, else the first swap that names a number which an earlier swap of its
/// slice names on a common switch.
pub fn what_is_refused_with_swaps_has_a_first_fault()
    ensures { (slices : List Slice) (rules : List Rule) (swaps : List Swap) (fault : PolicyFault) → AreNormal rules → load_ports_of slices rules swaps ≡ Err fault → IsFirstPolicyFault slices rules fault ⊎ ((load_of slices rules ≡ Ok (record { slices = slices; rules = rules; swaps = [] })) × IsFirstSwapFault (length slices) swaps fault) }
{}

/// What a slice's swaps on a switch exchange they exchange back.
pub fn numbers_are_exchanged_back()
    ensures { (slots : ℕ) (swaps : List Swap) → AreSwaps slots swaps → (datapath slot port : ℕ) → swapped (pairs_of (swaps_on datapath swaps) slot) (swapped (pairs_of (swaps_on datapath swaps) slot) port) ≡ port }
{}
