//! Laws of the definitions. Each function's contract is the law; its body does nothing.

ghost use Rattle.std.specs.Prelude.{ℕ, List, ◌≡◌, length};
ghost use Rattle.flowspace.specs.declared.rules.Rule.{Rule};
ghost use Rattle.flowspace.specs.Order.{in_order, IsAccepted};
ghost use Rattle.flowspace.specs.Policies.{PolicyView, IsPolicy};
ghost use Rattle.nested_slices.specs.Flat.{DivisionView, flat_rules, flat};
ghost use Rattle.nested_slices.specs.Counting.{flat_count};
ghost use Rattle.nested_slices.specs.Space.{IsDivisible, WritesWhatBothWrite, OthersWriteAsBefore, HasPiecesOfBoth, GoesOnToWriters, GoesOnToReaders};

/// The flat rules stand in rule order.
pub fn flat_rules_stand_in_order()
    ensures { (d : DivisionView) (rules : List Rule) → in_order (flat_rules d rules) ≡ flat_rules d rules }
{}

/// They are accepted: none takes headers of an earlier one for another slice.
pub fn flat_rules_are_accepted()
    ensures { (outer : PolicyView) (slot : ℕ) (inner : PolicyView) → IsDivisible outer slot inner → IsAccepted (flat outer slot inner).rules }
{}

/// On every switch an inner slice writes what the holder writes by the outer policy and it writes itself by
/// the inner one.
pub fn inner_slices_write_what_both_write()
    ensures { (outer : PolicyView) (slot : ℕ) (inner : PolicyView) → IsDivisible outer slot inner → IsPolicy (flat outer slot inner).slices (flat outer slot inner).rules → WritesWhatBothWrite outer slot inner (flat outer slot inner) }
{}

/// Every other slice of the outer policy writes what it wrote.
pub fn other_slices_write_as_before()
    ensures { (outer : PolicyView) (slot : ℕ) (inner : PolicyView) → IsDivisible outer slot inner → IsPolicy (flat outer slot inner).slices (flat outer slot inner).rules → OthersWriteAsBefore outer slot inner (flat outer slot inner) }
{}

/// So of every match an inner slice has the headers that lie in a piece for the holder and in a piece for that
/// slice by the inner policy.
pub fn inner_pieces_are_of_both()
    ensures { (outer : PolicyView) (slot : ℕ) (inner : PolicyView) → IsDivisible outer slot inner → HasPiecesOfBoth outer slot inner (flat outer slot inner) }
{}

/// A header that no inner rule has on a switch goes on to the outer rules there that the holder doesn't write.
pub fn other_headers_go_on()
    ensures writers { (outer : PolicyView) (slot : ℕ) (inner : PolicyView) → GoesOnToWriters outer slot inner (flat outer slot inner) }
    ensures readers { (outer : PolicyView) (slot : ℕ) (inner : PolicyView) → GoesOnToReaders outer slot inner (flat outer slot inner) }
{}

/// How many flat rules there are is counted without one being made.
pub fn flat_rules_are_counted()
    ensures { (d : DivisionView) (rules : List Rule) → length (flat_rules d rules) ≡ flat_count d.slot d.rules rules }
{}
