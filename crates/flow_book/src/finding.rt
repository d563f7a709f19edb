//! Where a pair stands among the entries of a book.

ghost use Rattle.std.specs.Prelude.{◌≡◌, ◌≤◌, false, length, IfOk, IfErr};
ghost use Rattle.std.specs.List.{AllWithin};
ghost use Rattle.std.specs.declared.cmp.Ordering.TheVariants.{Less};
ghost use Rattle.std.specs.Ordering.{nat_cmp, ordering_then, is_lt};
ghost use Rattle.std.specs.Cmp.Lexicographic.{slice_cmp};
ghost use Rattle.of10_model.specs.declared.pattern.Pattern.{Pattern};
ghost use Rattle.of10_model.specs.Normal.{IsNormal, Norm};
ghost use Rattle.of10_model.specs.Spelling.{Spell};
ghost use Rattle.flow_book.specs.Order.{ArePairsInOrder, IsPairAt, IsGapFor};

use crate::entries::Entries;
use crate::entry::Entry;
use of10_match::Match;

/// How many entries stand below the pair whose match is spelled so.
pub(crate) fn place_from(entries: &Entries, priority: u16, spelled: &[u8; 40]) -> usize
    requires { ArePairsInOrder entries.now.booked }
    ensures bound { result ≤ length entries.now.booked }
    ensures below { AllWithin (λ b. ordering_then (nat_cmp b.priority priority) (slice_cmp nat_cmp (Spell b.pattern) spelled.now) ≡ Less) entries.now.booked 0 result }
    ensures rest { AllWithin (λ b. is_lt (ordering_then (nat_cmp b.priority priority) (slice_cmp nat_cmp (Spell b.pattern) spelled.now)) ≡ false) entries.now.booked result (length entries.now.booked) }
{
    let mut from = 0;
    let mut to = entries.len();
    while from < to {
        let middle = from + (to - from) / 2;
        if entries.at(middle).stands_to(priority, spelled).is_lt() {
            from = middle + 1;
        } else {
            to = middle;
        }
    }
    from
}

/// The place of the pair whose match is spelled so, or where it would go.
fn search(entries: &Entries, spelled: &[u8; 40], priority: u16) -> Result<usize, usize>
    requires { ArePairsInOrder entries.now.booked }
    ensures found { (pattern : Pattern) → spelled.now ≡ Spell pattern → IfOk result (IsPairAt entries.now.booked pattern priority) }
    ensures absent { (pattern : Pattern) → spelled.now ≡ Spell pattern → IfErr result (IsGapFor entries.now.booked pattern priority) }
    ensures normal { IsNormal (Norm spelled.now) }
{
    let place = place_from(entries, priority, spelled);
    if place == entries.len() {
        return Err(place);
    }
    if entries.at(place).stands_to(priority, spelled).is_eq() {
        Ok(place)
    } else {
        Err(place)
    }
}

/// The place of the pair, or where it would go.
pub(crate) fn place_of(entries: &Entries, pattern: &Match, priority: u16) -> Result<usize, usize>
    requires { ArePairsInOrder entries.now.booked }
    ensures found { IfOk result (IsPairAt entries.now.booked pattern.now priority) }
    ensures absent { IfErr result (IsGapFor entries.now.booked pattern.now priority) }
    ensures normal { IsNormal pattern.now }
{
    search(entries, &pattern.encode(), priority)
}

/// The place of the entry's pair, or where it would go.
pub(crate) fn place_for(entries: &Entries, entry: &Entry) -> Result<usize, usize>
    requires { ArePairsInOrder entries.now.booked }
    ensures found { IfOk result (IsPairAt entries.now.booked entry.now.pattern entry.now.priority) }
    ensures absent { IfErr result (IsGapFor entries.now.booked entry.now.pattern entry.now.priority) }
    ensures normal { IsNormal entry.now.pattern }
{
    search(entries, entry.spelled(), entry.booked().priority)
}
