//! Whether a rule may stand behind another one.

ghost use Rattle.std.specs.Prelude.{◌≡◌};
ghost use Rattle.flowspace.specs.Rules.{have_switch, is_usurped, is_refused};

use crate::rules::Rule;
use match_meet::disjoint;

fn is_usurped(earlier: Option<u8>, later: Option<u8>) -> bool
    ensures { result ≡ is_usurped earlier later }
{
    later.is_some_and(|slot| earlier.is_none_or(|writer| writer != slot))
}

/// Whether what holds on the one switch and what holds on the other hold on a common one; none named is each.
pub fn have_switch(a: Option<u64>, b: Option<u64>) -> bool
    ensures { result ≡ have_switch a b }
{
    a.is_none_or(|switch| b.is_none_or(|other| other == switch))
}

/// Whether the later rule takes headers of the earlier one for another slice.
#[tactic(auto, unfolding(crate::specs::Rules::is_refused))]
pub(crate) fn is_refused(earlier: &Rule, later: &Rule) -> bool
    ensures { result ≡ is_refused earlier.now later.now }
{
    is_usurped(earlier.writer, later.writer)
        && have_switch(earlier.switch, later.switch)
        && !disjoint(&earlier.pattern, &later.pattern)
}
