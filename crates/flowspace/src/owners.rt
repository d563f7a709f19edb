//! Who owns matches and ports.

ghost use Rattle.std.specs.Prelude.{◌≡◌, find, option_map};
ghost use Rattle.of10_model.specs.Pattern.{meets};
ghost use Rattle.flowspace.specs.Owners.{is_owned_by, owner_of_match, is_in_port};

use crate::rules::Rule;
use match_meet::includes;
use of10_match::Match;
use of10_port::protocol::{LOCAL, MAX};

fn is_owned_by(rule: &Rule, m: &Match) -> bool
    ensures { result ≡ is_owned_by m.now rule.now }
{
    rule.writer.is_some() && includes(&rule.pattern, m)
}

fn first_owning<'a>(rules: &'a [Rule], m: &Match) -> Option<&'a Rule>
    ensures { option_map (λ rule. rule.now) result ≡ find (is_owned_by m.now) rules.now }
{
    rules.iter().find(|rule| is_owned_by(rule, m))
}

/// The writer of the first rule that is written and has each header of the match.
pub(crate) fn owner_of(rules: &[Rule], m: &Match) -> Option<u8>
    ensures { result ≡ owner_of_match rules.now m.now }
{
    first_owning(rules, m)?.writer
}

/// Whether a packet can come in by the port: a physical one, or the switch's own (OpenFlow 1.0.0,
/// section 5.2.1).
pub fn is_in_port(port: u16) -> bool
    ensures { result ≡ is_in_port port }
{
    port <= MAX || port == LOCAL
}

/// Whether the rule has packets that come in by the port: its match leaves the port free or names it.
pub fn takes_from(rule: &Rule, port: u16) -> bool
    ensures { result ≡ meets rule.now.pattern.in_port port }
{
    let in_port = rule.pattern.pattern().in_port;
    in_port.is_none_or(|own| port == own)
}
