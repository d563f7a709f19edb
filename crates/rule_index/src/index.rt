//! The first rule of a header and the owner of a match, looked up.

ghost use Rattle.std.specs.Prelude.{◌≡◌, ◌+◌, ◌<◌, ◌≤◌, length, slice_get, take, slice_index_or, option_and_then, List, IfOk, OnOk};
ghost use Rattle.flowspace.specs.Order.{first_of};
ghost use Rattle.flowspace.specs.Owners.{owner_of_match};
ghost use Rattle.flowspace.specs.declared.rules.Rule.{Rule as RuleView};
ghost use Rattle.rule_index.specs.Indexes.{IsIndex};

use flowspace::{Rule, SwitchPolicy};
use of10_match::{Header12, Match};
use pattern_index::PatternIndex;
use std::alloc::{AllocError, Global};
use std::marker::Model;

/// The rules of a switch in rule order, for look-ups.
#[derive(Drop)]
pub struct RuleIndex {
    rules: Vec<Rule>,
    all: PatternIndex,
    /// Of the rules that a slice writes.
    written: PatternIndex,
}

impl Model for RuleIndex {
    ghost use Rattle.std.specs.Prelude.{List};
    ghost use Rattle.flowspace.specs.declared.rules.Rule.{Rule};
    ghost use Rattle.rule_index.specs.Indexes.{IsIndex};

    ghost Value = { List Rule };

    ghost view = { λ index. index.rules.items };

    ghost invariant = { λ index. IsIndex index.rules.items index.all index.written };
}

/// Puts a rule behind those that were put before.
fn put_rule(
    alloc: Global,
    all: &mut PatternIndex,
    written: &mut PatternIndex,
    rule: &Rule,
    place: u16,
) -> Result<(), AllocError>
    ensures { OnOk result ((rules : List RuleView) → place < length rules → slice_index_or rules place rule.now ≡ rule.now → IsIndex (take place rules) all.old written.old → IsIndex (take (place + 1) rules) all.new written.new) }
{
    let m = rule.pattern.pattern();
    all.put(alloc, m, place)?;
    if rule.writer.is_some() {
        written.put(alloc, m, place)?;
    }
    Ok(())
}

fn writer_at(rules: &[Rule], place: u16) -> Option<u8>
    ensures { result ≡ option_and_then (λ rule. rule.writer) (slice_get rules.now place) }
{
    match rules.get(usize::from(place)) {
        Some(rule) => rule.writer,
        None => None,
    }
}

/// The index of all rules, and that of those that a slice writes.
fn indexes_of(alloc: Global, rules: &[Rule]) -> Result<(PatternIndex, PatternIndex), AllocError>
    requires { length rules.now ≤ 2048 }
    ensures { IfOk result (λ both. IsIndex rules.now both.0 both.1) }
{
    let mut all = PatternIndex::new(alloc);
    let mut written = PatternIndex::new(alloc);
    for (place, rule) in rules.iter().enumerate() {
        put_rule(alloc, &mut all, &mut written, rule, place as u16)?;
    }
    Ok((all, written))
}

impl RuleIndex {
    /// The index of a switch's rules.
    pub fn build(alloc: Global, policy: &SwitchPolicy) -> Result<RuleIndex, AllocError>
        ensures { IfOk result (λ index. index ≡ policy.now.rules) }
    {
        let rules = Vec::from_slice(alloc, policy.rules())?;
        let (all, written) = indexes_of(alloc, &rules)?;
        Ok(RuleIndex {
            rules,
            all,
            written,
        })
    }

    /// The place in rule order of the first rule whose match has the header.
    pub fn first(&self, h: &Header12) -> Option<u16>
        ensures { result ≡ first_of self.now h.now }
    {
        self.all.least_of_header(h)
    }

    /// The slot of the slice that has a rule to write each header of the match; `None` where no slice
    /// has one.
    pub fn owner_of(&self, m: &Match) -> Option<u8>
        ensures { result ≡ owner_of_match self.now m.now }
    {
        match self.written.least(m.pattern()) {
            Some(place) => writer_at(&self.rules, place),
            None => None,
        }
    }
}
