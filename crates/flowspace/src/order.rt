//! The order of rules.

ghost use Rattle.std.specs.Prelude.{ℕ, List, ◌≡◌, IfOk, filter};
ghost use Rattle.flowspace.specs.declared.rules.Rule.{Rule as RuleView};
ghost use Rattle.flowspace.specs.Rules.{holds};
ghost use Rattle.flowspace.specs.Order.{in_order, rules_on, IsRuleOrder};
ghost use Rattle.flowspace.specs.Loading.{filed, filed_in_order};

use crate::rules::{Rule, is_held};
use std::alloc::{AllocError, Global};
use std::cmp::Reverse;

/// A rule with its place in the file, from 0.
#[derive(Clone, Copy)]
pub(crate) struct FiledRule {
    pub(crate) place: u64,
    pub(crate) rule: Rule,
}

/// What the order of rules means: the rules of a switch are those that hold on it, at descending priority,
/// and those of one priority as they stand in the file. No other list is that.
pub fn rules_stand_in_order()
    ensures order { (datapath : ℕ) (rules : List RuleView) → IsRuleOrder (filter (holds datapath) rules) (rules_on datapath rules) }
    ensures only { (datapath : ℕ) (rules ordered : List RuleView) → IsRuleOrder (filter (holds datapath) rules) ordered → ordered ≡ rules_on datapath rules }
{}

fn held_rules(alloc: Global, rules: &[Rule], datapath: u64) -> Result<Vec<Rule>, AllocError>
    ensures { IfOk result (λ v. v.items ≡ filter (holds datapath) rules.now) }
{
    rules
        .iter()
        .filter(|rule| is_held(rule, datapath))
        .copied()
        .collect(alloc)
}

// A rule of a higher priority comes first.
fn rank(rule: &Rule) -> Reverse<u32>
    ensures { result ≡ record { 0 = rule.now.priority } }
{
    Reverse(rule.priority)
}

fn sorted(rules: Vec<Rule>) -> Result<Vec<Rule>, AllocError>
    ensures { IfOk result (λ v. v.items ≡ in_order rules.items) }
{
    let mut sorted = rules;
    sorted.sort_by_key(|rule| rank(rule))?;
    Ok(sorted)
}

/// The rules in rule order.
pub(crate) fn in_rule_order(alloc: Global, rules: &[Rule]) -> Result<Vec<Rule>, AllocError>
    ensures { IfOk result (λ v. v.items ≡ in_order rules.now) }
{
    sorted(Vec::from_slice(alloc, rules)?)
}

/// The rules that hold on a switch, in rule order.
pub(crate) fn ordered_rules(
    alloc: Global,
    rules: &[Rule],
    datapath: u64,
) -> Result<Vec<Rule>, AllocError>
    ensures { IfOk result (λ v. v.items ≡ rules_on datapath rules.now) }
{
    sorted(held_rules(alloc, rules, datapath)?)
}

fn filed_rules(alloc: Global, rules: &[Rule]) -> Result<Vec<FiledRule>, AllocError>
    ensures { IfOk result (λ v. v.items ≡ filed 0 rules.now) }
{
    let mut filed = Vec::with_capacity(alloc, rules.len())?;
    for (place, rule) in rules.iter().enumerate() {
        filed.push(FiledRule {
            place: place as u64,
            rule: *rule,
        })?;
    }
    Ok(filed)
}

/// The rules with their places in the file, in rule order.
pub(crate) fn ordered_with_places(
    alloc: Global,
    rules: &[Rule],
) -> Result<Vec<FiledRule>, AllocError>
    ensures { IfOk result (λ v. v.items ≡ filed_in_order rules.now) }
{
    let mut filed = filed_rules(alloc, rules)?;
    filed.sort_by_key(|filed| rank(&filed.rule))?;
    Ok(filed)
}
