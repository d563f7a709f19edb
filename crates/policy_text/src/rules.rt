//! The rules that a text says.

ghost use Rattle.std.specs.Prelude.{map};
ghost use Rattle.toml.specs.View.{items_view, view};
ghost use Rattle.of10_model.specs.Normal.{IsInRange};
ghost use Rattle.policy_text.specs.Reading.{GivesAsText};
ghost use Rattle.policy_text.specs.Rules.{names_under, proper, rule_from, rule_in, rule_of, rule_text_in, rules_from};
ghost use Rattle.policy_text.specs.Views.{rule_text_view, section};

use crate::fault::{Part, ReadFault};
use crate::known_keys::Keys;
use crate::names::{Names, are_different, bits, slots, writer};
use crate::pattern::pattern_in;
use crate::section::Section;
use crate::values::{Numbers, Numerals, Texts};
use flowspace::{Field, Rule, first_improper};
use of10_match::Match;
use of10_model::Pattern;
use std::alloc::Global;
use toml::Value;

/// What a rule's table says, its slices by name.
#[derive(Drop)]
struct RuleText<'a> {
    switch: Option<u64>,
    priority: u32,
    write: Option<&'a str>,
    read: Vec<&'a str>,
    pattern: Pattern,
}

fn names_under<'a>(table: &Section<'a>, key: &str) -> Result<Vec<&'a str>, ReadFault>
    ensures { GivesAsText (λ v. map (λ s. s.now) v.items) result (names_under (section table.now) key.now) }
{
    match table.text_list(key)? {
        Some(names) => Ok(names),
        None => Ok(Vec::new(table.alloc)),
    }
}

#[tactic(auto, unfolding(crate::specs::Rules::rule_text_in))]
fn rule_text_in<'a>(table: &Section<'a>) -> Result<RuleText<'a>, ReadFault>
    ensures { GivesAsText rule_text_view result (rule_text_in (section table.now)) }
{
    table.known_keys(Keys::Rule)?;
    let switch = table.numeral(Numerals::Datapath, "switch")?;
    let priority = table.required_number(Numbers::UpTo(0xffff_ffff), "priority")?;
    let write = table.text(Texts::Any, "write")?;
    let read = names_under(table, "read")?;
    let pattern = pattern_in(table)?;
    Ok(RuleText {
        switch,
        priority,
        write,
        read,
        pattern,
    })
}

fn proper(alloc: Global, index: u64, slots: &[usize], pattern: &Pattern) -> Result<(), ReadFault>
    ensures { GivesAsText (λ u. u) result (proper index slots.now pattern.now) }
{
    if !are_different(alloc, slots)? {
        return Err(ReadFault::Improper(index, Field::Read));
    }
    match first_improper(pattern) {
        Some(field) => Err(ReadFault::Improper(index, field)),
        None => Ok(()),
    }
}

#[tactic(auto, unfolding(crate::specs::Rules::rule_from))]
fn rule_from<'a>(
    alloc: Global,
    names: &Names<'a>,
    index: u64,
    text: &RuleText<'a>,
) -> Result<Rule, ReadFault>
    requires { IsInRange text.now.pattern }
    ensures { GivesAsText (λ r. r) result (rule_from names.now index (rule_text_view text.now)) }
{
    let writer = writer(names, index, text.write)?;
    let slots = slots(alloc, names, index, &text.read)?;
    proper(alloc, index, &slots, &text.pattern)?;
    Ok(Rule {
        switch: text.switch,
        priority: text.priority,
        pattern: Match::of(text.pattern),
        writer,
        readers: bits(&slots),
    })
}

fn rule_in<'a>(names: &Names<'a>, table: &Section<'a>) -> Result<Rule, ReadFault>
    ensures { GivesAsText (λ r. r) result (rule_in names.now (section table.now)) }
{
    let text = rule_text_in(table)?;
    rule_from(table.alloc, names, table.index, &text)
}

fn rule_of<'a>(
    alloc: Global,
    names: &Names<'a>,
    index: u64,
    value: &'a Value,
) -> Result<Rule, ReadFault>
    ensures { GivesAsText (λ r. r) result (rule_of names.now index (view value.now)) }
{
    rule_in(
        names,
        &Section::of(alloc, "rule", Part::Rule, index, value)?,
    )
}

/// The rules of the items, which name these slices.
pub fn rules<'a>(
    alloc: Global,
    names: &Names<'a>,
    values: &'a [Value],
) -> Result<Vec<Rule>, ReadFault>
    ensures { GivesAsText (λ v. v.items) result (rules_from names.now 0 (items_view values.now)) }
{
    let mut rules = Vec::new(alloc);
    for (index, value) in values.iter().enumerate() {
        rules.push(rule_of(alloc, names, index as u64, value)?)?;
    }
    Ok(rules)
}
