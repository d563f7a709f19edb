//! Printing a policy.

ghost use Rattle.std.specs.Prelude.{ℕ, ◌≡◌, ◌≤◌, false, ◌++◌, ◌<◌, ◌^◌, length, Ok, Some, IfOk, IfSome, OnOk, map, option_and_then, option_map, string_bytes};
ghost use Rattle.toml.specs.Data.{string};
ghost use Rattle.toml.specs.View.{items_of};
ghost use Rattle.toml_writer.specs.Text.{string_text};
ghost use Rattle.std.specs.List.{AllByRecursion};
ghost use Rattle.address_text.specs.Texts.{hardware_text, hex_text, prefix_text};
ghost use Rattle.of10_model.specs.Normal.{bit};
ghost use Rattle.flowspace.specs.Policies.{IsPolicy};
ghost use Rattle.flowspace.specs.Swaps.{AreSwaps};
ghost use Rattle.policy_text.specs.Documents.{document_of, policy_up_to};
ghost use Rattle.policy_text.specs.Printing.{IsRuleInRange, IsSwapInRange, entries_text, entry_text, items_text, link_entries, slice_name, names_array, names_in, needed_version, network_entries, number_value, entries_beside, rule_text, rules_text, slice_text, slices_text, swap_text, swaps_text, text_of, text_value, unless_default, version_text};

use crate::slices::{BURST, QUOTA, RATE};
use address_text::{datapath_text, hardware_text, prefix_text};
use flowspace::{Policy, Rule, Slice, Swap, has_slot};
use of10_action::Bytes;
use of10_model::{Pattern, Prefix};
use std::alloc::{AllocError, Global};
use std::fmt;

/// A text as TOML writes it, between quotes.
#[derive(Clone, Copy)]
struct Quoted<'a>(&'a str);

impl fmt::Display for Quoted<'_> {
    ghost output = { λ q. Some (string_text q.0.now) };

    fn fmt<W: fmt::Write>(&self, f: &mut fmt::Formatter<W>) -> fmt::Result {
        toml_writer::write_string(f, self.0)
    }
}

#[tactic(auto, unfolding(crate::specs::Printing::entry_text))]
fn put_number(out: &mut String, key: &str, n: Option<u32>) -> Result<(), AllocError>
    ensures text { OnOk result (string_bytes out.new ≡ string_bytes out.old ++ entry_text (key.now, number_value n)) }
    ensures range { IfSome n (λ x. x < 2 ^ 32) }
{
    match n {
        None => Ok(()),
        Some(n) => write!(out, "{key} = {n}\n"),
    }
}

fn put_number16(out: &mut String, key: &str, n: Option<u16>) -> Result<(), AllocError>
    ensures { OnOk result (string_bytes out.new ≡ string_bytes out.old ++ entry_text (key.now, number_value n)) }
{
    match n {
        None => put_number(out, key, None),
        Some(n) => put_number(out, key, Some(u32::from(n))),
    }
}

fn put_number8(out: &mut String, key: &str, n: Option<u8>) -> Result<(), AllocError>
    ensures { OnOk result (string_bytes out.new ≡ string_bytes out.old ++ entry_text (key.now, number_value n)) }
{
    match n {
        None => put_number(out, key, None),
        Some(n) => put_number(out, key, Some(u32::from(n))),
    }
}

#[tactic(auto, unfolding(crate::specs::Printing::entry_text))]
fn put_text(out: &mut String, key: &str, text: Option<&str>) -> Result<(), AllocError>
    ensures { OnOk result (string_bytes out.new ≡ string_bytes out.old ++ entry_text (key.now, text_value (option_map (λ s. s.now) text.entry))) }
{
    match text {
        None => Ok(()),
        Some(text) => {
            let text = Quoted(text);
            write!(out, "{key} = {text}\n")
        }
    }
}

fn put_list(out: &mut String, texts: &[&str]) -> Result<(), AllocError>
    ensures { OnOk result (string_bytes out.new ≡ string_bytes out.old ++ items_text false (items_of (map string (map (λ s. s.now) texts.now)))) }
{
    let mut rest = texts;
    while let [text, after @ ..] = rest {
        let text = Quoted(text);
        write!(out, ", {text}")?;
        rest = after;
    }
    out.push_str("]")
}

#[tactic(auto, unfolding(crate::specs::Printing::entry_text))]
fn put_names(out: &mut String, key: &str, texts: &[&str]) -> Result<(), AllocError>
    ensures { OnOk result (string_bytes out.new ≡ string_bytes out.old ++ entry_text (key.now, names_array (map (λ s. s.now) texts.now))) }
{
    match texts {
        [] => Ok(()),
        [first, rest @ ..] => {
            let first = Quoted(first);
            write!(out, "{key} = [{first}")?;
            put_list(out, rest)?;
            out.push_str("\n")
        }
    }
}

#[tactic(auto, unfolding(crate::specs::Printing::entry_text))]
fn put_unless(out: &mut String, key: &str, default: u32, n: u32) -> Result<(), AllocError>
    ensures { OnOk result (string_bytes out.new ≡ string_bytes out.old ++ entry_text (key.now, unless_default default n)) }
{
    if n == default {
        Ok(())
    } else {
        write!(out, "{key} = {n}\n")
    }
}

fn put_datapath(
    out: &mut String,
    alloc: Global,
    key: &str,
    n: Option<u64>,
) -> Result<(), AllocError>
    ensures text { OnOk result (string_bytes out.new ≡ string_bytes out.old ++ entry_text (key.now, text_value (option_map (hex_text 16) n))) }
    ensures range { IfSome n (λ x. x < 2 ^ 64) }
{
    match n {
        None => put_text(out, key, None),
        Some(n) => put_text(out, key, Some(datapath_text(alloc, n)?.as_str())),
    }
}

fn put_hardware(
    out: &mut String,
    alloc: Global,
    key: &str,
    n: Option<u64>,
) -> Result<(), AllocError>
    ensures { OnOk result (string_bytes out.new ≡ string_bytes out.old ++ entry_text (key.now, text_value (option_map hardware_text n))) }
{
    match n {
        None => put_text(out, key, None),
        Some(n) => put_text(out, key, Some(hardware_text(alloc, n)?.as_str())),
    }
}

fn put_prefix(
    out: &mut String,
    alloc: Global,
    key: &str,
    p: Option<Prefix>,
) -> Result<(), AllocError>
    ensures { OnOk result (string_bytes out.new ≡ string_bytes out.old ++ entry_text (key.now, text_value (option_map prefix_text p))) }
{
    match p {
        None => put_text(out, key, None),
        Some(p) => put_text(out, key, Some(prefix_text(alloc, &p)?.as_str())),
    }
}

// ---- tables

#[tactic(auto, unfolding(crate::specs::Printing::slice_text))]
fn put_slice(out: &mut String, slice: &Slice) -> Result<(), AllocError>
    ensures { OnOk result (string_bytes out.new ≡ string_bytes out.old ++ slice_text slice.now) }
{
    out.push_str("\n[[slice]]\n")?;
    put_text(out, "name", Some(slice.name.as_str()))?;
    put_text(out, "controller", Some(slice.controller.as_str()))?;
    put_unless(out, "rate", RATE, slice.rate)?;
    put_unless(out, "burst", BURST, slice.burst)?;
    put_unless(out, "quota", QUOTA, slice.quota)?;
    Ok(())
}

fn name_at(slices: &[Slice], slot: Option<u8>) -> Option<&str>
    ensures { option_map (λ s. s.now) result ≡ option_and_then (slice_name slices.now) slot }
{
    match slices.get(usize::from(slot?)) {
        Some(slice) => Some(slice.name.as_str()),
        None => None,
    }
}

#[tactic(auto, using(flowspace::proofs::Bits::no_bit))]
fn is_among(slots: u32, place: usize) -> bool
    ensures { result ≡ bit slots place }
{
    match u8::try_from(place) {
        Ok(slot) => has_slot(slots, slot),
        Err(_) => false,
    }
}

fn names_in(alloc: Global, bits: u32, slices: &[Slice]) -> Result<Vec<&str>, AllocError>
    ensures { IfOk result (λ v. map (λ s. s.now) v.items ≡ names_in bits slices.now) }
{
    let mut names = Vec::new(alloc);
    for (slot, slice) in slices.iter().enumerate() {
        if is_among(bits, slot) {
            names.push(slice.name.as_str())?;
        }
    }
    Ok(names)
}

fn put_own(out: &mut String, alloc: Global, slices: &[Slice], rule: &Rule) -> Result<(), AllocError>
    ensures text { OnOk result (string_bytes out.new ≡ string_bytes out.old ++ entries_text (entries_beside slices.now rule.now)) }
    ensures switch { OnOk result (IfSome rule.now.switch (λ n. n < 2 ^ 64)) }
    ensures priority { OnOk result (rule.now.priority < 2 ^ 32) }
{
    let readers = names_in(alloc, rule.readers, slices)?;
    put_datapath(out, alloc, "switch", rule.switch)?;
    put_number(out, "priority", Some(rule.priority))?;
    put_text(out, "write", name_at(slices, rule.writer))?;
    put_names(out, "read", &readers)?;
    Ok(())
}

fn put_link(out: &mut String, alloc: Global, m: &Pattern) -> Result<(), AllocError>
    ensures { OnOk result (string_bytes out.new ≡ string_bytes out.old ++ entries_text (link_entries m.now)) }
{
    put_number16(out, "in_port", m.in_port)?;
    put_hardware(out, alloc, "dl_src", m.dl_src)?;
    put_hardware(out, alloc, "dl_dst", m.dl_dst)?;
    put_number16(out, "dl_vlan", m.dl_vlan)?;
    put_number8(out, "dl_vlan_pcp", m.dl_vlan_pcp)?;
    put_number16(out, "dl_type", m.dl_type)?;
    Ok(())
}

fn put_network(out: &mut String, alloc: Global, m: &Pattern) -> Result<(), AllocError>
    ensures { OnOk result (string_bytes out.new ≡ string_bytes out.old ++ entries_text (network_entries m.now)) }
{
    put_number8(out, "nw_tos", m.nw_tos)?;
    put_number8(out, "nw_proto", m.nw_proto)?;
    put_prefix(out, alloc, "nw_src", m.nw_src)?;
    put_prefix(out, alloc, "nw_dst", m.nw_dst)?;
    put_number16(out, "tp_src", m.tp_src)?;
    put_number16(out, "tp_dst", m.tp_dst)?;
    Ok(())
}

#[tactic(auto, unfolding(crate::specs::Printing::rule_text))]
fn put_rule(
    out: &mut String,
    alloc: Global,
    slices: &[Slice],
    rule: &Rule,
) -> Result<(), AllocError>
    ensures text { OnOk result (string_bytes out.new ≡ string_bytes out.old ++ rule_text slices.now rule.now) }
    ensures held { OnOk result (IsRuleInRange rule.now) }
{
    out.push_str("\n[[rule]]\n")?;
    put_own(out, alloc, slices, rule)?;
    put_link(out, alloc, rule.pattern.pattern())?;
    put_network(out, alloc, rule.pattern.pattern())?;
    Ok(())
}

fn put_slices(out: &mut String, slices: &[Slice]) -> Result<(), AllocError>
    ensures { OnOk result (string_bytes out.new ≡ string_bytes out.old ++ slices_text slices.now) }
{
    let mut rest = slices;
    while let [slice, after @ ..] = rest {
        put_slice(out, slice)?;
        rest = after;
    }
    Ok(())
}

fn put_rules(
    out: &mut String,
    alloc: Global,
    slices: &[Slice],
    rules: &[Rule],
) -> Result<(), AllocError>
    ensures text { OnOk result (string_bytes out.new ≡ string_bytes out.old ++ rules_text slices.now rules.now) }
    ensures held { OnOk result (AllByRecursion IsRuleInRange rules.now) }
{
    let mut rest = rules;
    while let [rule, after @ ..] = rest {
        put_rule(out, alloc, slices, rule)?;
        rest = after;
    }
    Ok(())
}

#[tactic(auto, unfolding(crate::specs::Printing::swap_text))]
fn put_swap(
    out: &mut String,
    alloc: Global,
    slices: &[Slice],
    swap: &Swap,
) -> Result<(), AllocError>
    ensures text { OnOk result (string_bytes out.new ≡ string_bytes out.old ++ swap_text slices.now swap.now) }
    ensures held { OnOk result (IsSwapInRange swap.now) }
{
    out.push_str("\n[[port]]\n")?;
    put_text(out, "slice", name_at(slices, Some(swap.slice)))?;
    put_datapath(out, alloc, "switch", swap.switch)?;
    put_number16(out, "shown", Some(swap.shown))?;
    put_number16(out, "physical", Some(swap.physical))?;
    Ok(())
}

fn put_swaps(
    out: &mut String,
    alloc: Global,
    slices: &[Slice],
    swaps: &[Swap],
) -> Result<(), AllocError>
    ensures text { OnOk result (string_bytes out.new ≡ string_bytes out.old ++ swaps_text slices.now swaps.now) }
    ensures held { OnOk result (AllByRecursion IsSwapInRange swaps.now) }
{
    let mut rest = swaps;
    while let [swap, after @ ..] = rest {
        put_swap(out, alloc, slices, swap)?;
        rest = after;
    }
    Ok(())
}

fn version_line(swaps: &[Swap]) -> &'static str
    ensures { result.now ≡ version_text swaps.now }
{
    if swaps.is_empty() {
        "version = 1\n"
    } else {
        "version = 2\n"
    }
}

#[tactic(auto, unfolding(crate::specs::Printing::text_of))]
fn text_of(alloc: Global, policy: &Policy) -> Result<String, AllocError>
    ensures text { IfOk result (λ s. string_bytes s ≡ text_of policy.now) }
    ensures held { IfOk result (λ _. AllByRecursion IsRuleInRange policy.now.rules) }
    ensures swaps_held { IfOk result (λ _. AllByRecursion IsSwapInRange policy.now.swaps) }
    ensures policy { IfOk result (λ _. IsPolicy policy.now.slices policy.now.rules) }
    ensures swaps { IfOk result (λ _. AreSwaps (length policy.now.slices) policy.now.swaps) }
{
    let mut text = String::from_str(alloc, version_line(policy.swaps()))?;
    put_slices(&mut text, policy.slices())?;
    put_rules(&mut text, alloc, policy.slices(), policy.rules())?;
    put_swaps(&mut text, alloc, policy.slices(), policy.swaps())?;
    Ok(text)
}

/// A text that is read as the policy, of version 1 where the policy has no swaps, else of version 2. It
/// has the version, the slices, and the rules and the swaps in file order; the fields of each stand in one
/// order, and those with their default are left out.
pub fn print(alloc: Global, policy: &Policy) -> Result<Bytes, AllocError>
    ensures text { IfOk result (λ b. b ≡ text_of policy.now) }
    ensures read_again { IfOk result (λ b. (highest : ℕ) → needed_version policy.now.swaps ≤ highest → policy_up_to highest (document_of b) ≡ Ok policy.now) }
{
    let text = text_of(alloc, policy)?;
    Ok(Bytes::from_vec(text.into_bytes()))
}
