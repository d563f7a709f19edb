//! What an index of a switch's rules answers, beside the rules themselves.

ghost use Rattle.std.specs.Prelude.{All, IfOk};
ghost use Rattle.flowspace.specs.Slices.{IsPlainSlice};

use crate::tests::tables::expect_so;
use expectations::{expect_told, told};
use flowspace::{Policy, PolicyFault, Rule, Slice, SwitchPolicy};
use rule_index::RuleIndex;
use samples::{packet, plain_rules, rule, slice, tcp};
use std::alloc::{AllocError, Global};
use std::test::Fail;

const RULES: u16 = 2048;

const NAMES: &[&str] = &["s0", "s1", "s2", "s3", "s4", "s5", "s6", "s7"];

/// The slices of these names.
fn eight_slices(alloc: Global) -> Result<Vec<Slice>, AllocError>
    ensures { IfOk result (λ v. All IsPlainSlice v.items) }
{
    let mut slices = Vec::new(alloc);
    for name in NAMES {
        slices.push(slice(alloc, name)?)?;
    }
    Ok(slices)
}

/// A rule for each TCP port below 2,048, written by the eight slices in turn.
fn rule_for_each_port(alloc: Global) -> Result<Vec<Rule>, AllocError> {
    let mut rules = Vec::new(alloc);
    for port in 0..RULES {
        let slot = (port % 8) as u8;
        rules.push(rule(1, &tcp(None, port), slot, 0))?;
    }
    Ok(rules)
}

fn switch_of_eight_slices(alloc: Global) -> Result<SwitchPolicy, Fail> {
    let slices = eight_slices(alloc)?;
    let rules = rule_for_each_port(alloc)?;
    let rules = plain_rules(alloc, &rules)?;
    if slices.is_empty() {
        Err(PolicyFault::Memory)?;
    }
    let policy = Policy::load(alloc, slices, rules)?;
    Ok(policy.of_switch(alloc, 0xa1)?)
}

#[test]
fn looks_up_the_last_of_many_rules_and_its_owner(rt: HostRuntime) -> Result<(), Fail> {
    let alloc = rt.alloc();
    let policy = switch_of_eight_slices(alloc)?;
    let index = RuleIndex::build(alloc, &policy)?;
    let last = index.first(&packet(1, 0x0a00_0002, 2047));
    let owner = index.owner_of(&tcp(None, 2047));
    let behind = index.first(&packet(1, 0x0a00_0002, 2048));
    let came = told(alloc, &(last, owner, behind))?;
    expect_told(0, &came, "(Some(2047), Some(7), None)")
}

#[test]
fn answers_for_each_of_many_rules_as_the_policy_does(rt: HostRuntime) -> Result<(), Fail> {
    let policy = switch_of_eight_slices(rt.alloc())?;
    let index = RuleIndex::build(rt.alloc(), &policy)?;
    for port in 0..RULES {
        let header = packet(1, 0x0a00_0002, port);
        let own = tcp(None, port);
        let alike = index.first(&header) == policy.first(&header)
            && index.owner_of(&own) == policy.owner_of(&own);
        expect_so(u32::from(port), alike)?;
    }
    Ok(())
}
