//! Slices, rules and policies.

ghost use Rattle.std.specs.Prelude.{◌≡◌, ◌⊎◌, All, IfErr, IfOk, IsTrue, None, Some, length};
ghost use Rattle.flowspace.specs.Loading.{GivesPolicy, fault_of, load_of};
ghost use Rattle.flowspace.specs.Order.{rules_on};
ghost use Rattle.flowspace.specs.declared.fault.PolicyFault.TheVariants.{Memory};
ghost use Rattle.samples.specs.Makers.{alice_and_bob, slice_called};
ghost use Rattle.flowspace.specs.Slices.{IsPlainSlice};
ghost use Rattle.flowspace.specs.Rules.{IsPlainRule};

use flowspace::{Policy, PolicyFault, Rule, Slice, SwitchPolicy, Text};
use of10_match::Match;
use std::alloc::{AllocError, Global};

/// The datapath id of the switch whose policies are made.
const DATAPATH: u64 = 0xa1;

/// A rule on every switch.
pub fn rule(priority: u32, pattern: &Match, writer: u8, readers: u32) -> Rule
    ensures { result ≡ record { switch = None; priority = priority; pattern = pattern.now; writer = Some writer; readers = readers } }
{
    Rule {
        switch: None,
        priority,
        pattern: *pattern,
        writer: Some(writer),
        readers,
    }
}

/// A slice of this name.
pub fn slice(alloc: Global, name: &str) -> Result<Slice, AllocError>
    ensures plain { IfOk result IsPlainSlice }
    ensures value { IfOk result (λ s. s ≡ slice_called name.now) }
{
    let slice = Slice {
        name: Text::of(alloc, name)?,
        controller: Text::of(alloc, "192.0.2.1:6633")?,
        rate: 1000,
        burst: 1000,
        quota: 1024,
    };
    if slice.is_plain() {
        Ok(slice)
    } else {
        Err(AllocError)
    }
}

/// The slices alice, at slot 0, and bob.
pub fn two_slices(alloc: Global) -> Result<Vec<Slice>, AllocError>
    ensures plain { IfOk result (λ v. All IsPlainSlice v.items) }
    ensures value { IfOk result (λ v. v.items ≡ alice_and_bob) }
{
    let mut slices = Vec::new(alloc);
    slices.push(slice(alloc, "alice")?)?;
    slices.push(slice(alloc, "bob")?)?;
    Ok(slices)
}

fn are_plain(rules: &[Rule]) -> bool
    ensures { IsTrue result → All IsPlainRule rules.now }
{
    rules.iter().all(|rule| rule.is_plain())
}

/// The same rules.
pub fn plain_rules(alloc: Global, rules: &[Rule]) -> Result<Vec<Rule>, AllocError>
    ensures plain { IfOk result (λ v. All IsPlainRule v.items) }
    ensures same { IfOk result (λ v. v.items ≡ rules.now) }
{
    if are_plain(rules) {
        Vec::from_slice(alloc, rules)
    } else {
        Err(AllocError)
    }
}

/// What loading these rules for the two slices answers.
pub fn policy(alloc: Global, rules: &[Rule]) -> Result<Policy, PolicyFault>
    ensures value { GivesPolicy result (load_of alice_and_bob rules.now) }
    ensures slices { IfOk result (λ p. length p.slices ≡ 2) }
    ensures rules { IfOk result (λ p. p.rules ≡ rules.now) }
{
    let (Ok(slices), Ok(rules)) = (two_slices(alloc), plain_rules(alloc, rules)) else {
        return Err(PolicyFault::Memory);
    };
    Policy::load(alloc, slices, rules)
}

/// What loading these rules for the two slices answers, for a switch.
pub fn switch_policy(alloc: Global, rules: &[Rule]) -> Result<SwitchPolicy, PolicyFault>
    ensures value { IfOk result (λ p. (fault_of alice_and_bob rules.now ≡ None) × (p.slices ≡ alice_and_bob) × (p.rules ≡ rules_on 0xa1 rules.now)) }
    ensures fault { IfErr result (λ e. (e ≡ Memory) ⊎ (fault_of alice_and_bob rules.now ≡ Some e)) }
    ensures slices { IfOk result (λ p. length p.slices ≡ 2) }
{
    let policy = policy(alloc, rules)?;
    policy
        .of_switch(alloc, DATAPATH)
        .map_err(|_| PolicyFault::Memory)
}
