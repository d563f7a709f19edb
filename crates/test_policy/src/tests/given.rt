//! Slices, rules and policies for the tests, and what is said of them.

ghost use Rattle.std.specs.Prelude.{All, IfOk};
ghost use Rattle.flowspace.specs.Slices.{IsPlainSlice};
ghost use Rattle.flowspace.specs.Swaps.{IsPlainSwap};

use flowspace::{Policy, PolicyFault, Rule, Slice, Swap, Text};
use samples::{ANY, Packets, match_of, plain_rules};
use std::alloc::{AllocError, Global};
use std::process::Abort;

/// A rule as the tables have it: the switch that it is for, or all; its priority, packets, writer and readers.
pub(super) type Row = (Option<u64>, u32, Packets, Option<u8>, u32);

/// A swap as the tables have it: its slice, the switch that it is for, or all, and the numbers shown and physical.
pub(super) type SwapRow = (u8, Option<u64>, u16, u16);

/// The TCP packets to ports 80, 22, 23 and 443.
pub(super) const WEB: Packets = Packets {
    tcp: Some(80),
    ..ANY
};

pub(super) const SHELL: Packets = Packets {
    tcp: Some(22),
    ..ANY
};

pub(super) const TELNET: Packets = Packets {
    tcp: Some(23),
    ..ANY
};

pub(super) const TLS: Packets = Packets {
    tcp: Some(443),
    ..ANY
};

pub(super) const NAMES: &[&str] = &["alice", "bob"];

/// What came is what is wanted, in the row of this number.
pub(super) fn expect_text(rt: &impl Abort, row: usize, came: &str, wanted: &str) {
    assert!(rt; came == wanted, "row {row}: {came}, not {wanted}");
}

/// The rules of the rows.
pub(super) fn made(alloc: Global, rows: &[Row]) -> Result<Vec<Rule>, AllocError> {
    let mut rules = Vec::new(alloc);
    for (switch, priority, packets, writer, readers) in rows {
        rules.push(Rule {
            switch: *switch,
            priority: *priority,
            pattern: match_of(packets),
            writer: *writer,
            readers: *readers,
        })?;
    }
    Ok(rules)
}

// A slice that no policy may have is a mistake in a test, which fails by it.
fn plain_slice(alloc: Global, name: &str) -> Result<Slice, AllocError>
    ensures { IfOk result IsPlainSlice }
{
    let slice = Slice {
        name: Text::of(alloc, name)?,
        controller: Text::of(alloc, "192.0.2.1:6633")?,
        rate: 1000,
        burst: 2000,
        quota: 0,
    };
    if slice.is_plain() {
        Ok(slice)
    } else {
        Err(AllocError)
    }
}

/// Slices of these names.
fn named(alloc: Global, names: &[&str]) -> Result<Vec<Slice>, AllocError>
    ensures { IfOk result (λ v. All IsPlainSlice v.items) }
{
    let mut slices = Vec::new(alloc);
    for name in names {
        slices.push(plain_slice(alloc, name)?)?;
    }
    Ok(slices)
}

// A swap that no policy may have is a mistake likewise.
fn plain_swap(row: &SwapRow) -> Result<Swap, AllocError>
    ensures { IfOk result IsPlainSwap }
{
    let (slice, switch, shown, physical) = row;
    let swap = Swap {
        slice: *slice,
        switch: *switch,
        shown: *shown,
        physical: *physical,
    };
    if swap.is_plain() {
        Ok(swap)
    } else {
        Err(AllocError)
    }
}

/// The swaps of the rows.
fn swaps_of(alloc: Global, rows: &[SwapRow]) -> Result<Vec<Swap>, AllocError>
    ensures { IfOk result (λ v. All IsPlainSwap v.items) }
{
    let mut plain = Vec::new(alloc);
    for row in rows {
        plain.push(plain_swap(row)?)?;
    }
    Ok(plain)
}

/// What loading slices of these names, these rules and these swaps answers.
pub(super) fn load_ports(
    alloc: Global,
    names: &[&str],
    rules: &[Rule],
    swaps: &[SwapRow],
) -> Result<Policy, PolicyFault> {
    let (Ok(slices), Ok(rules), Ok(swaps)) = (
        named(alloc, names),
        plain_rules(alloc, rules),
        swaps_of(alloc, swaps),
    ) else {
        return Err(PolicyFault::Memory);
    };
    if slices.is_empty() {
        return Err(PolicyFault::Memory);
    }
    Policy::load_ports(alloc, slices, rules, swaps)
}

/// What loading slices of these names and these rules answers.
pub(super) fn load(alloc: Global, names: &[&str], rules: &[Rule]) -> Result<Policy, PolicyFault> {
    let (Ok(slices), Ok(rules)) = (named(alloc, names), plain_rules(alloc, rules)) else {
        return Err(PolicyFault::Memory);
    };
    if slices.is_empty() {
        return Err(PolicyFault::Memory);
    }
    Policy::load(alloc, slices, rules)
}

/// The fields of each slice, and the place that each rule has among those that were given.
pub(super) fn told(
    alloc: Global,
    given: &[Rule],
    slices: &[Slice],
    rules: &[Rule],
) -> Result<String, AllocError> {
    let mut text = String::new(alloc);
    for slice in slices {
        let (name, controller) = (slice.name.as_str(), slice.controller.as_str());
        let (rate, burst, quota) = (slice.rate, slice.burst, slice.quota);
        write!(text, "{name} {controller} {rate} {burst} {quota}, ")?;
    }
    text.push_str("rules")?;
    for rule in rules {
        let place = given.iter().position(|other| other == rule);
        write!(text, " {place:?}")?;
    }
    Ok(text)
}
