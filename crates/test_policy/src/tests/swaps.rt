//! Port numbers that are exchanged for slices: which swaps are refused, and what is exchanged on a switch.

use super::given::{NAMES, SwapRow, expect_text, load_ports, made};
use flowspace::{PolicyFault, SwitchPolicy};
use std::alloc::{AllocError, Global};
use std::process::Abort;
use std::test::Fail;

fn fault_text(alloc: Global, swaps: &[SwapRow]) -> Result<String, AllocError> {
    match load_ports(alloc, NAMES, &made(alloc, &[])?, swaps) {
        Ok(_) => String::from_str(alloc, "accepted"),
        Err(PolicyFault::Memory) => Err(AllocError),
        Err(fault) => format!(in alloc; "{fault:?}"),
    }
}

const FAULTS: &[(&[SwapRow], &str)] = &[
    (&[], "accepted"),
    (&[(0, None, 9, 2), (1, Some(7), 65280, 0)], "accepted"),
    (&[(0, None, 9, 2), (2, None, 9, 2)], "UnknownPortSlice(1)"),
    // A slice that isn't there comes before a number named twice
    (
        &[(0, None, 9, 2), (0, None, 2, 5), (2, None, 7, 8)],
        "UnknownPortSlice(2)",
    ),
    // Either number of an earlier swap
    (&[(0, None, 9, 2), (0, None, 2, 5)], "PortTwice(1)"),
    (&[(0, None, 9, 2), (0, None, 5, 9)], "PortTwice(1)"),
    (
        &[(0, None, 9, 2), (0, None, 5, 6), (0, None, 6, 7)],
        "PortTwice(2)",
    ),
    // Another slice, and another switch
    (&[(0, None, 9, 2), (1, None, 9, 2)], "accepted"),
    (&[(0, Some(7), 9, 2), (0, Some(8), 9, 2)], "accepted"),
    (&[(0, Some(7), 9, 2), (0, None, 2, 5)], "PortTwice(1)"),
    (&[(0, None, 9, 2), (0, Some(7), 2, 5)], "PortTwice(1)"),
    // A number that stays names itself alone
    (&[(0, None, 3, 3), (0, None, 4, 5)], "accepted"),
    (&[(0, None, 3, 3), (0, None, 4, 3)], "PortTwice(1)"),
];

#[test]
fn swaps_are_refused_for_their_first_fault(rt: HostRuntime) -> Result<(), Fail> {
    for (index, (swaps, wanted)) in FAULTS.iter().enumerate() {
        let came = fault_text(rt.alloc(), swaps)?;
        expect_text(&rt, index, came.as_str(), wanted);
    }
    Ok(())
}

/// So many swaps that all name one number, and one of a slice that isn't there behind them or none.
fn crowd(alloc: Global, count: usize, unknown: bool) -> Result<Vec<SwapRow>, AllocError> {
    let mut swaps = Vec::new(alloc);
    for _ in 0..count {
        swaps.push((0, None, 1, 1))?;
    }
    if unknown {
        swaps.push((9, None, 1, 1))?;
    }
    Ok(swaps)
}

const CROWDS: &[(usize, bool, &str)] = &[
    (1024, false, "PortTwice(1)"),
    (1025, false, "TooMany(Swaps, 1025)"),
    (1025, true, "UnknownPortSlice(1025)"),
];

#[test]
fn there_are_1024_swaps_at_most(rt: HostRuntime) -> Result<(), Fail> {
    for (index, (count, unknown, wanted)) in CROWDS.iter().enumerate() {
        let came = fault_text(rt.alloc(), &crowd(rt.alloc(), *count, *unknown)?)?;
        expect_text(&rt, index, came.as_str(), wanted);
    }
    Ok(())
}

const SWAPS: &[SwapRow] = &[
    (0, None, 9, 2),
    (0, Some(7), 3, 4),
    (1, Some(8), 9, 3),
    (0, None, 5, 5),
];

/// What ports are exchanged for, those of alice first, those of bob, and of a slot that isn't there; and whether there are swaps.
fn exchanged(alloc: Global, on: &SwitchPolicy) -> Result<String, AllocError> {
    let mut text = String::new(alloc);
    for slot in 0..3u8 {
        for port in [2u16, 3, 4, 5, 9, 65534] {
            write!(text, "{} ", on.swapped(slot, port))?;
        }
    }
    write!(text, "{}", on.has_swaps())?;
    Ok(text)
}

#[test]
fn numbers_are_exchanged_on_a_switch(rt: HostRuntime) -> Result<(), Fail> {
    let alloc = rt.alloc();
    let policy = load_ports(alloc, NAMES, &made(alloc, &[])?, SWAPS)?.copy(alloc)?;
    let came = exchanged(alloc, &policy.of_switch(alloc, 7)?)?;
    let wanted = "9 4 3 5 2 65534 2 3 4 5 9 65534 2 3 4 5 9 65534 true";
    expect_text(&rt, 0, came.as_str(), wanted);
    let came = exchanged(alloc, &policy.of_switch(alloc, 8)?)?;
    let wanted = "9 3 4 5 2 65534 2 9 4 5 3 65534 2 3 4 5 9 65534 true";
    expect_text(&rt, 1, came.as_str(), wanted);
    let none = load_ports(alloc, NAMES, &made(alloc, &[])?, &[])?;
    let came = exchanged(alloc, &none.of_switch(alloc, 7)?)?;
    let wanted = "2 3 4 5 9 65534 2 3 4 5 9 65534 2 3 4 5 9 65534 false";
    expect_text(&rt, 2, came.as_str(), wanted);
    Ok(())
}
