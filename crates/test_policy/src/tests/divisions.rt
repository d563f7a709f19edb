//! Slices that are divided by their holders, where port numbers are exchanged. What else is refused, and what comes
//! of a division, is shown by texts (`case_tables`).

use super::given::{NAMES, SwapRow, WEB, expect_text, load_ports, made};
use flowspace::Policy;
use nested_slices::{NestFault, flatten};
use std::alloc::{AllocError, Global};
use std::process::Abort;
use std::test::Fail;

/// The names of the slices and how many rules there are, where alice divides her slice; or why she can't.
fn divided_text(alloc: Global, outer: &Policy, inner: &Policy) -> Result<String, AllocError> {
    if outer.slices().is_empty() {
        return Err(AllocError);
    }
    match flatten(alloc, outer, 0, inner) {
        Ok(flat) => {
            let mut text = String::new(alloc);
            for slice in flat.slices() {
                write!(text, "{} ", slice.name.as_str())?;
            }
            write!(text, "{}", flat.rules().len())?;
            Ok(text)
        }
        Err(NestFault::Memory) => Err(AllocError),
        Err(fault) => format!(in alloc; "{fault:?}"),
    }
}

/// Swaps of the outer policy, those of the inner one, who writes the inner rule, and what comes of it.
const DIVISIONS: &[(&[SwapRow], &[SwapRow], Option<u8>, &str)] = &[
    (&[], &[], Some(0), "bob carol 1"),
    (&[], &[], None, "Reader(0)"),
    // Swaps of any slice come before a rule that nobody writes
    (&[(1, Some(7), 9, 2)], &[], None, "Swaps"),
    (&[(0, None, 9, 2)], &[], Some(0), "Swaps"),
    (&[], &[(0, None, 9, 2)], None, "Swaps"),
    (&[], &[(0, None, 3, 3)], Some(0), "Swaps"),
];

#[test]
fn swaps_refuse_a_division(rt: HostRuntime) -> Result<(), Fail> {
    let alloc = rt.alloc();
    for (index, (outer, inner, writer, wanted)) in DIVISIONS.iter().enumerate() {
        let rules = made(alloc, &[(None, 1, WEB, Some(0), 0)])?;
        let outer = load_ports(alloc, NAMES, &rules, outer)?;
        let rules = made(alloc, &[(None, 1, WEB, *writer, 0)])?;
        let inner = load_ports(alloc, &["carol"], &rules, inner)?;
        let came = divided_text(alloc, &outer, &inner)?;
        expect_text(&rt, index, came.as_str(), wanted);
    }
    Ok(())
}
