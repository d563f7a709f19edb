//! What a test expects, said as `assert!` and `assert_eq!` say it. Where it isn't so, the test ends there, and fails with
//! the row. An `assert_eq!` costs a test's proof a hundred times what the call of one of these functions costs.
#![tactic(auto)]

use std::alloc::{AllocError, Global};
use std::fmt::Debug;
use std::test::Fail;

/// What is said of the row is so.
pub fn expect_so(is_so: bool, row: &impl Debug) -> Result<(), Fail> {
    if is_so {
        Ok(())
    } else {
        Err(Fail::new(format_args!("{row:?}")))
    }
}

/// What is found for the row is what is expected.
pub fn expect_equal<T: PartialEq + Debug>(
    found: &T,
    expected: &T,
    row: &impl Debug,
) -> Result<(), Fail> {
    if found == expected {
        Ok(())
    } else {
        Err(Fail::new(format_args!("{row:?}: {found:?}, not {expected:?}")))
    }
}

/// The text of an answer.
pub fn told(alloc: Global, answer: &impl Debug) -> Result<String, AllocError> {
    format!(in alloc; "{answer:?}")
}

/// What came of a row, which its place in the table names, is what is wanted.
pub fn expect_told(row: u32, came: &str, wanted: &str) -> Result<(), Fail> {
    if came == wanted {
        Ok(())
    } else {
        Err(Fail::new(format_args!("row {row}: {came}, not {wanted}")))
    }
}

/// As `assert!`; the row, where there is one, is what the failure names.
#[macro_export]
macro_rules! expect {
    ($is_so:expr) => {
        expectations::expect_so($is_so, &stringify!($is_so))?
    };
    ($is_so:expr, $row:expr) => {
        expectations::expect_so($is_so, &$row)?
    };
}

/// As `assert_eq!`; the row, where there is one, is what the failure names.
#[macro_export]
macro_rules! expect_eq {
    ($found:expr, $expected:expr) => {
        expectations::expect_equal(&$found, &$expected, &stringify!($found))?
    };
    ($found:expr, $expected:expr, $row:expr) => {
        expectations::expect_equal(&$found, &$expected, &$row)?
    };
}
