//! What a row of a table, or a step, is to come to.

use expectations::{expect_told, told};
use samples::bytes;
use std::alloc::Global;
use std::test::Fail;

/// It is so, in the row or the step of this number.
pub(crate) fn expect_so(row: u32, is_so: bool) -> Result<(), Fail> {
    if is_so {
        Ok(())
    } else {
        Err(Fail::new(format_args!("not so at {row}")))
    }
}

/// The bytes that came are those of the digits that the pieces have one behind the other.
pub(crate) fn expect_bytes(alloc: Global, came: &[u8], pieces: &[&str]) -> Result<(), Fail> {
    let wanted = bytes(alloc, pieces)?;
    if came == wanted.as_slice() {
        Ok(())
    } else {
        expect_told(0, &told(alloc, &came)?, &told(alloc, &wanted)?)
    }
}
