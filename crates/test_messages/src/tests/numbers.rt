//! Numbers as they stand in messages.

use expectations::expect_eq;
use of10_model::wire::{put_u8, put_u16, put_u32, put_u48, put_u64};
use std::test::Fail;

#[test]
fn numbers_are_written_high_byte_first(rt: HostRuntime) -> Result<(), Fail> {
    let mut out = Vec::new(rt.alloc());
    put_u8(&mut out, 0x01)?;
    put_u16(&mut out, 0x0203)?;
    put_u32(&mut out, 0x04050607)?;
    put_u48(&mut out, 0x08090a0b0c0d)?;
    put_u64(&mut out, 0x0e0f101112131415)?;
    let expected = [
        1, 2, 3, 4, 5, 6, 7, 8, 9, 10, 11, 12, 13, 14, 15, 16, 17, 18, 19, 20, 21,
    ];
    expect_eq!(out.as_slice(), expected.as_slice());
    Ok(())
}
