//! Numbers in messages, which are big endian (OpenFlow 1.0.0, section 5).

ghost use Rattle.std.specs.Prelude.{◌≡◌, ◌+◌, ◌<◌, ◌≤◌, ◌^◌, length, drop, ◌++◌, OnOk, OnErr, take, vec_len, vec_capacity};
ghost use Rattle.byteorder.specs.Endian.{big_number, big_bytes};

use byteorder::{BigEndian, ByteOrder};
use std::alloc::AllocError;

/// The byte at `at`, as a number of one byte.
pub fn u8_at(bytes: &[u8], at: usize) -> u8
    requires { at + 1 ≤ length bytes.now }
    ensures { result ≡ big_number 1 (drop at bytes.now) }
{
    bytes[at]
}

/// The number in the two bytes from `at`.
pub fn u16_at(bytes: &[u8], at: usize) -> u16
    requires { at + 2 ≤ length bytes.now }
    ensures { result ≡ big_number 2 (drop at bytes.now) }
{
    BigEndian::read_u16(&bytes[at..])
}

/// The number in the four bytes from `at`.
pub fn u32_at(bytes: &[u8], at: usize) -> u32
    requires { at + 4 ≤ length bytes.now }
    ensures { result ≡ big_number 4 (drop at bytes.now) }
{
    BigEndian::read_u32(&bytes[at..])
}

/// The number in the six bytes from `at`: a hardware address.
pub fn u48_at(bytes: &[u8], at: usize) -> u64
    requires { at + 6 ≤ length bytes.now }
    ensures value { result ≡ big_number 6 (drop at bytes.now) }
    ensures below { result < 2 ^ 48 }
{
    BigEndian::read_u48(&bytes[at..])
}

/// The number in the eight bytes from `at`.
pub fn u64_at(bytes: &[u8], at: usize) -> u64
    requires { at + 8 ≤ length bytes.now }
    ensures { result ≡ big_number 8 (drop at bytes.now) }
{
    BigEndian::read_u64(&bytes[at..])
}

/// Appends the number as one byte.
pub fn put_u8(out: &mut Vec<u8>, n: u8) -> Result<(), AllocError>
    ensures written { OnOk result (out.new.items ≡ out.old.items ++ big_bytes 1 n) }
    ensures unchanged { OnErr result (out.new.items ≡ out.old.items) }
    ensures full { OnErr result (vec_capacity out.old < vec_len out.old + 1) }
    ensures capacity { vec_capacity out.old ≤ vec_capacity out.new }
{
    out.extend_from_slice(&[n])
}

/// Appends the number as two bytes.
pub fn put_u16(out: &mut Vec<u8>, n: u16) -> Result<(), AllocError>
    ensures written { OnOk result (out.new.items ≡ out.old.items ++ big_bytes 2 n) }
    ensures unchanged { OnErr result (out.new.items ≡ out.old.items) }
    ensures full { OnErr result (vec_capacity out.old < vec_len out.old + 2) }
    ensures capacity { vec_capacity out.old ≤ vec_capacity out.new }
{
    let mut bytes = [0; 2];
    BigEndian::write_u16(&mut bytes, n);
    out.extend_from_slice(&bytes)
}

/// Appends the number as four bytes.
pub fn put_u32(out: &mut Vec<u8>, n: u32) -> Result<(), AllocError>
    ensures written { OnOk result (out.new.items ≡ out.old.items ++ big_bytes 4 n) }
    ensures unchanged { OnErr result (out.new.items ≡ out.old.items) }
    ensures full { OnErr result (vec_capacity out.old < vec_len out.old + 4) }
    ensures capacity { vec_capacity out.old ≤ vec_capacity out.new }
{
    let mut bytes = [0; 4];
    BigEndian::write_u32(&mut bytes, n);
    out.extend_from_slice(&bytes)
}

/// Appends the number as six bytes: a hardware address.
pub fn put_u48(out: &mut Vec<u8>, n: u64) -> Result<(), AllocError>
    requires { n < 2 ^ 48 }
    ensures written { OnOk result (out.new.items ≡ out.old.items ++ big_bytes 6 n) }
    ensures unchanged { OnErr result (out.new.items ≡ out.old.items) }
    ensures full { OnErr result (vec_capacity out.old < vec_len out.old + 6) }
    ensures capacity { vec_capacity out.old ≤ vec_capacity out.new }
{
    let mut bytes = [0; 6];
    BigEndian::write_u48(&mut bytes, n);
    out.extend_from_slice(&bytes)
}

/// Appends the number as eight bytes.
pub fn put_u64(out: &mut Vec<u8>, n: u64) -> Result<(), AllocError>
    ensures written { OnOk result (out.new.items ≡ out.old.items ++ big_bytes 8 n) }
    ensures unchanged { OnErr result (out.new.items ≡ out.old.items) }
    ensures full { OnErr result (vec_capacity out.old < vec_len out.old + 8) }
    ensures capacity { vec_capacity out.old ≤ vec_capacity out.new }
{
    let mut bytes = [0; 8];
    BigEndian::write_u64(&mut bytes, n);
    out.extend_from_slice(&bytes)
}

/// Writes two bytes at `at`; all others stay.
pub fn set_u16(out: &mut [u8], at: usize, n: u16)
    requires { at + 2 ≤ length out.old }
    ensures written { take (at + 2) out.new ≡ take at out.old ++ big_bytes 2 n }
    ensures behind { drop (at + 2) out.new ≡ drop (at + 2) out.old }
{
    BigEndian::write_u16(&mut out[at..at + 2], n);
}

/// Writes four bytes at `at`; all others stay.
pub fn set_u32(out: &mut [u8], at: usize, n: u32)
    requires { at + 4 ≤ length out.old }
    ensures written { take (at + 4) out.new ≡ take at out.old ++ big_bytes 4 n }
    ensures behind { drop (at + 4) out.new ≡ drop (at + 4) out.old }
{
    BigEndian::write_u32(&mut out[at..at + 4], n);
}

/// Writes a number below 2^48 in six bytes at `at`; all others stay.
pub fn set_u48(out: &mut [u8], at: usize, n: u64)
    requires within { at + 6 ≤ length out.old }
    requires small { n < 2 ^ 48 }
    ensures written { take (at + 6) out.new ≡ take at out.old ++ big_bytes 6 n }
    ensures behind { drop (at + 6) out.new ≡ drop (at + 6) out.old }
{
    BigEndian::write_u48(&mut out[at..at + 6], n);
}
