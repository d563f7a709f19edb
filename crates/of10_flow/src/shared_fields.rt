//! Fields that stand in more than one message (OpenFlow 1.0.0, sections 5.3.3, 5.3.6 and 5.4.2).

ghost use Rattle.std.specs.Prelude.{◌≡◌, ◌++◌, length, OnOk};
ghost use Rattle.byteorder.specs.Endian.{big_bytes};
ghost use Rattle.of10_model.specs.Spelling.{Spell};

use of10_match::Match;
use of10_model::wire::{put_u16, put_u32, put_u64};
use std::alloc::AllocError;

/// Appends the 40 bytes of an entry's match, its cookie and the number behind it.
pub fn put_entry(
    out: &mut Vec<u8>,
    pattern: &Match,
    cookie: u64,
    number: u16,
) -> Result<(), AllocError>
    ensures written { OnOk result (out.new.items ≡ out.old.items ++ (Spell pattern.now ++ big_bytes 8 cookie ++ big_bytes 2 number)) }
    ensures size { length (Spell pattern.now) ≡ 40 }
{
    out.extend_from_slice(&pattern.encode())?;
    put_u64(out, cookie)?;
    put_u16(out, number)
}

/// Appends a buffer, a port and the number behind them.
pub fn put_buffer(out: &mut Vec<u8>, buffer: u32, port: u16, number: u16) -> Result<(), AllocError>
    ensures { OnOk result (out.new.items ≡ out.old.items ++ (big_bytes 4 buffer ++ big_bytes 2 port ++ big_bytes 2 number)) }
{
    put_u32(out, buffer)?;
    put_u16(out, port)?;
    put_u16(out, number)
}
