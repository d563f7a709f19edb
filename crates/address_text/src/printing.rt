//! Texts of identifiers and addresses.

ghost use Rattle.std.specs.Prelude.{◌≡◌, ◌++◌, ◌∷◌, [], ◌<◌, IfOk, OnOk, string_bytes};
ghost use Rattle.address_text.specs.Texts.{hardware_text, hex_glyph, hex_text, pair_text, prefix_text};

use of10_model::Prefix;
use std::alloc::{AllocError, Global};

fn hex_glyph(n: u64) -> u8
    requires { n < 16 }
    ensures value { result ≡ hex_glyph n }
    ensures ascii { result < 128 }
{
    if n < 10 { 48 + n as u8 } else { 87 + n as u8 }
}

fn push_byte(out: &mut String, byte: u8) -> Result<(), AllocError>
    requires { byte < 128 }
    ensures { OnOk result (string_bytes out.new ≡ string_bytes out.old ++ byte ∷ []) }
{
    out.push(char::from(byte))
}

#[tactic(auto, unfolding(crate::specs::Texts::hex_text))]
fn push_hex(out: &mut String, n: u64) -> Result<(), AllocError>
    ensures { OnOk result (string_bytes out.new ≡ string_bytes out.old ++ hex_text 16 n) }
{
    let mut left = 16u32;
    while left > 0 {
        left -= 1;
        push_byte(out, hex_glyph((n >> (4 * left)) % 16))?;
    }
    Ok(())
}

fn push_pair(out: &mut String, n: u64) -> Result<(), AllocError>
    ensures { OnOk result (string_bytes out.new ≡ string_bytes out.old ++ pair_text n) }
{
    push_byte(out, hex_glyph((n / 16) % 16))?;
    push_byte(out, hex_glyph(n % 16))
}

/// The 16 lower-case hex digits of a datapath id.
pub fn datapath_text(alloc: Global, n: u64) -> Result<String, AllocError>
    ensures { IfOk result (λ s. string_bytes s ≡ hex_text 16 n) }
{
    let mut text = String::with_capacity(alloc, 16)?;
    push_hex(&mut text, n)?;
    Ok(text)
}

/// A hardware address as six pairs of lower-case hex digits with colons between them; what is above 48 bits is
/// left out.
#[tactic(auto, unfolding(crate::specs::Texts::hardware_text))]
pub fn hardware_text(alloc: Global, n: u64) -> Result<String, AllocError>
    ensures { IfOk result (λ s. string_bytes s ≡ hardware_text n) }
{
    let mut text = String::with_capacity(alloc, 17)?;
    push_pair(&mut text, n / 0x100_0000_0000 % 256)?;
    text.push_str(":")?;
    push_pair(&mut text, n / 0x1_0000_0000 % 256)?;
    text.push_str(":")?;
    push_pair(&mut text, n / 0x100_0000 % 256)?;
    text.push_str(":")?;
    push_pair(&mut text, n / 0x1_0000 % 256)?;
    text.push_str(":")?;
    push_pair(&mut text, n / 0x100 % 256)?;
    text.push_str(":")?;
    push_pair(&mut text, n % 256)?;
    Ok(text)
}

/// Network addresses as `a.b.c.d/n`; where it is one alone, as `a.b.c.d`.
#[tactic(auto, unfolding(crate::specs::Texts::prefix_text))]
pub fn prefix_text(alloc: Global, p: &Prefix) -> Result<String, AllocError>
    ensures { IfOk result (λ s. string_bytes s ≡ prefix_text p.now) }
{
    let (a, b) = (p.value / 0x100_0000 % 256, p.value / 0x1_0000 % 256);
    let (c, d) = (p.value / 0x100 % 256, p.value % 256);
    let bits = p.bits;
    let mut text = format!(in alloc; "{a}.{b}.{c}.{d}")?;
    if bits != 32 {
        write!(text, "/{bits}")?;
    }
    Ok(text)
}
