//! Identifiers and addresses that texts name.

ghost use Rattle.std.specs.Prelude.{◌≡◌, ◌≤◌, ◌<◌, ◌+◌, ◌*◌, IfSome, length, option_map, true};
ghost use Rattle.address_text.specs.Addresses.{behind_byte, bits_after, prefix_length, datapath_id, digit_at, digits_at, dotted_at, hardware_address, has_colons, hex_after, hex_digit, octet_at, pair_at, prefix, six_pairs, with_digit};

use of10_model::Prefix;

// ---- hex

fn hex_digit(c: u8) -> Option<u64>
    ensures value { result ≡ hex_digit c }
    ensures small { IfSome result (λ digit. digit < 16) }
{
    match c {
        b'0'..=b'9' => Some(u64::from(c - b'0')),
        b'a'..=b'f' => Some(u64::from(c - b'a' + 10)),
        _ => None,
    }
}

fn hex_number(text: &[u8]) -> Option<u64>
    requires { length text.now ≤ 16 }
    ensures { result ≡ hex_after 0 text.now }
{
    let mut number = 0;
    for c in text {
        number = number * 16 + hex_digit(*c)?;
    }
    Some(number)
}

/// The number of 16 lower-case hex digits.
#[tactic(auto, unfolding(crate::specs::Addresses::datapath_id))]
pub fn datapath_id(text: &[u8]) -> Option<u64>
    ensures { result ≡ datapath_id text.now }
{
    if text.len() == 16 {
        hex_number(text)
    } else {
        None
    }
}

fn pair_at(text: &[u8], at: usize) -> Option<u64>
    requires { at + 2 ≤ length text.now }
    ensures value { result ≡ pair_at text.now at }
    ensures small { IfSome result (λ pair. pair < 256) }
{
    let high = hex_digit(text[at])?;
    let low = hex_digit(text[at + 1])?;
    Some(high * 16 + low)
}

fn has_colons(text: &[u8]) -> bool
    ensures value { result ≡ has_colons text.now }
    ensures whole { result ≡ true → length text.now ≡ 17 }
{
    text.len() == 17
        && text[2] == b':'
        && text[5] == b':'
        && text[8] == b':'
        && text[11] == b':'
        && text[14] == b':'
}

#[tactic(auto, unfolding(crate::specs::Addresses::six_pairs))]
fn six_pairs(text: &[u8]) -> Option<u64>
    requires { length text.now ≡ 17 }
    ensures { result ≡ six_pairs text.now }
{
    let a = pair_at(text, 0)?;
    let b = pair_at(text, 3)?;
    let c = pair_at(text, 6)?;
    let d = pair_at(text, 9)?;
    let e = pair_at(text, 12)?;
    let f = pair_at(text, 15)?;
    Some(((((a * 256 + b) * 256 + c) * 256 + d) * 256 + e) * 256 + f)
}

/// The number of six pairs of lower-case hex digits with colons between them.
pub fn hardware_address(text: &[u8]) -> Option<u64>
    ensures { result ≡ hardware_address text.now }
{
    if has_colons(text) {
        six_pairs(text)
    } else {
        None
    }
}

// ---- decimal

fn digit_at(text: &[u8]) -> Option<(u32, &[u8])>
    ensures value { option_map (λ d. (d.0, d.1.now)) result ≡ digit_at text.now }
    ensures small { IfSome result (λ d. d.0 < 10) }
{
    match text {
        [c, rest @ ..] if c.is_ascii_digit() => Some((u32::from(*c - b'0'), rest)),
        _ => None,
    }
}

fn with_digit(number: u32, text: &[u8]) -> (u32, &[u8])
    requires { number < 1000 }
    ensures value { (result.0, result.1.now) ≡ with_digit (number, text.now) }
    ensures small { result.0 < number * 10 + 10 }
{
    match digit_at(text) {
        Some((digit, rest)) => (number * 10 + digit, rest),
        None => (number, text),
    }
}

fn digits_at(text: &[u8]) -> Option<(u32, &[u8])>
    ensures { option_map (λ n. (n.0, n.1.now)) result ≡ digits_at text.now }
{
    let (first, rest) = digit_at(text)?;
    if first == 0 {
        return Some((0, rest));
    }
    let (two, rest) = with_digit(first, rest);
    Some(with_digit(two, rest))
}

#[tactic(auto, unfolding(crate::specs::Addresses::octet_at))]
fn octet_at(text: &[u8]) -> Option<(u32, &[u8])>
    ensures value { option_map (λ n. (n.0, n.1.now)) result ≡ octet_at text.now }
    ensures small { IfSome result (λ n. n.0 ≤ 255) }
{
    let (number, rest) = digits_at(text)?;
    if number <= 255 {
        Some((number, rest))
    } else {
        None
    }
}

fn after(byte: u8, text: &[u8]) -> Option<&[u8]>
    ensures { option_map (λ rest. rest.now) result ≡ behind_byte byte text.now }
{
    match text {
        [c, rest @ ..] if *c == byte => Some(rest),
        _ => None,
    }
}

#[tactic(auto, unfolding(crate::specs::Addresses::dotted_at))]
fn dotted_at(text: &[u8]) -> Option<(u32, &[u8])>
    ensures { option_map (λ n. (n.0, n.1.now)) result ≡ dotted_at text.now }
{
    let (a, rest) = octet_at(text)?;
    let (b, rest) = octet_at(after(b'.', rest)?)?;
    let (c, rest) = octet_at(after(b'.', rest)?)?;
    let (d, rest) = octet_at(after(b'.', rest)?)?;
    Some((((a * 256 + b) * 256 + c) * 256 + d, rest))
}

fn bits_of(number: u32, rest: &[u8]) -> Option<u8>
    ensures value { result ≡ prefix_length (number, rest.now) }
    ensures range { IfSome result (λ bits. (1 ≤ bits) × (bits ≤ 32)) }
{
    if 1 <= number && number <= 32 && rest.is_empty() {
        Some(number as u8)
    } else {
        None
    }
}

fn bits_after(text: &[u8]) -> Option<u8>
    ensures value { result ≡ bits_after text.now }
    ensures range { IfSome result (λ bits. (1 ≤ bits) × (bits ≤ 32)) }
{
    if text.is_empty() {
        return Some(32);
    }
    let (number, rest) = octet_at(after(b'/', text)?)?;
    bits_of(number, rest)
}

/// The addresses that `a.b.c.d` or `a.b.c.d/n` names; the low bits are disregarded.
#[tactic(auto, unfolding(crate::specs::Addresses::prefix))]
pub fn prefix(text: &[u8]) -> Option<Prefix>
    ensures { result ≡ prefix text.now }
{
    let (address, rest) = dotted_at(text)?;
    let bits = bits_after(rest)?;
    Some(Prefix::leading(address, bits))
}
