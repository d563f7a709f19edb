//! The forms of the values under keys.

ghost use Rattle.std.specs.Prelude.{◌≡◌, ◌≤◌, true, IfOk, IfSome, map, option_map};
ghost use Rattle.toml.specs.Text.{are_tables, has_items};
ghost use Rattle.toml.specs.View.{items_view, view};
ghost use Rattle.policy_text.specs.Reading.{addresses, each_text, greatest, is_allowed_number, is_text, number, numeral, numeral_of, some_tables, tables, text, text_list};

use address_text::{datapath_id, hardware_address, prefix};
use flowspace::{is_controller, is_in_port, is_name, is_vlan};
use of10_model::Prefix;
use std::alloc::{AllocError, Global};
use toml::Value;

/// The numbers that a field may have.
#[derive(Clone, Copy)]
pub enum Numbers {
    UpTo(u32),
    /// Both ends are counted.
    Between(u32, u32),
    /// Physical ports and the switch's own (OpenFlow 1.0.0, section 5.2.1).
    InPort,
    /// VLANs, and the mark of an untagged packet (OpenFlow 1.0.0, section 5.2.3).
    Vlan,
    /// Types of service, whose two low bits are zero (OpenFlow 1.0.0, section 5.2.3).
    Service,
}

/// Numbers that are written as texts.
#[derive(Clone, Copy)]
pub enum Numerals {
    /// 16 hex digits.
    Datapath,
    /// Six pairs of hex digits, with colons between them.
    Hardware,
}

/// The texts that a field may have.
#[derive(Clone, Copy)]
pub enum Texts {
    /// 1 to 32 letters a to z, digits, `_` and `-`.
    Name,
    /// 1 to 255 bytes.
    Controller,
    Any,
}

fn is_number(numbers: Numbers, n: u32) -> bool
    ensures value { result ≡ is_allowed_number numbers n }
    ensures limit { result ≡ true → n ≤ greatest numbers }
{
    match numbers {
        Numbers::UpTo(high) => n <= high,
        Numbers::Between(low, high) => low <= n && n <= high,
        Numbers::InPort => u16::try_from(n).is_ok_and(|port| is_in_port(port)),
        Numbers::Vlan => u16::try_from(n).is_ok_and(|vlan| is_vlan(vlan)),
        Numbers::Service => n <= 252 && n % 4 == 0,
    }
}

/// An integer that the field may have.
pub fn number(numbers: Numbers, value: &Value) -> Option<u32>
    ensures value { result ≡ number numbers (view value.now) }
    ensures limit { IfSome result (λ n. n ≤ greatest numbers) }
{
    match value.as_integer() {
        Some(n) if 0 <= n && n <= 0xffff_ffff && is_number(numbers, n as u32) => Some(n as u32),
        _ => None,
    }
}

fn is_text(texts: Texts, text: &str) -> bool
    ensures { result ≡ is_text texts text.now }
{
    match texts {
        Texts::Name => is_name(text),
        Texts::Controller => is_controller(text),
        Texts::Any => true,
    }
}

/// A text that the field may have.
pub fn text(texts: Texts, value: &Value) -> Option<&str>
    ensures { option_map (λ s. s.now) result ≡ text texts (view value.now) }
{
    match value.as_str() {
        Some(text) if is_text(texts, text) => Some(text),
        _ => None,
    }
}

fn each_text(alloc: Global, values: &[Value]) -> Result<Option<Vec<&str>>, AllocError>
    ensures { IfOk result (λ o. option_map (λ v. map (λ s. s.now) v.items) o ≡ each_text (items_view values.now)) }
{
    let mut texts = Vec::new(alloc);
    for value in values {
        match value.as_str() {
            Some(text) => texts.push(text)?,
            None => return Ok(None),
        }
    }
    Ok(Some(texts))
}

/// The texts of an array of texts.
pub fn text_list(alloc: Global, value: &Value) -> Result<Option<Vec<&str>>, AllocError>
    ensures { IfOk result (λ o. option_map (λ v. map (λ s. s.now) v.items) o ≡ text_list (view value.now)) }
{
    match value.as_array() {
        Some(values) => each_text(alloc, values),
        None => Ok(None),
    }
}

fn numeral_of(kind: Numerals, text: &str) -> Option<u64>
    ensures { result ≡ numeral_of kind text.now }
{
    match kind {
        Numerals::Datapath => datapath_id(text.as_bytes()),
        Numerals::Hardware => hardware_address(text.as_bytes()),
    }
}

/// A number that is written as a text.
pub fn numeral(kind: Numerals, value: &Value) -> Option<u64>
    ensures { result ≡ numeral kind (view value.now) }
{
    match value.as_str() {
        Some(text) => numeral_of(kind, text),
        None => None,
    }
}

/// The addresses that a text names.
pub fn addresses(value: &Value) -> Option<Prefix>
    ensures { result ≡ addresses (view value.now) }
{
    match value.as_str() {
        Some(text) => prefix(text.as_bytes()),
        None => None,
    }
}

fn are_tables(values: &[Value]) -> bool
    ensures { result ≡ are_tables (items_view values.now) }
{
    let mut rest = values;
    while let [first, after @ ..] = rest {
        if first.as_table().is_none() {
            return false;
        }
        rest = after;
    }
    true
}

/// The items of an array of tables.
pub fn tables(value: &Value) -> Option<&[Value]>
    ensures { option_map (λ v. items_view v.now) result ≡ tables (view value.now) }
{
    match value.as_array() {
        Some(values) if are_tables(values) => Some(values),
        _ => None,
    }
}

fn has_items(values: &[Value]) -> bool
    ensures { result ≡ has_items (items_view values.now) }
{
    !values.is_empty()
}

/// The items of an array of one or more tables.
pub fn some_tables(value: &Value) -> Option<&[Value]>
    ensures { option_map (λ v. items_view v.now) result ≡ some_tables (view value.now) }
{
    match value.as_array() {
        Some(values) if has_items(values) && are_tables(values) => Some(values),
        _ => None,
    }
}
