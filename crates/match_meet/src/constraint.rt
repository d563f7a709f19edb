//! Two constraints on one field.

ghost use Rattle.std.specs.Prelude.{◌≡◌, is_none};
ghost use Rattle.of10_model.specs.Normal.{IsPrefix};
ghost use Rattle.of10_model.specs.Meet.{both, both_prefix};
ghost use Rattle.of10_model.specs.Inclusion.{covers, covers_prefix};

use of10_model::Prefix;

// ---- what both allow: `None` where no value meets both

pub fn both_u8(a: Option<u8>, b: Option<u8>) -> Option<Option<u8>>
    ensures { result ≡ both a b }
{
    match (a, b) {
        (None, other) => Some(other),
        (value, None) => Some(value),
        (Some(x), Some(y)) => (x == y).then_some(a),
    }
}

pub fn both_u16(a: Option<u16>, b: Option<u16>) -> Option<Option<u16>>
    ensures { result ≡ both a b }
{
    match (a, b) {
        (None, other) => Some(other),
        (value, None) => Some(value),
        (Some(x), Some(y)) => (x == y).then_some(a),
    }
}

pub fn both_u64(a: Option<u64>, b: Option<u64>) -> Option<Option<u64>>
    ensures { result ≡ both a b }
{
    match (a, b) {
        (None, other) => Some(other),
        (value, None) => Some(value),
        (Some(x), Some(y)) => (x == y).then_some(a),
    }
}

/// The longer prefix, where it begins as the shorter one does.
pub fn both_prefix(a: Option<Prefix>, b: Option<Prefix>) -> Option<Option<Prefix>>
    requires first { IsPrefix a }
    requires second { IsPrefix b }
    ensures { result ≡ both_prefix a b }
{
    match (a, b) {
        (None, other) => Some(other),
        (prefix, None) => Some(prefix),
        (Some(p), Some(q)) => {
            if p.bits <= q.bits {
                p.begins(q.value).then_some(b)
            } else {
                q.begins(p.value).then_some(a)
            }
        }
    }
}

// ---- whether no value meets both

pub fn differ_u8(a: Option<u8>, b: Option<u8>) -> bool
    ensures { result ≡ is_none (both a b) }
{
    a.is_some_and(|x| b.is_some_and(|y| x != y))
}

pub fn differ_u16(a: Option<u16>, b: Option<u16>) -> bool
    ensures { result ≡ is_none (both a b) }
{
    a.is_some_and(|x| b.is_some_and(|y| x != y))
}

pub fn differ_u64(a: Option<u64>, b: Option<u64>) -> bool
    ensures { result ≡ is_none (both a b) }
{
    a.is_some_and(|x| b.is_some_and(|y| x != y))
}

pub fn differ_prefix(a: Option<Prefix>, b: Option<Prefix>) -> bool
    requires first { IsPrefix a }
    requires second { IsPrefix b }
    ensures { result ≡ is_none (both_prefix a b) }
{
    match (a, b) {
        (Some(p), Some(q)) => {
            if p.bits <= q.bits {
                !p.begins(q.value)
            } else {
                !q.begins(p.value)
            }
        }
        _ => false,
    }
}

// ---- whether the first allows each value of the second

pub fn covers_u8(a: Option<u8>, b: Option<u8>) -> bool
    ensures { result ≡ covers a b }
{
    a.is_none_or(|x| b.is_some_and(|y| y == x))
}

pub fn covers_u16(a: Option<u16>, b: Option<u16>) -> bool
    ensures { result ≡ covers a b }
{
    a.is_none_or(|x| b.is_some_and(|y| y == x))
}

pub fn covers_u64(a: Option<u64>, b: Option<u64>) -> bool
    ensures { result ≡ covers a b }
{
    a.is_none_or(|x| b.is_some_and(|y| y == x))
}

/// Whether the second prefix is no shorter and begins as the first one does.
pub fn covers_prefix(a: Option<Prefix>, b: Option<Prefix>) -> bool
    requires { IsPrefix a }
    ensures { result ≡ covers_prefix a b }
{
    match (a, b) {
        (None, _) => true,
        (Some(_), None) => false,
        (Some(p), Some(q)) => p.bits <= q.bits && p.begins(q.value),
    }
}
