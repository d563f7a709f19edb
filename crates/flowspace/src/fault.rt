//! Why a policy isn't accepted.

use std::fmt;

/// What a policy has too many of.
#[derive(Clone, Copy, Debug, PartialEq, Eq)]
pub enum What {
    Slices,
    Rules,
    /// Rules that one slice may write.
    Writes,
    Swaps,
}

/// A part of a rule: its readers, or one of the twelve fields of its match.
#[derive(Clone, Copy, PartialEq, Eq)]
pub enum Field {
    Read,
    InPort,
    DlSrc,
    DlDst,
    DlVlan,
    DlVlanPcp,
    DlType,
    NwTos,
    NwProto,
    NwSrc,
    NwDst,
    TpSrc,
    TpDst,
}

/// The names of the fields, in their order.
const FIELD_NAMES: [&str; 13] = [
    "Read",
    "InPort",
    "DlSrc",
    "DlDst",
    "DlVlan",
    "DlVlanPcp",
    "DlType",
    "NwTos",
    "NwProto",
    "NwSrc",
    "NwDst",
    "TpSrc",
    "TpDst",
];

// By a table: of a derived one the proof takes half a minute.
impl fmt::Debug for Field {
    fn fmt<W: fmt::Write>(&self, f: &mut fmt::Formatter<W>) -> fmt::Result {
        f.write_str(FIELD_NAMES.get(*self as usize).copied().unwrap_or(""))
    }
}

/// Why a policy isn't accepted. Slices, rules and swaps are named by their place in the policy, from 0.
#[derive(Clone, Copy, Debug, PartialEq, Eq)]
pub enum PolicyFault {
    /// There are so many, which is more than the limit.
    TooMany(What, u64),
    /// An earlier slice has this slice's name.
    DuplicateSlice(u64),
    /// The rule names a slice that isn't there.
    UnknownSlice(u64),
    /// The rule has a field that may not stand there.
    Improper(u64, Field),
    /// The first rule comes before the second and shares a header with it, and isn't written by the
    /// slice that writes the second.
    Overlap(u64, u64),
    /// The swap is of a slice that isn't there.
    UnknownPortSlice(u64),
    /// The swap names a number that an earlier swap of its slice names on a common switch.
    PortTwice(u64),
    /// Out of memory.
    Memory,
}
