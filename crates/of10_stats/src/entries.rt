//! The entries of statistics (OpenFlow 1.0.0, section 5.3.5).

ghost use Rattle.std.specs.Prelude.{◌≡◌, ◌≤◌, ◌<◌, ℕ, length, take, IfSome, IfNone};
ghost use Rattle.of10_stats.specs.declared.protocol.TheConstants.{FLOW};
ghost use Rattle.of10_stats.specs.Replies.{IsEntry, IsPortEntry, entry_port, entry_size_of, flow_length, flow_of, length_of};

use crate::protocol::{AGGREGATE, DESC, FLOW, PORT, QUEUE, TABLE};
use of10_match::Match;
use of10_model::wire::{u16_at, u64_at};

/// Bytes of a flow entry without its actions (OpenFlow 1.0.0, section 5.3.5).
const FLOW_ENTRY: u16 = 88;

/// Bytes of the shortest entry, which is a sum of flow entries (OpenFlow 1.0.0, section 5.3.5).
const LEAST: usize = 24;

// The length that a flow entry gives itself.
fn flow_length(bytes: &[u8]) -> Option<usize>
    requires { 2 ≤ length bytes.now }
    ensures { result ≡ flow_length bytes.now }
{
    let size = u16_at(bytes, 0);
    if size >= FLOW_ENTRY {
        Some(usize::from(size))
    } else {
        None
    }
}

// The length of the entry of the type that begins the bytes.
#[tactic(auto, unfolding(crate::specs::Replies::length_of))]
fn length_of(kind: u16, bytes: &[u8]) -> Option<usize>
    requires { 2 ≤ length bytes.now }
    ensures { result ≡ length_of kind bytes.now }
{
    match kind {
        DESC => Some(1056),
        FLOW => flow_length(bytes),
        AGGREGATE => Some(24),
        TABLE => Some(64),
        PORT => Some(104),
        QUEUE => Some(32),
        _ => None,
    }
}

#[tactic(auto, using(crate::proofs::Sizes::none_shorter))]
fn first_size(kind: u16, rest: &[u8]) -> Option<usize>
    ensures { result ≡ entry_size_of kind rest.now }
{
    if rest.len() < LEAST {
        return None;
    }
    match length_of(kind, rest) {
        Some(size) if size <= rest.len() => Some(size),
        _ => None,
    }
}

/// The size of the entry that begins the bytes, in bytes, for this type of statistics; none where no
/// whole well-formed entry does (OpenFlow 1.0.0, section 5.3.5).
pub fn entry_size(kind: u16, rest: &[u8]) -> Option<usize>
    ensures value { result ≡ entry_size_of kind rest.now }
    ensures some { IfSome result (λ n. 0 < n) }
    ensures inside { IfSome result (λ n. n ≤ length rest.now) }
    ensures entry { IfSome result (λ n. IsEntry kind (take n rest.now)) }
    ensures none { IfNone result ((n : ℕ) → n ≤ length rest.now → IsEntry kind (take n rest.now) → ⊥) }
{
    first_size(kind, rest)
}

/// The match of a flow entry, and how many packets and bytes it had (OpenFlow 1.0.0, section 5.3.5).
#[tactic(auto, using(crate::proofs::Sizes::flow_is_long))]
pub fn flow_entry(entry: &[u8]) -> (Match, u64, u64)
    requires { IsEntry FLOW entry.now }
    ensures { result ≡ flow_of entry.now }
{
    (
        Match::decode_at(entry, 4),
        u64_at(entry, 72),
        u64_at(entry, 80),
    )
}

/// The port of an entry of a port or of a queue (OpenFlow 1.0.0, section 5.3.5).
#[tactic(auto, using(crate::proofs::Sizes::port_is_long))]
pub fn entry_port(entry: &[u8]) -> u16
    requires { IsPortEntry entry.now }
    ensures { result ≡ entry_port entry.now }
{
    u16_at(entry, 0)
}
