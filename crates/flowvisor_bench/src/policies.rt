//! The texts of policies to measure with. No two rules of one share a header, so that each pair of them is
//! compared.

use flowspace::Policy;
use flowspace::limits::{RULES, SLICES, WRITES};
use policy_text::read;
use std::alloc::{AllocError, Global};

/// The TCP port of the first of the crowded slice's rules.
pub const FIRST_PORT: u16 = 2_000;

/// The TCP port of the last of them: there are as many as a slice may write.
pub const LAST_PORT: u16 = 2_255;

/// The TCP port of the first rule of the slices beside it.
const OTHER_PORT: usize = 10_000;

/// The slices beside the crowded one.
const OTHERS: usize = SLICES - 1;

/// So many slices share the rules of a wide policy.
const SHARING: usize = 8;

/// Lines of a slice that may send as many messages and have as many entries as a slice may.
const AMPLE: &str = "rate = 1000000\nburst = 1000000\nquota = 4096\n";

/// Appends a number between two texts.
pub fn put(text: &mut String, before: &str, number: usize, behind: &str) -> Result<(), AllocError> {
    write!(text, "{before}{number}{behind}")
}

/// Adds a rule: a TCP port of its own, written by the slice at a slot.
pub fn add_rule(text: &mut String, slot: usize, port: usize) -> Result<(), AllocError> {
    put(
        text,
        "[[rule]]\npriority = 7\nwrite = \"slice",
        slot,
        "\"\n",
    )?;
    put(text, "dl_type = 2048\nnw_proto = 6\ntp_dst = ", port, "\n")
}

/// The text of a policy of so many slices without rules. Each has these lines too.
pub fn slices(alloc: Global, count: usize, lines: &str) -> Result<String, AllocError> {
    const CONTROLLER: &str = "\"\ncontroller = \"127.0.0.1:6633\"\n";
    let mut text = String::from_str(alloc, "version = 1\n")?;
    for slot in 0..count {
        put(&mut text, "[[slice]]\nname = \"slice", slot, CONTROLLER)?;
        text.push_str(lines)?;
    }
    Ok(text)
}

/// Has all other slices read what the last rule has.
fn add_readers(text: &mut String) -> Result<(), AllocError> {
    text.push_str("read = [\"slice1\"")?;
    for slot in 2..SLICES {
        put(text, ", \"slice", slot, "\"")?;
    }
    text.push_str("]\n")
}

/// The text of a policy with as many rules as one may have, each for a TCP port of its own, which so many slices
/// write in turn.
fn shared(alloc: Global, slice_count: usize) -> Result<String, AllocError> {
    let mut text = slices(alloc, slice_count, "")?;
    for number in 0..RULES {
        add_rule(&mut text, number % slice_count.max(1), number)?;
    }
    Ok(text)
}

/// The text of a policy with as many rules as one may have, in as many slices.
pub fn largest(alloc: Global) -> Result<String, AllocError> {
    shared(alloc, SLICES)
}

/// The same, but that the first slice is crowded. It writes as many of the rules as it may, each for a TCP
/// port of its own, and also for a port of entry of its own where these are named. All other slices read what
/// the last of these rules has.
pub fn crowded(alloc: Global, are_named: bool) -> Result<String, AllocError> {
    let mut text = slices(alloc, SLICES, AMPLE)?;
    for place in 0..WRITES {
        add_rule(&mut text, 0, usize::from(FIRST_PORT) + place)?;
        if are_named {
            put(&mut text, "in_port = ", 1 + place, "\n")?;
        }
    }
    add_readers(&mut text)?;
    for number in 0..RULES - WRITES {
        add_rule(&mut text, 1 + number % OTHERS, OTHER_PORT + number)?;
    }
    Ok(text)
}

/// The text of a policy of eight slices with a rule for TCP port 80, which the first of them writes, and one
/// for port 22.
pub fn narrow(alloc: Global) -> Result<String, AllocError> {
    let mut text = slices(alloc, SHARING, "")?;
    add_rule(&mut text, 0, 80)?;
    add_rule(&mut text, 6, 22)?;
    Ok(text)
}

/// The same with as many rules as a policy may have, each for a TCP port of its own.
pub fn wide(alloc: Global) -> Result<String, AllocError> {
    shared(alloc, SHARING)
}

/// The policy that a text says; each text here says one.
pub fn load(alloc: Global, text: &str) -> Result<Policy, AllocError> {
    match read(alloc, text.as_bytes()) {
        Ok(policy) => Ok(policy),
        Err(_) => Err(AllocError),
    }
}

/// Reads the text so often and loads what it says, and counts the policies that are accepted.
pub fn check(alloc: Global, text: &str, count: u64) -> u64 {
    let mut accepted = 0u64;
    for _ in 0..count {
        if load(alloc, text).is_ok() {
            accepted = accepted.saturating_add(1);
        }
    }
    accepted
}
