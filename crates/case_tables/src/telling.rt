//! What is said of policies that are read and printed, and of words that are read.

use crate::calls::words_in;
use crate::fault::Fault;
use fv_base::read_words;
use policy_text::{ReadFault, print, read};
use std::alloc::{AllocError, Global};

fn fault_text(alloc: Global, fault: ReadFault) -> Result<String, AllocError> {
    match fault {
        ReadFault::NotToml => String::from_str(alloc, "not TOML"),
        ReadFault::Missing(place) => format!(in alloc; "missing {place}"),
        ReadFault::BadValue(place) => format!(in alloc; "bad value {place}"),
        ReadFault::UnknownKey(place) => format!(in alloc; "unknown key {place}"),
        ReadFault::Improper(rule, field) => format!(in alloc; "improper {rule} {field:?}"),
        ReadFault::Refused(fault) => format!(in alloc; "{fault:?}"),
        ReadFault::Memory => String::from_str(alloc, "memory"),
    }
}

/// What is said of reading the policy: how many slices and rules it has, or what is wrong with it.
fn read_text(alloc: Global, text: &[u8]) -> Result<String, AllocError> {
    match read(alloc, text) {
        Ok(policy) => { format!(in alloc; "ok {} {}", policy.slices().len(), policy.rules().len()) }
        Err(fault) => fault_text(alloc, fault),
    }
}

/// The same where this stands in the place of `...`; of a policy that has none, where it is empty.
pub(crate) fn read_with(alloc: Global, policy: &[u8], given: &str) -> Result<String, Fault> {
    if given.is_empty() {
        return Ok(read_text(alloc, policy)?);
    }
    let text = std::str::from_utf8(policy).unwrap_or("");
    let parts = text.split_once("...");
    let (before, behind) = parts.ok_or(Fault::Bad("the policy has no place for a row"))?;
    let whole = [before, given, behind].concat(alloc)?;
    Ok(read_text(alloc, whole.as_bytes())?)
}

/// What the policy that is read of the text is printed as.
fn printed(alloc: Global, text: &[u8]) -> Result<String, Fault> {
    let policy = read(alloc, text).ok();
    let policy = policy.ok_or(Fault::Bad("the text is no policy"))?;
    let bytes = print(alloc, &policy)?;
    let text = std::str::from_utf8(bytes.as_slice()).ok();
    let text = text.ok_or(Fault::Bad("a printed policy is no text"))?;
    Ok(String::from_str(alloc, text)?)
}

/// What is said of printing the policy that is read of the text: that its text is the same, and the same once
/// more; or else the text.
pub(crate) fn print_text(alloc: Global, text: &[u8]) -> Result<String, Fault> {
    let once = printed(alloc, text)?;
    let twice = printed(alloc, once.as_bytes())?;
    if once.as_bytes() == text && twice.as_bytes() == text {
        Ok(String::from_str(alloc, "as it was read")?)
    } else {
        Ok(once)
    }
}

/// What is said of reading the words.
pub(crate) fn form_text(alloc: Global, words: &str) -> Result<String, Fault> {
    let words = words_in(alloc, words)?;
    Ok(match read_words(&words) {
        Ok(form) => format!(in alloc; "{form:?}")?,
        Err(fault) => format!(in alloc; "{fault:?}")?,
    })
}
