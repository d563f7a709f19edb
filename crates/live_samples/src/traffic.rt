//! What switches and controllers were sent.

use fv_live::SharedBytes;
use std::alloc::{AllocError, Global};
use std::sync::{Arc, Wait};

/// The bytes that one connection was sent.
pub type Sent = Arc<SharedBytes, Global>;

/// So many connections that were sent nothing.
pub fn nothing(alloc: Global, count: usize) -> Result<Vec<Sent>, AllocError> {
    let mut sent = Vec::with_capacity(alloc, count)?;
    for _ in 0..count {
        sent.push(Arc::new(alloc, SharedBytes::new(alloc))?)?;
    }
    Ok(sent)
}

/// Shares of the same.
pub fn shares(alloc: Global, each: &[Sent]) -> Result<Vec<Sent>, AllocError> {
    let mut shares = Vec::with_capacity(alloc, each.len())?;
    for sent in each {
        shares.push(Arc::try_clone(sent)?)?;
    }
    Ok(shares)
}

// Whether the bytes hold the part.
fn holds(bytes: &[u8], part: &[u8]) -> bool {
    if part.is_empty() {
        return true;
    }
    bytes.windows(part.len()).any(|window| window == part)
}

/// Whether each connection was sent the part, among other things.
pub fn all_hold<R: Wait>(rt: &R, alloc: Global, each: &[Sent], part: &[u8]) -> bool {
    for sent in each {
        let Ok(bytes) = sent.so_far(rt, alloc) else {
            return false;
        };
        if !holds(&bytes, part) {
            return false;
        }
    }
    true
}
