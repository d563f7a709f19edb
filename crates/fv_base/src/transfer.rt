//! Whole transfers over the traits of the outside: all bytes put, a whole file loaded.

ghost use Rattle.std.specs.Prelude.{◌≡◌, ◌≤◌, ◌<◌, ℕ, List, length, IfOk, IfErr, IfSome, OnOk, OnErr};
ghost use Rattle.fv_base.specs.Told.{appended, IsBeginning, Rose, CountedAt};

use super::{Failed, Files, Sink};
use std::alloc::Global;
use thiserror::Error;

/// How many bytes of a file are read at once: 1 MiB.
const PIECE: usize = 1_048_576;

/// Why a file wasn't loaded.
#[derive(Clone, Copy, Debug, PartialEq, Eq, Error)]
pub enum LoadFault {
    /// A read failed.
    #[error("the file can't be read")]
    ReadFault,
    /// The file has more bytes than its limit.
    #[error("the file is too large")]
    TooLarge,
    /// Memory ran out.
    #[error("out of memory")]
    Memory,
}

/// Puts all of `bytes`. After `Failed` the sink took the first of them, perhaps none.
pub fn put_all<K: Sink>(sink: &mut K, bytes: &[u8]) -> Result<(), Failed>
    ensures all { OnOk result (K.contents sink.new ≡ appended (K.contents sink.old) bytes.now) }
    ensures part { OnErr result ((piece : List ℕ) × IsBeginning piece bytes.now × (K.contents sink.new ≡ appended (K.contents sink.old) piece)) }
    ensures cause { OnErr result (Rose (K.faults sink.old) (K.faults sink.new)) }
    ensures calm { OnOk result (K.faults sink.new ≡ K.faults sink.old) }
    ensures count { K.faults sink.old ≤ K.faults sink.new }
{
    let mut done = 0;
    while done < bytes.len() {
        done += sink.put(&bytes[done..])?;
    }
    Ok(())
}

/// Loads the whole file at `path`, of at most `limit` bytes.
pub fn load_file<F: Files>(
    alloc: Global,
    files: &mut F,
    path: &str,
    limit: u64,
) -> Result<Vec<u8>, LoadFault>
    ensures within { IfOk result (λ file. length file.items ≤ limit) }
    ensures whole { IfOk result (λ file. IfSome (F.contents files.old path.now) (λ bytes. file.items ≡ bytes)) }
    ensures cause { CountedAt path.now result (F.faults files.old) (F.faults files.new) }
    ensures large { IfErr result (λ fault. fault ≡ LoadFault.TooLarge → IfSome (F.contents files.old path.now) (λ bytes. limit < length bytes)) }
    ensures same { (at : List ℕ) → F.contents files.new at ≡ F.contents files.old at }
    ensures count { (at : List ℕ) → F.faults files.old at ≤ F.faults files.new at }
{
    let Ok(mut buffer) = vec![in alloc; 0; PIECE] else {
        return Err(LoadFault::Memory);
    };
    gather(alloc, files, path, limit, &mut buffer)
}

// The file, read into the buffer piece by piece.
fn gather<F: Files>(
    alloc: Global,
    files: &mut F,
    path: &str,
    limit: u64,
    buffer: &mut [u8],
) -> Result<Vec<u8>, LoadFault>
    requires { 0 < length buffer.old }
    ensures within { IfOk result (λ file. length file.items ≤ limit) }
    ensures whole { IfOk result (λ file. IfSome (F.contents files.old path.now) (λ bytes. file.items ≡ bytes)) }
    ensures cause { CountedAt path.now result (F.faults files.old) (F.faults files.new) }
    ensures large { IfErr result (λ fault. fault ≡ LoadFault.TooLarge → IfSome (F.contents files.old path.now) (λ bytes. limit < length bytes)) }
    ensures same { (at : List ℕ) → F.contents files.new at ≡ F.contents files.old at }
    ensures count { (at : List ℕ) → F.faults files.old at ≤ F.faults files.new at }
{
    let mut file = Vec::new(alloc);
    loop {
        let Ok(count) = files.read(path, file.len() as u64, buffer) else {
            return Err(LoadFault::ReadFault);
        };
        if count == 0 {
            return Ok(file);
        }
        if count as u64 > limit - file.len() as u64 {
            return Err(LoadFault::TooLarge);
        }
        if file.extend_from_slice(&buffer[..count]).is_err() {
            return Err(LoadFault::Memory);
        }
    }
}
