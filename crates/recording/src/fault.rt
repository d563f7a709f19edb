//! Why a file isn't read.

ghost use Rattle.std.specs.Prelude.{◌≡◌};
ghost use Rattle.recording.specs.declared.fault.RecordingFault.TheVariants.{Memory};

use std::alloc::AllocFailed;
use thiserror::Error;

/// Why a recording wasn't read. Each number is the place in the file where the record that is at fault
/// begins, in bytes; 0 where the fault is in the eight bytes that begin the file.
#[derive(Clone, Copy, Debug, PartialEq, Eq, Error)]
pub enum RecordingFault {
    /// The file ends within the record.
    #[error("torn record at {0}")]
    Torn(u64),
    /// The head of the record is of no form, or the file doesn't begin as a recording does.
    #[error("bad record at {0}")]
    Bad(u64),
    /// The record can't follow those before it, by who is up.
    #[error("not open at {0}")]
    NotOpen(u64),
    /// Memory ran out.
    #[error("out of memory")]
    Memory,
}

impl<T: Drop> From<AllocFailed<T>> for RecordingFault {
    ghost from_gives = { λ _ fault. fault ≡ Memory };

    fn from(_error: AllocFailed<T>) -> RecordingFault {
        RecordingFault::Memory
    }
}
