ghost use Rattle.std.specs.Prelude.{◌≡◌};
ghost use Rattle.trace_audit.specs.declared.fault.AuditFault.TheVariants.{Memory};

use crate::why::Why;
use recording::RecordingFault;
use std::alloc::AllocError;

/// Why no number is given.
#[derive(Clone, Copy, Debug, PartialEq, Eq)]
pub enum AuditFault {
    /// The bytes are no trace: the fault is never `Memory`.
    Trace(RecordingFault),
    /// The message that was sent for a slice in the record that begins at this place, in bytes, is the first that the
    /// slice may not have sent.
    No { at: u64, why: Why },
    /// Memory ran out.
    Memory,
}

impl From<AllocError> for AuditFault {
    ghost from_gives = { λ _ fault. fault ≡ Memory };

    fn from(_error: AllocError) -> AuditFault {
        AuditFault::Memory
    }
}
