ghost use Rattle.std.specs.Prelude.{◌≡◌};
ghost use Rattle.event_player.specs.declared.fault.ReportFault.TheVariants.{Memory};

use std::alloc::AllocError;

/// Why a report isn't whole.
#[derive(Clone, Copy, PartialEq, Eq)]
pub enum ReportFault {
    /// The sink failed.
    WriteFault,
    /// Memory ran out.
    Memory,
}

impl From<AllocError> for ReportFault {
    ghost from_gives = { λ _ fault. fault ≡ Memory };

    fn from(_error: AllocError) -> ReportFault {
        ReportFault::Memory
    }
}
