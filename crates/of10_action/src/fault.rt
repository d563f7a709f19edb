//! What is wrong with the bytes of a message.

ghost use Rattle.std.specs.Prelude.{◌≡◌};
ghost use Rattle.of10_action.specs.declared.fault.DecodeFault.TheVariants.{Memory};
ghost use Rattle.of10_action.specs.Faults.{class_and_code};

use crate::error::{
    BAD_ACTION, BAD_ACTION_LENGTH, BAD_ACTION_TYPE, BAD_ACTION_VENDOR, BAD_LENGTH, BAD_REQUEST,
    BAD_STATISTICS, BAD_VENDOR,
};
use std::alloc::{AllocError, AllocFailed};

/// What is wrong with the bytes of a message. Each carries the value found.
#[derive(Clone, Copy, Debug, PartialEq, Eq)]
pub enum WireFault {
    /// The message has no such length, in bytes (OpenFlow 1.0.0, section 5.1).
    Length(u16),
    /// No statistics of this type (OpenFlow 1.0.0, section 5.3.5).
    StatKind(u16),
    /// Statistics of a vendor, of which this proxy knows none.
    StatVendor,
    /// No action of this type (OpenFlow 1.0.0, section 5.2.4).
    ActionKind(u16),
    /// The action has no such length, in bytes; 0 where the length field itself is cut off.
    ActionLength(u16),
    /// An action of a vendor, of which this proxy knows none.
    ActionVendor,
}

/// Why a message could not be decoded.
#[derive(Clone, Copy, Debug, PartialEq, Eq)]
pub enum DecodeFault {
    Wire(WireFault),
    Memory,
}

impl From<AllocError> for DecodeFault {
    ghost from_gives = { λ _ fault. fault ≡ Memory };

    fn from(_error: AllocError) -> DecodeFault {
        DecodeFault::Memory
    }
}

impl<T: Drop> From<AllocFailed<T>> for DecodeFault {
    ghost from_gives = { λ _ fault. fault ≡ Memory };

    fn from(_error: AllocFailed<T>) -> DecodeFault {
        DecodeFault::Memory
    }
}

/// Class and code of the error message that answers the fault (OpenFlow 1.0.0, section 5.4.4).
pub fn code(fault: WireFault) -> (u16, u16)
    ensures { result ≡ class_and_code fault }
{
    match fault {
        WireFault::Length(_) => (BAD_REQUEST, BAD_LENGTH),
        WireFault::StatKind(_) => (BAD_REQUEST, BAD_STATISTICS),
        WireFault::StatVendor => (BAD_REQUEST, BAD_VENDOR),
        WireFault::ActionKind(_) => (BAD_ACTION, BAD_ACTION_TYPE),
        WireFault::ActionLength(_) => (BAD_ACTION, BAD_ACTION_LENGTH),
        WireFault::ActionVendor => (BAD_ACTION, BAD_ACTION_VENDOR),
    }
}
