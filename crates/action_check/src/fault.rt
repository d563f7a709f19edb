//! The codes with which a list of actions is refused.

/// The code of an action that sends where it may not (OpenFlow 1.0.0, section 5.4.4: OFPBAC_BAD_OUT_PORT).
pub const BAD_OUT_PORT: u16 = 4;

/// The code of an action whose argument has no such value (section 5.4.4: OFPBAC_BAD_ARGUMENT).
pub const BAD_ARGUMENT: u16 = 5;

/// The code of an action that the slice may not use (section 5.4.4: OFPBAC_EPERM).
pub const NOT_PERMITTED: u16 = 6;

/// Why no list of actions is given.
#[derive(Clone, Copy, Debug, PartialEq, Eq)]
pub enum CheckFault {
    /// An action is forbidden: the code of an error of type 2 (OpenFlow 1.0.0, section 5.4.4:
    /// OFPET_BAD_ACTION).
    Refused(u16),
    /// The list has more than 65,463 bytes, so that no flow-mod holds it.
    TooMany,
    Memory,
}
