//! How large a policy may be. These are this proxy's own limits.

/// Slices.
pub const SLICES: usize = 32;

/// Rules.
pub const RULES: usize = 2048;

/// Rules that one slice writes.
pub const WRITES: usize = 256;

/// Swaps of port numbers.
pub const SWAPS: usize = 1024;

/// Bytes of a slice's name.
pub(crate) const NAME_BYTES: usize = 32;

/// Bytes that say where a slice's controller listens.
pub(crate) const CONTROLLER_BYTES: usize = 255;

/// Messages of a slice, a second or at once.
pub const RATE: u32 = 1_000_000;

/// Flow entries of a slice on a switch.
pub const QUOTA: u32 = 4096;
