//! Why a slice isn't divided.

use flowspace::PolicyFault;

/// Why a slice isn't divided. Each is reported only where none of those before it holds.
#[derive(Clone, Copy, Debug, PartialEq, Eq)]
pub enum NestFault {
    /// One of the policies exchanges port numbers for a slice.
    Swaps,
    /// The inner rule at this place in the file, from 0, is written by no slice.
    Reader(u64),
    /// The inner slices' rates are so many messages a second together, which is more than the holder's.
    Rate(u64),
    /// Their bursts are so many messages together.
    Burst(u64),
    /// Their quotas are so many flow entries together.
    Quota(u64),
    /// The flat slices and rules are no policy, and have this fault: too many of something, or a name twice.
    Refused(PolicyFault),
    /// Out of memory.
    Memory,
}
