//! What slices take of a switch and its lane.

ghost use Rattle.std.specs.Prelude.{◌≡◌, ◌<◌, ◌≤◌, length};
ghost use Rattle.nested_slices.specs.Refused.{shares_of, share_fault};

use crate::fault::NestFault;
use flowspace::Slice;

/// What slices have together: messages a second, messages at once, flow entries on a switch.
#[derive(Clone, Copy)]
pub(crate) struct Shares {
    pub(crate) rate: u64,
    pub(crate) burst: u64,
    pub(crate) quota: u64,
}

fn rate_of(slice: &Slice) -> u64
    ensures value { result ≡ slice.now.rate }
    ensures small { result < 4294967296 }
{
    u64::from(slice.rate)
}

fn burst_of(slice: &Slice) -> u64
    ensures value { result ≡ slice.now.burst }
    ensures small { result < 4294967296 }
{
    u64::from(slice.burst)
}

fn quota_of(slice: &Slice) -> u64
    ensures value { result ≡ slice.now.quota }
    ensures small { result < 4294967296 }
{
    u64::from(slice.quota)
}

/// What these slices have together.
pub(crate) fn shares_of(slices: &[Slice]) -> Shares
    requires { length slices.now ≤ 32 }
    ensures { result ≡ shares_of slices.now }
{
    let mut rate = 0;
    let mut burst = 0;
    let mut quota = 0;
    for slice in slices {
        rate += rate_of(slice);
        burst += burst_of(slice);
        quota += quota_of(slice);
    }
    Shares { rate, burst, quota }
}

/// The first of rate, burst and quota of which there is more than the holder has.
pub(crate) fn share_fault(total: &Shares, holder: &Slice) -> Option<NestFault>
    ensures { result ≡ share_fault total.now holder.now }
{
    if total.rate > u64::from(holder.rate) {
        Some(NestFault::Rate(total.rate))
    } else if total.burst > u64::from(holder.burst) {
        Some(NestFault::Burst(total.burst))
    } else if total.quota > u64::from(holder.quota) {
        Some(NestFault::Quota(total.quota))
    } else {
        None
    }
}
