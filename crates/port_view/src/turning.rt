//! Messages with the port numbers exchanged that a slice's swaps name, in memory of their own.

ghost use Rattle.std.specs.Prelude.{◌≡◌, IfOk};
ghost use Rattle.flowspace.specs.Swaps.{pairs_of};
ghost use Rattle.port_turns.specs.Readings.{turn_in};
ghost use Rattle.port_turns.specs.Sent.{turn_out};

use flowspace::SwitchPolicy;
use of10_ctl::Frame;
use std::alloc::{AllocError, Global};

/// A message of the slice at a slot, with the switch's own port numbers (OpenFlow 1.0.0, sections 5.3.3 to 5.3.6; that
/// numbers are exchanged is this proxy's own rule).
pub fn turn_in(
    alloc: Global,
    policy: &SwitchPolicy,
    slot: u8,
    frame: &Frame,
) -> Result<Frame, AllocError>
    ensures { IfOk result (λ f. f ≡ turn_in (pairs_of policy.now.swaps slot) frame.now) }
{
    let mut turned = frame.copy(alloc)?;
    port_turns::turn_in(policy, slot, &mut turned);
    Ok(turned)
}

/// A message for the slice at a slot, with the port numbers that the slice is shown (section 5; that numbers are
/// exchanged is this proxy's own rule).
pub fn turn_out(
    alloc: Global,
    policy: &SwitchPolicy,
    slot: u8,
    frame: &Frame,
) -> Result<Frame, AllocError>
    ensures { IfOk result (λ f. f ≡ turn_out (pairs_of policy.now.swaps slot) frame.now) }
{
    let mut turned = frame.copy(alloc)?;
    port_turns::turn_out(alloc, policy, slot, &mut turned)?;
    Ok(turned)
}
