//! The desk of a switch.

ghost use Rattle.std.specs.Prelude.{◌≡◌, ◌^◌, IfOk};
ghost use Rattle.turn_desk.specs.Seats.{IsSeatOf};

use live_session::{Bells, Desk, DeskObject};
use samples::{policy, rule, tcp};
use std::alloc::{AllocError, Global};
use turn_desk::{TurnDesk, TurnSeat};

/// A desk of alice, who writes TCP packets for port 80, and bob, who writes those for port 22; its first seat and its
/// bells.
pub fn desk(
    alloc: Global,
) -> Result<(TurnDesk<DeskObject>, TurnSeat<DeskObject>, Bells), AllocError>
    ensures seat { IfOk result (λ made. IsSeatOf made.0 made.1) }
    ensures calls { IfOk result (λ made. made.1.left ≡ 2 ^ 63) }
{
    let alice = rule(100, &tcp(None, 80), 0, 0);
    let bob = rule(50, &tcp(None, 22), 1, 0);
    let Ok(policy) = policy(alloc, &[alice, bob]) else {
        return Err(AllocError);
    };
    let bells = Bells::new(alloc, 2)?;
    let object = DeskObject {
        alloc,
        desk: Desk::new(alloc, policy),
        waiting: bells.waiting()?,
    };
    let (desk, seat) = TurnDesk::new(alloc, object)?;
    Ok((desk, seat, bells))
}
