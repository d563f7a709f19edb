//! Desks, and what comes to them.

ghost use Rattle.std.specs.Prelude.{◌≡◌, ◌<◌, vec_len};
ghost use Rattle.turn_desk.specs.Seats.{IsSeatOf, SameDesk};

use fv_live::MemoryClock;
use live_session::{DeskObject, DeskOp, DeskReply, Dest, Event, Taken, Timed, Verdict};
use samples::frame;
use std::alloc::{AllocError, Global};
use std::process::Abort;
use std::sync::Wait;
use turn_desk::{TurnDesk, TurnSeat};

/// The features of a switch with one port, without the port's name and bits.
pub const FEATURES: &str = "0106005000000001\
00000000000000a100000100010000000000000000000fff0001";

pub const PORT_REST: &str =
    "0000000000000000000000000000000000000000000000000000000000000000000000000000000000000000\
0000";

/// A question of a controller, and a message after which its connection is to be closed.
pub const ECHO: &str = "0102000800000005";

pub const FIRST_VERSION: &str = "0000000800000000";

/// What a controller is sent that comes, asks the question and sends that message.
pub const TO_DISMISSED: &str = "010000080000000001030008000000050101000c0000000000000000";

/// What a desk heard of its switch.
#[derive(Clone, Copy)]
pub enum Before {
    Nothing,
    /// It connected and said what it is.
    Opened,
    /// It disconnected after that.
    Ended,
}

/// What there is for the switch.
#[derive(Clone, Copy)]
pub enum Found {
    Message,
    Ended,
}

/// What is expected of a test is so.
pub fn expect(rt: &impl Abort, is_so: bool, what: &str) {
    assert!(rt; is_so, "{what}");
}

// Whether the connection that an event comes from goes on.
fn step<R: Wait>(
    rt: &R,
    desk: &TurnDesk<DeskObject>,
    seat: &mut TurnSeat<DeskObject>,
    event: Event,
) -> bool
    requires { IsSeatOf desk.now seat.old }
    ensures { SameDesk seat.new seat.old }
{
    matches!(
        desk.submit(rt, seat, DeskOp::Step(Timed { event, moment: 0 })),
        Ok(DeskReply::Stepped(Ok(Verdict::Go)))
    )
}

// Whether the switch's connection goes on when the switch connects and says what it is.
fn open<R: Wait>(
    rt: &R,
    alloc: Global,
    desk: &TurnDesk<DeskObject>,
    seat: &mut TurnSeat<DeskObject>,
) -> Result<bool, AllocError>
    requires { IsSeatOf desk.now seat.old }
    ensures { SameDesk seat.new seat.old }
{
    let told = frame(alloc, &[FEATURES, PORT_REST])?;
    let goes_on = step(rt, desk, seat, Event::SwitchUp);
    Ok(step(rt, desk, seat, Event::SwitchMsg(told)) && goes_on)
}

/// Whether the switch's connection goes on at each of these.
pub fn hear<R: Wait>(
    rt: &R,
    alloc: Global,
    desk: &TurnDesk<DeskObject>,
    seat: &mut TurnSeat<DeskObject>,
    before: Before,
) -> Result<bool, AllocError>
    requires { IsSeatOf desk.now seat.old }
    ensures { SameDesk seat.new seat.old }
{
    match before {
        Before::Nothing => Ok(true),
        Before::Opened => open(rt, alloc, desk, seat),
        Before::Ended => {
            let goes_on = open(rt, alloc, desk, seat)?;
            Ok(step(rt, desk, seat, Event::SwitchDown) && goes_on)
        }
    }
}

/// Whether that is there for the switch.
pub fn finds<R: Wait>(
    rt: &R,
    desk: &TurnDesk<DeskObject>,
    seat: &mut TurnSeat<DeskObject>,
    found: Found,
) -> bool
    requires { IsSeatOf desk.now seat.old }
{
    match desk.submit(rt, seat, DeskOp::Take(Dest::Switch)) {
        Ok(DeskReply::Took(Taken::Message(_))) => matches!(found, Found::Message),
        Ok(DeskReply::Took(Taken::Ended)) => matches!(found, Found::Ended),
        _ => false,
    }
}

/// A clock that answers 10, 11 and so on up to 14.
pub fn clock(alloc: Global) -> Result<MemoryClock, AllocError> {
    Ok(MemoryClock::new(vec![in alloc; 10, 11, 12, 13, 14]?))
}
