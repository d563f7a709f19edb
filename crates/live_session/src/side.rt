ghost use Rattle.std.specs.Prelude.{◌≡◌};
ghost use Rattle.live_session.specs.Stretches.{up_of, message_event, down_of};

use live_desk::Event;
use of10_ctl::Frame;

/// Whose connection it is.
#[derive(Clone, Copy, Debug, PartialEq, Eq)]
pub enum Side {
    /// The switch's.
    Switch,
    /// That of the controller of the slice at a slot.
    Slice(u8),
}

// The side of an event.
pub(crate) fn side_of(event: &Event) -> Side {
    match event {
        Event::SwitchUp | Event::SwitchMsg(_) | Event::SwitchDown => Side::Switch,
        Event::SliceUp(slot) | Event::SliceMsg(slot, _) | Event::SliceDown(slot) => {
            Side::Slice(*slot)
        }
    }
}

// The connection came.
pub(crate) fn up(side: Side) -> Event
    ensures { result ≡ up_of side }
{
    match side {
        Side::Switch => Event::SwitchUp,
        Side::Slice(slot) => Event::SliceUp(slot),
    }
}

// A message came on it.
pub(crate) fn message(side: Side, frame: Frame) -> Event
    ensures { result ≡ message_event side frame }
{
    match side {
        Side::Switch => Event::SwitchMsg(frame),
        Side::Slice(slot) => Event::SliceMsg(slot, frame),
    }
}

// It ended.
pub(crate) fn down(side: Side) -> Event
    ensures { result ≡ down_of side }
{
    match side {
        Side::Switch => Event::SwitchDown,
        Side::Slice(slot) => Event::SliceDown(slot),
    }
}
