//! What comes on one connection is played at the desk.

ghost use Rattle.std.specs.Prelude.{ℕ, ◌≡◌, ◌++◌, true, List, [], ◌∷◌, length, drop};
ghost use Rattle.flowspace.specs.Policies.{PolicyView};
ghost use Rattle.of10_ctl.specs.Frames.{IsFrame};
ghost use Rattle.of10_ctl.specs.Streams.{Stands, frames_of};
ghost use Rattle.answer_bounds.specs.Bounds.{IsFramed, AreFramed};
ghost use Rattle.desk_words.specs.declared.event.Timed.{Timed};
ghost use Rattle.event_player.specs.Holding.{IsQuiet};
ghost use Rattle.event_player.specs.Players.{Scene, IsPlaying};
ghost use Rattle.event_player.specs.Plays.{event_from, Plays, PlaysFrames};
ghost use Rattle.desk_words.specs.Recorded.{happens};

use crate::event_lines::{has_ended, is_up};
use crate::fault::ReportFault;
use crate::player::Player;
use crate::teller::Teller;
use of10_ctl::{Frame, Framer};
use proxy_core::{Desk, Dest, Event};

/// A message that came on a connection.
fn event_from(from: Dest, frame: Frame) -> Event
    ensures { result ≡ event_from from frame }
{
    match from {
        Dest::Switch => Event::SwitchMsg(frame),
        Dest::Slice(slot) => Event::SliceMsg(slot, frame),
    }
}

/// Whether a message on a connection is an event: none is after the switch's end, and none of a slice that
/// isn't up.
fn happens(desk: &Desk, from: Dest) -> bool
    ensures { (policy : PolicyView) (h : List Timed) (message : List ℕ) → IsQuiet policy h desk.now → result ≡ happens policy h (event_from from message) }
{
    match from {
        Dest::Switch => !has_ended(desk),
        Dest::Slice(slot) => is_up(desk, slot),
    }
}

impl<T: Teller> Player<'_, T> {
    /// An event. The lines of the next one belong behind it.
    #[inline(always)]
    pub(crate) fn play(&mut self, desk: &mut Desk, event: Event) -> Result<(), ReportFault>
        ensures { (scene : Scene) (h : List Timed) → IsPlaying scene self.old → IsQuiet scene.policy h desk.old → AreFramed h → IsFramed event → happens scene.policy h event ≡ true
            → Plays T.Tells scene h (event ∷ []) result self.old self.new desk.new }
    {
        self.turn(desk, event)?;
        self.count()
    }

    /// A message that came on a connection, if it is an event.
    fn hear_one(&mut self, desk: &mut Desk, from: Dest, frame: Frame) -> Result<(), ReportFault>
        requires { IsFrame frame }
        ensures { (scene : Scene) (h : List Timed) → IsPlaying scene self.old → IsQuiet scene.policy h desk.old → AreFramed h
            → Plays T.Tells scene h (event_from from frame ∷ []) result self.old self.new desk.new }
    {
        if !happens(desk, from) {
            return Ok(());
        }
        self.play(desk, event_from(from, frame))
    }

    /// Bytes that came on a connection, all frames of whose bytes before were given.
    #[inline(always)]
    pub(crate) fn hear_bytes(
        &mut self,
        desk: &mut Desk,
        from: Dest,
        framer: &mut Framer,
        bytes: &[u8],
    ) -> Result<(), ReportFault>
        ensures { (scene : Scene) (h : List Timed) (fed : List ℕ) → IsPlaying scene self.old → IsQuiet scene.policy h desk.old → AreFramed h → Stands framer.old fed (frames_of fed)
            → PlaysFrames T.Tells scene from h (fed ++ bytes.now) (drop (length (frames_of fed)) (frames_of (fed ++ bytes.now))) result self.old self.new desk.new framer.new }
    {
        let mut piece = bytes;
        while let Some(frame) = self.next_frame(framer, &mut piece)? {
            self.hear_one(desk, from, frame)?;
        }
        Ok(())
    }
}
