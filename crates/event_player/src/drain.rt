//! Messages that wait at a desk are taken and written.

ghost use Rattle.std.specs.Prelude.{ℕ, ◌≡◌, ◌<◌, List, [], IfSome};
ghost use Rattle.desk_words.specs.declared.event.Timed.{Timed};
ghost use Rattle.desk_words.specs.declared.dest.Dest.TheVariants.{Switch, Slice};
ghost use Rattle.desk_words.specs.Reports.{lane_lines, slice_lines, lines_by_slot};
ghost use Rattle.desk_words.specs.Operations.{message_taken};
ghost use Rattle.event_player.specs.Telling.{says};
ghost use Rattle.event_player.specs.Players.{Scene, IsPlaying, HasTold};
ghost use Rattle.proxy_core.specs.Desks.{left};
ghost use Rattle.event_player.specs.Holding.{Holds, nothing, with_waiting};
ghost use Rattle.event_player.specs.Taking.{TakesFromLane, TakesFromSlice};

use crate::fault::ReportFault;
use crate::player::Player;
use crate::teller::{Said, Teller};
use of10_ctl::Frame;
use proxy_core::{Desk, Dest, Taken};

fn message_in(taken: Taken) -> Option<Frame>
    ensures { result ≡ message_taken taken }
{
    match taken {
        Taken::Message(frame) => Some(frame),
        Taken::Nothing | Taken::Choked | Taken::Ended | Taken::NotOpen => None,
    }
}

/// The oldest message that waits for the switch.
fn next_of_lane(desk: &mut Desk) -> Option<Frame>
    ensures takes { TakesFromLane desk.old result desk.new }
    ensures fewer { IfSome result (λ _. left Switch desk.new < left Switch desk.old) }
{
    if !desk.waits(Dest::Switch) {
        return None;
    }
    message_in(desk.take(Dest::Switch))
}

/// The oldest message that waits for a slice.
fn next_of_slice(desk: &mut Desk, slot: u8) -> Option<Frame>
    ensures takes { TakesFromSlice slot desk.old result desk.new }
    ensures fewer { IfSome result (λ _. left (Slice slot) desk.new < left (Slice slot) desk.old) }
{
    if !desk.waits(Dest::Slice(slot)) {
        return None;
    }
    message_in(desk.take(Dest::Slice(slot)))
}

impl<T: Teller> Player<'_, T> {
    /// A line for each message that waits for the switch.
    #[inline(always)]
    pub(crate) fn drain_lane(&mut self, desk: &mut Desk) -> Result<(), ReportFault>
        ensures { (scene : Scene) (h : List Timed) (slices : ℕ → List (List ℕ)) (lane : List (List ℕ)) → IsPlaying scene self.old → Holds scene.policy h slices lane desk.old
            → HasTold (says T.Tells) scene (Holds scene.policy h slices [] desk.new) result (lane_lines scene.place lane) self.old self.new }
    {
        while let Some(message) = next_of_lane(desk) {
            self.say(Said::Lane(message.as_slice()))?;
            self.keep(message);
        }
        Ok(())
    }

    /// A line for each message that waits for the slice at a slot, which has this name.
    #[inline(always)]
    fn drain_slice(&mut self, desk: &mut Desk, slot: u8, name: &str) -> Result<(), ReportFault>
        ensures { (scene : Scene) (h : List Timed) (slices : ℕ → List (List ℕ)) (lane : List (List ℕ)) → IsPlaying scene self.old → Holds scene.policy h slices lane desk.old
            → HasTold (says T.Tells) scene (Holds scene.policy h (with_waiting slot [] slices) lane desk.new) result (slice_lines scene.place slot name.now (slices slot)) self.old self.new }
    {
        while let Some(message) = next_of_slice(desk, slot) {
            self.say(Said::To(slot, name, message.as_slice()))?;
            self.keep(message);
        }
        Ok(())
    }

    /// A line for each message that waits for a slice, by slot.
    #[inline(always)]
    pub(crate) fn drain_slices(&mut self, desk: &mut Desk) -> Result<(), ReportFault>
        ensures { (scene : Scene) (h : List Timed) (slices : ℕ → List (List ℕ)) (lane : List (List ℕ)) → IsPlaying scene self.old → Holds scene.policy h slices lane desk.old
            → HasTold (says T.Tells) scene (Holds scene.policy h nothing lane desk.new) result (lines_by_slot scene.place slices 0 scene.policy.slices) self.old self.new }
    {
        let policy = self.policy;
        for (slot, slice) in policy.slices().iter().enumerate() {
            self.drain_slice(desk, slot as u8, slice.name.as_str())?;
        }
        Ok(())
    }
}
