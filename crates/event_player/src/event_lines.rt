//! One event at a desk, and its lines.

ghost use Rattle.std.specs.Prelude.{ℕ, ◌≡◌, List, [], ◌∷◌, Ok, IfOk, IfErr};
ghost use Rattle.flowspace.specs.Policies.{PolicyView};
ghost use Rattle.desk_words.specs.declared.event.Timed.{Timed};
ghost use Rattle.answer_bounds.specs.Bounds.{IsFramed, AreFramed};
ghost use Rattle.desk_words.specs.Openings.{phase_of};
ghost use Rattle.desk_words.specs.Histories.{is_slice_up};
ghost use Rattle.desk_words.specs.Verdicts.{is_ended, verdict};
ghost use Rattle.desk_words.specs.Operations.{takes_in};
ghost use Rattle.desk_words.specs.Recorded.{timed_at, next_of};
ghost use Rattle.desk_words.specs.Reports.{name_at, speaker, closing_lines, event_lines, closed_lines};
ghost use Rattle.event_player.specs.Telling.{says, coming, event_cues, state_lines, end_lines, lines_in_parts};
ghost use Rattle.event_player.specs.Holding.{Holds, IsQuiet, After};
ghost use Rattle.event_player.specs.Players.{Scene, IsPlaying, HasTold};

use crate::fault::ReportFault;
use crate::player::Player;
use crate::teller::{Said, Teller};
use flowspace::Policy;
use proxy_core::{Desk, Event, Timed, Verdict};
use std::alloc::Global;

/// Whether the slice at a slot is up, at a desk at which nothing waits.
pub(crate) fn is_up(desk: &Desk, slot: u8) -> bool
    ensures { (policy : PolicyView) (h : List Timed) → IsQuiet policy h desk.now → result ≡ is_slice_up policy slot h }
{
    desk.is_up(slot)
}

/// Whether the switch's connection has ended, at a desk at which nothing waits.
pub(crate) fn has_ended(desk: &Desk) -> bool
    ensures { (policy : PolicyView) (h : List Timed) → IsQuiet policy h desk.now → result ≡ is_ended (phase_of h) }
{
    desk.has_ended()
}

/// The slot of the slice whose controller connected or sent a message.
fn speaker(event: &Event) -> Option<u8>
    ensures { result ≡ speaker event.now }
{
    match event {
        Event::SliceUp(slot) | Event::SliceMsg(slot, _) => Some(*slot),
        Event::SwitchUp | Event::SwitchMsg(_) | Event::SwitchDown | Event::SliceDown(_) => None,
    }
}

/// One event. The verdict on it, by which it is taken in, so that what it makes waits, or nothing more comes
/// of the desk.
#[inline(always)]
fn step(alloc: Global, desk: &mut Desk, timed: Timed) -> Result<Verdict, ReportFault>
    ensures after { IfOk result (λ answered. (policy : PolicyView) (h : List Timed) → IsQuiet policy h desk.old → AreFramed h → IsFramed timed.event → (answered ≡ verdict policy h timed) × After policy h timed (takes_in (Ok answered)) desk.new) }
    ensures memory { IfErr result (λ f. f ≡ ReportFault.Memory) }
{
    match desk.step(alloc, timed) {
        Ok(verdict) => Ok(verdict),
        Err(_) => Err(ReportFault::Memory),
    }
}

/// The name of the slice at a slot.
fn name_of(policy: &Policy, slot: u8) -> &str
    ensures { result.now ≡ name_at policy.now.slices slot }
{
    match policy.slices().get(usize::from(slot)) {
        Some(slice) => slice.name.as_str(),
        None => "",
    }
}

impl<T: Teller> Player<'_, T> {
    /// The line of a connection that is closed, if it is.
    #[inline(never)]
    fn put_close(&mut self, slot: u8, closed: bool) -> Result<(), ReportFault>
        ensures { (scene : Scene) → IsPlaying scene self.old → HasTold (says T.Tells) scene (Unit {0}) result (closed_lines scene.policy scene.place slot closed) self.old self.new }
    {
        if !closed {
            return Ok(());
        }
        let name = name_of(self.policy, slot);
        self.say(Said::Close(name))
    }

    /// The line of the end of the switch's connection, where it has ended.
    fn put_end(&mut self, desk: &Desk) -> Result<(), ReportFault>
        ensures { (scene : Scene) (h : List Timed) → IsPlaying scene self.old → IsQuiet scene.policy h desk.now → HasTold (says T.Tells) scene (Unit {0}) result (end_lines scene.place h) self.old self.new }
    {
        if !has_ended(desk) {
            return Ok(());
        }
        self.say(Said::Down)
    }

    /// Where a slice spoke, the line of its connection if that is closed; else the line of the switch's end.
    #[inline(always)]
    fn put_state(
        &mut self,
        desk: &Desk,
        speaker: Option<u8>,
        closed: bool,
    ) -> Result<(), ReportFault>
        ensures { (scene : Scene) (h : List Timed) → IsPlaying scene self.old → IsQuiet scene.policy h desk.now
            → HasTold (says T.Tells) scene (Unit {0}) result (state_lines scene.policy scene.place h speaker closed) self.old self.new }
    {
        match speaker {
            Some(slot) => self.put_close(slot, closed),
            None => self.put_end(desk),
        }
    }

    /// The lines of an event that was taken in: of its messages, and of a connection that is closed or of the
    /// switch's end.
    #[inline(always)]
    fn put_taken(
        &mut self,
        desk: &mut Desk,
        speaker: Option<u8>,
        closed: bool,
    ) -> Result<(), ReportFault>
        ensures { (scene : Scene) (h : List Timed) (slices : ℕ → List (List ℕ)) (lane : List (List ℕ)) → IsPlaying scene self.old → Holds scene.policy h slices lane desk.old
            → HasTold (says T.Tells) scene (IsQuiet scene.policy h desk.new) result (lines_in_parts scene.policy scene.place h slices lane speaker closed) self.old self.new }
    {
        self.drain_lane(desk)?;
        self.drain_slices(desk)?;
        self.put_state(desk, speaker, closed)
    }

    /// The line of an event that wasn't taken in: nothing comes of it but that the slice that spoke isn't up.
    fn put_over(&mut self, desk: &Desk, speaker: Option<u8>) -> Result<(), ReportFault>
        ensures { (scene : Scene) (h : List Timed) → IsPlaying scene self.old → IsQuiet scene.policy h desk.now
            → HasTold (says T.Tells) scene (Unit {0}) result (closing_lines scene.policy scene.place h speaker) self.old self.new }
    {
        let Some(slot) = speaker else {
            return Ok(());
        };
        let closed = !is_up(desk, slot);
        self.put_close(slot, closed)
    }

    /// One event is taken in at a desk at which nothing waits, or isn't, and all its lines are reported.
    #[inline(always)]
    fn take_in(&mut self, desk: &mut Desk, event: Event) -> Result<(), ReportFault>
        ensures { (scene : Scene) (h : List Timed) → IsPlaying scene self.old → IsQuiet scene.policy h desk.old → AreFramed h → IsFramed event
            → HasTold (says T.Tells) scene (IsQuiet scene.policy (next_of h (timed_at scene.moment event)) desk.new) result (event_lines scene.policy scene.place h (timed_at scene.moment event)) self.old self.new }
    {
        let speaker = speaker(&event);
        let timed = Timed {
            event,
            moment: self.moment,
        };
        match step(self.alloc, desk, timed)? {
            Verdict::Go => self.put_taken(desk, speaker, false),
            Verdict::Close => self.put_taken(desk, speaker, true),
            Verdict::Ended => self.put_over(desk, speaker),
        }
    }

    /// Reports that an event comes.
    #[inline(always)]
    fn announce(&mut self, desk: &Desk, event: &Event) -> Result<(), ReportFault>
        ensures { (scene : Scene) (h : List Timed) → IsPlaying scene self.old → IsQuiet scene.policy h desk.now → AreFramed h → IsFramed event.now
            → HasTold T.Tells scene (Unit {0}) result (coming scene.policy scene.place h (timed_at scene.moment event.now) ∷ []) self.old self.new }
    {
        self.teller.come(self.place, self.moment, event, desk)
    }

    /// One event at a desk at which nothing waits: that it comes, and then all its lines.
    #[inline(always)]
    pub(crate) fn turn(&mut self, desk: &mut Desk, event: Event) -> Result<(), ReportFault>
        ensures { (scene : Scene) (h : List Timed) → IsPlaying scene self.old → IsQuiet scene.policy h desk.old → AreFramed h → IsFramed event
            → HasTold T.Tells scene (IsQuiet scene.policy (next_of h (timed_at scene.moment event)) desk.new) result (event_cues scene.policy scene.place h (timed_at scene.moment event)) self.old self.new }
    {
        self.announce(desk, &event)?;
        self.take_in(desk, event)
    }
}
