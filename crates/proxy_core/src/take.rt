//! What is taken from a desk.

ghost use Rattle.std.specs.Prelude.{◌≡◌, ◌<◌, false, None, Some, if◌then◌else◌, IfSome};
ghost use Rattle.desk_words.specs.declared.dest.Dest.TheVariants.{Switch, Slice};
ghost use Rattle.desk_words.specs.declared.taken.Taken.TheVariants.{Nothing, Choked};
ghost use Rattle.proxy_core.specs.Desks.{is_message, TakesNext, IsSilence, left, pending_at, silence_before, Shrinks, Takes};
ghost use Rattle.proxy_core.specs.Opening.{has_side_at, AtSlot, IsNext, silence_at};

use crate::desk::{Desk, Session};
use desk_words::{Dest, Phase, Taken};
use of10_ctl::Frame;

/// Nothing waits for a connection that is up.
fn nothing(choked: bool) -> Taken
    ensures plain { is_message result ≡ false }
    ensures value { result ≡ (if choked then Choked else Nothing) }
{
    if choked {
        Taken::Choked
    } else {
        Taken::Nothing
    }
}

impl Session {
    /// The oldest message that waits for a slice.
    fn next(&mut self, slot: u8) -> Option<Frame>
        ensures there { AtSlot slot (IsNext result) self.old self.new }
        ensures nowhere { has_side_at self.old slot ≡ false → result ≡ None }
        ensures fewer { IfSome result (λ _. pending_at slot (Some self.new) < pending_at slot (Some self.old)) }
    {
        if !self.has_side_at(slot) {
            return None;
        }
        self.queues[usize::from(slot)].take()
    }

    /// What there is to say of a slice for which nothing waits.
    fn silence(&self, slot: u8) -> Taken
        ensures plain { is_message result ≡ false }
        ensures value { result ≡ silence_at slot self.now }
    {
        if !self.is_up(slot) {
            return Taken::Ended;
        }
        nothing(self.queues[usize::from(slot)].choked())
    }
}

impl Desk {
    /// The oldest message that waits for a slice.
    fn next_of_slice(&mut self, slot: u8) -> Option<Frame>
        ensures next { TakesNext self.old (Slice slot) result self.new }
        ensures fewer { IfSome result (λ _. left (Slice slot) self.new < left (Slice slot) self.old) }
        ensures events { self.new.events ≡ self.old.events }
    {
        match &mut self.session {
            Some(session) => session.next(slot),
            None => None,
        }
    }

    /// The oldest message that waits for a destination.
    fn next(&mut self, dest: Dest) -> Option<Frame>
        ensures next { TakesNext self.old dest result self.new }
        ensures fewer { IfSome result (λ _. left dest self.new < left dest self.old) }
        ensures events { self.new.events ≡ self.old.events }
    {
        match dest {
            Dest::Switch => self.lane.take(),
            Dest::Slice(slot) => self.next_of_slice(slot),
        }
    }

    /// Why there is nothing for the switch.
    fn silence_of_lane(&self) -> Taken
        ensures plain { is_message result ≡ false }
        ensures value { IsSilence self.now Switch result }
    {
        match self.phase {
            Phase::Gone => Taken::Ended,
            Phase::Fresh => Taken::NotOpen,
            Phase::Begun | Phase::Opened => nothing(self.lane.choked()),
        }
    }

    /// Why there is nothing for a slice before the switch has said what it is.
    fn silence_before(&self, slot: u8) -> Taken
        ensures plain { is_message result ≡ false }
        ensures value { result ≡ silence_before self.now.policy slot }
    {
        if usize::from(slot) < self.policy.slices().len() {
            Taken::NotOpen
        } else {
            Taken::Ended
        }
    }

    /// Why there is nothing for a slice.
    fn silence_of_slice(&self, slot: u8) -> Taken
        ensures plain { is_message result ≡ false }
        ensures value { IsSilence self.now (Slice slot) result }
    {
        match self.phase {
            Phase::Gone => Taken::Ended,
            Phase::Fresh | Phase::Begun | Phase::Opened => match &self.session {
                Some(session) => session.silence(slot),
                None => self.silence_before(slot),
            },
        }
    }

    /// Why there is nothing for a destination.
    fn silence(&self, dest: Dest) -> Taken
        ensures plain { is_message result ≡ false }
        ensures value { IsSilence self.now dest result }
    {
        match dest {
            Dest::Switch => self.silence_of_lane(),
            Dest::Slice(slot) => self.silence_of_slice(slot),
        }
    }

    /// The oldest message for a destination, or why there is none. It takes no memory.
    #[inline(always)]
    pub fn take(&mut self, dest: Dest) -> Taken
        ensures answer { Takes self.old dest result self.new }
        ensures less { Shrinks dest result self.old self.new }
    {
        match self.next(dest) {
            Some(frame) => Taken::Message(frame),
            None => self.silence(dest),
        }
    }
}
