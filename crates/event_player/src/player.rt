//! Who plays a recording.

ghost use Rattle.std.specs.Prelude.{ℕ, ◌≡◌, ◌≤◌, ◌<◌, ◌+◌, ◌^◌, List, [], ◌∷◌, length, IfOk, IfSome, IfNone, OnErr};
ghost use Rattle.desk_words.specs.Recorded.{told_by};
ghost use Rattle.event_player.specs.Lines.{saying_of};
ghost use Rattle.of10_ctl.specs.Frames.{IsFrame};
ghost use Rattle.of10_ctl.specs.Streams.{with_piece};
ghost use Rattle.event_player.specs.Streams.{TakesFrame};
ghost use Rattle.event_player.specs.Telling.{says};
ghost use Rattle.event_player.specs.Players.{Scene, IsPlaying, PlaysOn, later, scene_of, HasTold};

use crate::fault::ReportFault;
use crate::streams::next_frame;
use crate::teller::{LinePlace, Said, Teller};
use flowspace::Policy;
use of10_ctl::{Frame, Framer};
use recording::Item;
use std::alloc::{AllocError, Global};

/// Plays records at the desks of their switches, by a policy, and reports what comes of them.
#[derive(Drop)]
pub struct Player<'a, T: Teller> {
    /// Who hears it.
    pub teller: T,
    /// By which it plays.
    pub policy: &'a Policy,
    /// Where the lines of the next event belong. Its number is that of the events so far.
    pub place: LinePlace,
    /// When what is played came.
    pub(crate) moment: u64,
    pub(crate) alloc: Global,
    /// Memory of a message that was reported, in which the next one is made that comes.
    pub(crate) spare: &'a mut Vec<u8>,
}

impl<'a, T: Teller> Player<'a, T> {
    /// Nothing was played yet. The memory of `spare` serves the messages that come.
    pub fn new(
        alloc: Global,
        policy: &'a Policy,
        teller: T,
        spare: &'a mut Vec<u8>,
    ) -> Player<'a, T>
        ensures teller { result.teller ≡ teller }
        ensures policy { result.policy.now ≡ policy.now }
        ensures number { result.place.number ≡ 0 }
    {
        Player {
            teller,
            policy,
            place: LinePlace {
                number: 0,
                switch: 0,
            },
            moment: 0,
            alloc,
            spare,
        }
    }

    /// A record begins: what is played from now on is of its switch and came at its timestamp.
    pub(crate) fn begin(&mut self, item: &Item)
        ensures scene { (bytes : List ℕ) → IsPlaying (scene_of self.old.policy.now self.old.place.number (told_by item.now bytes)) self.new }
        ensures teller { self.new.teller ≡ self.old.teller }
    {
        self.place = LinePlace {
            number: self.place.number,
            switch: item.switch,
        };
        self.moment = item.moment;
    }

    /// Reports a line of the event that is played.
    #[inline(always)]
    pub(crate) fn say(&mut self, said: Said<'_>) -> Result<(), ReportFault>
        ensures { (scene : Scene) → IsPlaying scene self.old → HasTold (says T.Tells) scene (Unit {0}) result (record { place = scene.place; saying = saying_of said.entry } ∷ []) self.old self.new }
    {
        self.teller.tell(self.place, said)
    }

    /// Keeps the memory of a message that was reported, for the next that comes.
    pub(crate) fn keep(&mut self, message: Frame)
        ensures { PlaysOn self.old self.new }
    {
        *self.spare = message.into_vec();
    }

    /// The next frame of a stream of which a piece came, if all its bytes came and no frame before it has a bad
    /// length. What isn't taken yet of the piece is left; nothing is where no frame comes.
    #[inline(always)]
    pub(crate) fn next_frame(
        &mut self,
        framer: &mut Framer,
        piece: &mut &[u8],
    ) -> Result<Option<Frame>, AllocError>
        ensures takes { IfOk result (λ next. TakesFrame next (with_piece framer.old piece.old.now) (with_piece framer.new piece.new.now)) }
        ensures all { IfOk result (λ next. IfNone next (piece.new.now ≡ [])) }
        ensures frame { IfOk result (λ next. IfSome next IsFrame) }
        ensures shorter { IfOk result (λ next. IfSome next (λ _. length (with_piece framer.new piece.new.now).left < length (with_piece framer.old piece.old.now).left)) }
        ensures on { PlaysOn self.old self.new }
    {
        next_frame(framer, piece, self.spare)
    }

    /// An event was played. A recording has far fewer than 2^64 events.
    pub(crate) fn count(&mut self) -> Result<(), ReportFault>
        ensures told { (scene : Scene) → IsPlaying scene self.old → HasTold T.Tells (later 1 scene) (Unit {0}) result [] self.old self.new }
        ensures full { OnErr result (2 ^ 64 ≤ self.old.place.number + 1) }
    {
        match self.place.number.checked_add(1) {
            Some(number) => {
                self.place = LinePlace {
                    number,
                    switch: self.place.switch,
                };
                Ok(())
            }
            None => Err(ReportFault::Memory),
        }
    }
}
