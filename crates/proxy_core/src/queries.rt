//! What a desk is asked without a change of it.

ghost use Rattle.std.specs.Prelude.{ℕ, ◌≡◌, ◌==◌, ◌&&◌, not, length, Some, option_map};
ghost use Rattle.desk_words.specs.Histories.{is_open};
ghost use Rattle.desk_words.specs.Verdicts.{is_ended};
ghost use Rattle.desk_words.specs.declared.dest.Dest.TheVariants.{Slice};
ghost use Rattle.proxy_core.specs.Desks.{TellsDatapath, TellsEnd, TellsLane, TellsOpening, TellsStates, TellsUp, TellsWaiting, left, pending_at};

use crate::desk::{Desk, Session};
use desk_words::{Dest, Phase};
use flow_book::SliceState;

impl Session {
    /// Whether a message waits for a slice.
    fn waits(&self, slot: u8) -> bool
        ensures { result ≡ not (pending_at slot (Some self.now) == 0) }
    {
        match self.queues.get(usize::from(slot)) {
            Some(queue) => !queue.is_empty(),
            None => false,
        }
    }
}

impl Desk {
    /// Whether a message waits for a slice.
    fn waits_for_slice(&self, slot: u8) -> bool
        ensures { result ≡ not (left (Slice slot) self.now == 0) }
    {
        match &self.session {
            Some(session) => session.waits(slot),
            None => false,
        }
    }

    /// Whether a message waits for a destination, so that the next `take` for it gives one.
    pub fn waits(&self, dest: Dest) -> bool
        ensures told { TellsWaiting self.now dest result }
        ensures left { result ≡ not (left dest self.now == 0) }
    {
        match dest {
            Dest::Switch => !self.lane.is_empty(),
            Dest::Slice(slot) => self.waits_for_slice(slot),
        }
    }

    /// How many bytes wait for the switch.
    pub fn lane_bytes(&self) -> u64
        ensures { TellsLane self.now result }
    {
        self.lane.bytes()
    }

    /// Whether the switch's connection has ended.
    pub fn has_ended(&self) -> bool
        ensures told { TellsEnd self.now result }
        ensures phase { result ≡ is_ended self.now.phase }
    {
        matches!(self.phase, Phase::Gone)
    }

    /// Whether the switch is connected and has said what it is.
    pub fn is_open(&self) -> bool
        ensures told { TellsOpening self.now result }
        ensures phase { result ≡ is_open self.now.phase }
    {
        matches!(self.phase, Phase::Opened)
    }

    /// Whether the slice at a slot is up: its controller is connected, and the switch has said what it is.
    pub fn is_up(&self, slot: u8) -> bool
        ensures { TellsUp self.now slot result }
    {
        match &self.session {
            Some(session) => self.is_open() && session.is_up(slot),
            None => false,
        }
    }

    /// What is kept of the slices, by slots, after the end of the switch's connection too; `None` before
    /// the switch has said what it is.
    pub fn states(&self) -> Option<&[SliceState]>
        ensures { TellsStates self.now (option_map (λ states. states.now) result) }
    {
        match &self.session {
            Some(session) => Some(session.states.as_slice()),
            None => None,
        }
    }

    /// The datapath id that the switch said first (OpenFlow 1.0.0, section 5.3.1), after the end of its
    /// connection too; `None` before that.
    pub fn datapath(&self) -> Option<u64>
        ensures { TellsDatapath self.now result }
    {
        match &self.session {
            Some(session) => Some(session.features.datapath),
            None => None,
        }
    }
}
