//! What is reported of a recording, and who hears it.

use crate::fault::ReportFault;
use proxy_core::{Desk, Event};

/// Where a line belongs: the number of its event, from 0 over the whole recording, and the event's switch.
#[derive(Clone, Copy)]
pub struct LinePlace {
    pub number: u64,
    pub switch: u8,
}

/// What a line says of its event.
#[derive(Clone, Copy)]
pub enum Said<'a> {
    /// This message goes to the switch.
    Lane(&'a [u8]),
    /// This message goes to the slice at a slot, which has this name.
    To(u8, &'a str, &'a [u8]),
    /// The connection of the slice of this name is closed.
    Close(&'a str),
    /// The switch's connection ended.
    Down,
}

/// Whoever hears what is reported.
pub trait Teller: Drop {
    ghost use Rattle.std.specs.Prelude.{List};
    ghost use Rattle.flowspace.specs.Policies.{PolicyView};
    ghost use Rattle.answer_bounds.specs.Bounds.{IsFramed, AreFramed};
    ghost use Rattle.desk_words.specs.declared.event.Timed.{Timed};
    ghost use Rattle.desk_words.specs.Recorded.{timed_at};
    ghost use Rattle.event_player.specs.Telling.{Cue, Says, Outcome, coming};
    ghost use Rattle.event_player.specs.Holding.{IsQuiet};
    ghost use Rattle.event_player.specs.Lines.{place_of, line_of};

    /// From one state to another by what was reported whole, or what a fault broke off.
    ghost Tells: { Self → Cue → Outcome → Self → Type 0 };

    /// Reports that an event comes, which came at a timestamp. The desk of its switch stands as it does
    /// before the event, and its lines are reported after this.
    fn come(
        &mut self,
        place: LinePlace,
        moment: u64,
        event: &Event,
        desk: &Desk,
    ) -> Result<(), ReportFault>
        ensures { (policy : PolicyView) (h : List Timed) → IsQuiet policy h desk.now → AreFramed h → IsFramed event.now → Tells self.old (coming policy (place_of place) h (timed_at moment event.now)) result self.new };

    /// Reports one line.
    fn tell(&mut self, place: LinePlace, said: Said<'_>) -> Result<(), ReportFault>
        ensures { Tells self.old (Says (line_of place said.entry)) result self.new };
}
