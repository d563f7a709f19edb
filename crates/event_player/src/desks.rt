//! A run that reports to nobody: the desks of a recording's switches.

ghost use Rattle.std.specs.Prelude.{◌≡◌, ◌<◌, List, length, reverse, Ok, IfOk, IfErr, IfSome, IfNone};
ghost use Rattle.flowspace.specs.Policies.{PolicyView};
ghost use Rattle.recording.specs.declared.item.Item.{Item};
ghost use Rattle.recording.specs.Recordings.{Told, read_items};
ghost use Rattle.desk_words.specs.Recorded.{history_of, told_in};
ghost use Rattle.run_words.specs.Summaries.{event_count};
ghost use Rattle.event_player.specs.Holding.{IsQuiet};
ghost use Rattle.event_player.specs.Switches.{IsUntouched};
ghost use Rattle.event_player.specs.Played.{IsPlayed};

use crate::all_switches::no_switches;
use crate::fault::ReportFault;
use crate::player::Player;
use crate::switch::Switch;
use crate::teller::{LinePlace, Said, Teller};
use flowspace::Policy;
use proxy_core::{Desk, Event};
use std::alloc::Global;

/// Hears nothing.
#[derive(Drop)]
struct Nobody {}

impl Teller for Nobody {
    ghost use Rattle.event_player.specs.Played.{Unheard};

    ghost Tells = { λ old cue outcome new. Unheard old cue outcome new };

    #[inline(always)]
    fn come(&mut self, _: LinePlace, _: u64, _: &Event, _: &Desk) -> Result<(), ReportFault> {
        Ok(())
    }

    #[inline(always)]
    fn tell(&mut self, _: LinePlace, _: Said<'_>) -> Result<(), ReportFault> {
        Ok(())
    }
}

/// What a recording leaves of its switches.
#[derive(Drop)]
pub struct PlayedDesks {
    switches: Vec<Option<Switch>>,
    events: u64,
}

impl PlayedDesks {
    /// How many events there were.
    pub fn events(&self) -> u64
        ensures { (policy : PolicyView) (records : List Told) → IsPlayed policy records self.now → result ≡ event_count policy records }
    {
        self.events
    }

    /// The desk of the switch of a number, if a record is of that switch. Nothing waits there.
    pub fn desk(&self, number: u8) -> Option<&Desk>
        requires { number < 16 }
        ensures stands { IfSome result (λ desk. (policy : PolicyView) (records : List Told) → IsPlayed policy records self.now → IsQuiet policy (history_of policy number (reverse records)) desk.now) }
        ensures untouched { IfNone result ((policy : PolicyView) (records : List Told) → IsPlayed policy records self.now → IsUntouched number (reverse records)) }
    {
        match self.switches.get(usize::from(number)) {
            Some(Some(switch)) => Some(&switch.desk),
            Some(None) => None,
            None => None,
        }
    }
}

/// Plays a recording and reports to nobody. It ends early only where memory runs out.
pub fn played(alloc: Global, policy: &Policy, bytes: &[u8]) -> Result<PlayedDesks, ReportFault>
    requires { (items : List Item) × (read_items (length policy.now.slices) bytes.now ≡ Ok items) }
    ensures desks { (items : List Item) → read_items (length policy.now.slices) bytes.now ≡ Ok items → IfOk result (IsPlayed policy.now (told_in bytes.now items)) }
    ensures memory { IfErr result (λ f. f ≡ ReportFault.Memory) }
{
    let mut switches = no_switches(alloc)?;
    let mut spare = Vec::new(alloc);
    let mut player = Player::new(alloc, policy, Nobody {}, &mut spare);
    player.play_among(bytes, &mut switches)?;
    let events = player.place.number;
    Ok(PlayedDesks { switches, events })
}
