//! All switches of a recording, and a record among them.

ghost use Rattle.std.specs.Prelude.{◌≡◌, length, None, IfOk};
ghost use Rattle.recording.specs.Recordings.{IsItem};
ghost use Rattle.desk_words.specs.Recorded.{told_by, bytes_carried};
ghost use Rattle.event_player.specs.Switches.{IsRecord, PlaysAt, PlaysAmong, AreUnknown};

use crate::fault::ReportFault;
use crate::player::Player;
use crate::switch::Switch;
use crate::teller::Teller;
use desk_words::carried;
use recording::{Item, SWITCHES};
use std::alloc::{AllocError, Global};

/// No switch is known yet.
pub(crate) fn no_switches(alloc: Global) -> Result<Vec<Option<Switch>>, AllocError>
    ensures { IfOk result (λ v. AreUnknown v.items) }
{
    let mut switches = Vec::new(alloc);
    while switches.len() < SWITCHES {
        switches.push(None)?;
    }
    Ok(switches)
}

impl<T: Teller> Player<'_, T> {
    /// Plays the first record of a switch, which begins with it.
    #[inline(never)]
    fn play_first(
        &mut self,
        known: &mut Option<Switch>,
        item: &Item,
        bytes: &[u8],
    ) -> Result<(), ReportFault>
        requires record { IsRecord (length self.old.policy.now.slices) item.now bytes.now }
        requires unknown { known.old ≡ None }
        ensures { PlaysAt T.Tells (told_by item.now bytes.now) result self.old self.new known.old known.new }
    {
        let mut switch = Switch::new(self.alloc, self.policy)?;
        self.play_record(&mut switch, item, bytes)?;
        *known = Some(switch);
        Ok(())
    }

    /// Plays a record at its switch, which is there from its first record on.
    // A function clears room for all its locals, so that no switch is one of this one's, which each record calls.
    fn play_at(
        &mut self,
        known: &mut Option<Switch>,
        item: &Item,
        bytes: &[u8],
    ) -> Result<(), ReportFault>
        requires { IsRecord (length self.old.policy.now.slices) item.now bytes.now }
        ensures { PlaysAt T.Tells (told_by item.now bytes.now) result self.old self.new known.old known.new }
    {
        match known {
            Some(switch) => self.play_again(switch, item, bytes),
            None => self.play_first(known, item, bytes),
        }
    }

    /// Plays a record of the file, among all switches.
    pub(crate) fn play_item(
        &mut self,
        switches: &mut Vec<Option<Switch>>,
        file: &[u8],
        item: &Item,
    ) -> Result<(), ReportFault>
        requires item { IsItem (length self.old.policy.now.slices) file.now item.now }
        requires count { length switches.old.items ≡ 16 }
        ensures plays { PlaysAmong T.Tells (told_by item.now (bytes_carried file.now item.now)) result self.old self.new switches.old.items switches.new.items }
        ensures count { length switches.new.items ≡ 16 }
    {
        let bytes = carried(file, item);
        self.begin(item);
        let known = &mut switches[usize::from(item.switch)];
        self.play_at(known, item, bytes)
    }
}
