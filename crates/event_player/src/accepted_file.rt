//! A recording that is accepted, played record by record as its file is read.

ghost use Rattle.std.specs.Prelude.{◌≡◌, ◌+◌, ◌≤◌, List, length, reverse, Ok, OnOk};
ghost use Rattle.recording.specs.declared.item.Item.{Item};
ghost use Rattle.recording.specs.Recordings.{read_items};
ghost use Rattle.desk_words.specs.Recorded.{told_in};
ghost use Rattle.event_player.specs.Players.{TellsAll};
ghost use Rattle.event_player.specs.Switches.{AreUnknown, SwitchesStand};

use crate::all_switches::no_switches;
use crate::fault::ReportFault;
use crate::player::Player;
use crate::switch::Switch;
use crate::teller::Teller;
use recording::{MAGIC, item_at};

impl<T: Teller> Player<'_, T> {
    /// Plays all records of an accepted file, and reports all that comes of them, event by event. It makes no
    /// list of the records.
    pub fn play_file(&mut self, file: &[u8]) -> Result<(), ReportFault>
        requires items { (items : List Item) × (read_items (length self.old.policy.now.slices) file.now ≡ Ok items) }
        requires first { self.old.place.number ≡ 0 }
        ensures { (items : List Item) → read_items (length self.old.policy.now.slices) file.now ≡ Ok items → TellsAll T.Tells self.old.policy.now (told_in file.now items) result self.old self.new }
    {
        let mut switches = no_switches(self.alloc)?;
        self.play_among(file, &mut switches)
    }

    /// Plays all of them at these switches, of which nothing is known yet.
    pub(crate) fn play_among(
        &mut self,
        file: &[u8],
        switches: &mut Vec<Option<Switch>>,
    ) -> Result<(), ReportFault>
        requires items { (items : List Item) × (read_items (length self.old.policy.now.slices) file.now ≡ Ok items) }
        requires first { self.old.place.number ≡ 0 }
        requires unknown { AreUnknown switches.old.items }
        ensures told { (items : List Item) → read_items (length self.old.policy.now.slices) file.now ≡ Ok items → TellsAll T.Tells self.old.policy.now (told_in file.now items) result self.old self.new }
        ensures stand { OnOk result ((items : List Item) → read_items (length self.old.policy.now.slices) file.now ≡ Ok items → SwitchesStand self.old.policy.now (reverse (told_in file.now items)) switches.new.items) }
    {
        let mut at = MAGIC.len();
        while at < file.len() {
            let item = item_at(file, at);
            self.play_item(switches, file, &item)?;
            at = item.from + item.size;
        }
        Ok(())
    }
}
