//! One switch of a recording: its desk, and what came on its connections.

ghost use Rattle.std.specs.Prelude.{ℕ, ◌≡◌, ◌<◌, true, List, [], ◌∷◌, length, Some, IfOk, OnOk};
ghost use Rattle.flowspace.specs.Policies.{PolicyView};
ghost use Rattle.recording.specs.Recordings.{Told};
ghost use Rattle.answer_bounds.specs.Bounds.{IsFramed};
ghost use Rattle.desk_words.specs.declared.event.Timed.{Timed};
ghost use Rattle.desk_words.specs.Recorded.{told_by, happenings, happens};
ghost use Rattle.event_player.specs.Switches.{IsFreshSwitch, SwitchStands, IsFound, IsRecord, IsTurn, Readies, told_from, PlaysRecord, PlaysAt};

use crate::fault::ReportFault;
use crate::player::Player;
use crate::streams::{Streams, restart};
use crate::teller::Teller;
use flowspace::Policy;
use proxy_core::{Desk, Dest, Event};
use recording::{Item, SLICE_BYTES, SLICE_UP, SWITCH_BYTES, SWITCH_DOWN, SWITCH_UP};
use std::alloc::{AllocError, Global};

/// A switch of a recording.
#[derive(Drop)]
pub(crate) struct Switch {
    pub(crate) desk: Desk,
    pub(crate) streams: Streams,
}

impl Switch {
    /// Nothing has happened yet.
    pub(crate) fn new(alloc: Global, policy: &Policy) -> Result<Switch, AllocError>
        ensures { IfOk result (IsFreshSwitch policy.now) }
    {
        Ok(Switch {
            desk: Desk::new(alloc, policy.copy(alloc)?),
            streams: Streams::new(alloc, policy.slice_count())?,
        })
    }

    /// All begins anew.
    fn begin_anew(&mut self, alloc: Global, policy: &Policy) -> Result<(), AllocError>
        ensures { OnOk result (IsFreshSwitch policy.now self.new) }
    {
        *self = Switch::new(alloc, policy)?;
        Ok(())
    }

    /// Before a record, where there were records before it: where the switch connects, all begins anew.
    // No switch is a local of this one, as in `play_at`.
    #[inline(never)]
    fn renew(&mut self, alloc: Global, policy: &Policy, item: &Item) -> Result<(), AllocError>
        ensures { OnOk result ((bytes : List ℕ) (before : List Told) → SwitchStands policy.now item.now.switch before self.old → IsFound policy.now (told_by item.now bytes) before self.new) }
    {
        if item.kind != SWITCH_UP {
            return Ok(());
        }
        self.begin_anew(alloc, policy)?;
        Ok(())
    }

    /// Before the event of a record that carries no bytes: where a slice's controller connects, its stream
    /// begins anew.
    fn ready(&mut self, alloc: Global, item: &Item)
        requires { IsTurn item.now.kind }
        ensures { (policy : PolicyView) → Readies policy (told_by item.now []) self.old self.new }
    {
        if item.kind == SLICE_UP {
            restart(alloc, &mut self.streams.slices, item.slot);
        }
    }
}

/// The one event of a record that carries no bytes.
fn event_of(item: &Item) -> Event
    requires { IsTurn item.now.kind }
    ensures one { (before : List Told) → happenings (told_by item.now []) before ≡ result ∷ [] }
    ensures framed { IsFramed result }
    ensures happens { (policy : PolicyView) (h : List Timed) → happens policy h result ≡ true }
{
    match item.kind {
        SWITCH_UP => Event::SwitchUp,
        SWITCH_DOWN => Event::SwitchDown,
        SLICE_UP => Event::SliceUp(item.slot),
        _ => Event::SliceDown(item.slot),
    }
}

impl<T: Teller> Player<'_, T> {
    /// A connection begins or ends. A switch that connects is fresh.
    #[inline(never)]
    fn connection_turns(&mut self, switch: &mut Switch, item: &Item) -> Result<(), ReportFault>
        requires { IsTurn item.now.kind }
        ensures { PlaysRecord T.Tells (told_by item.now []) result self.old self.new switch.old switch.new }
    {
        switch.ready(self.alloc, item);
        self.play(&mut switch.desk, event_of(item))
    }

    /// Bytes of the switch.
    fn switch_speaks(&mut self, switch: &mut Switch, bytes: &[u8]) -> Result<(), ReportFault>
        ensures { (number moment : ℕ) → PlaysRecord T.Tells (told_from Dest.Switch number moment bytes.now) result self.old self.new switch.old switch.new }
    {
        let Switch { desk, streams } = switch;
        self.hear_bytes(desk, Dest::Switch, &mut streams.switch, bytes)
    }

    /// Bytes of the controller of the slice at a slot.
    fn slice_speaks(
        &mut self,
        switch: &mut Switch,
        slot: u8,
        bytes: &[u8],
    ) -> Result<(), ReportFault>
        requires { slot < length self.old.policy.now.slices }
        ensures { (number moment : ℕ) → PlaysRecord T.Tells (told_from (Dest.Slice slot) number moment bytes.now) result self.old self.new switch.old switch.new }
    {
        let Switch { desk, streams } = switch;
        // Each slot of the policy has a stream.
        let Some(framer) = streams.slices.get_mut(usize::from(slot)) else {
            return Ok(());
        };
        self.hear_bytes(desk, Dest::Slice(slot), framer, bytes)
    }

    /// Plays a record at its switch, which is a fresh one where the record is the switch's up.
    #[inline(always)]
    pub(crate) fn play_record(
        &mut self,
        switch: &mut Switch,
        item: &Item,
        bytes: &[u8],
    ) -> Result<(), ReportFault>
        requires { IsRecord (length self.old.policy.now.slices) item.now bytes.now }
        ensures { PlaysRecord T.Tells (told_by item.now bytes.now) result self.old self.new switch.old switch.new }
    {
        match item.kind {
            SWITCH_BYTES => self.switch_speaks(switch, bytes),
            SLICE_BYTES => self.slice_speaks(switch, item.slot, bytes),
            _ => self.connection_turns(switch, item),
        }
    }

    /// Plays a record at a switch of which there were records before: where the switch connects, all begins
    /// anew.
    pub(crate) fn play_again(
        &mut self,
        switch: &mut Switch,
        item: &Item,
        bytes: &[u8],
    ) -> Result<(), ReportFault>
        requires { IsRecord (length self.old.policy.now.slices) item.now bytes.now }
        ensures { PlaysAt T.Tells (told_by item.now bytes.now) result self.old self.new (Some switch.old) (Some switch.new) }
    {
        switch.renew(self.alloc, self.policy, item)?;
        self.play_record(switch, item, bytes)
    }
}
