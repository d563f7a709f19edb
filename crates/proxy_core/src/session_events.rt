//! What events make of a session.

ghost use Rattle.std.specs.Prelude.{ℕ, ◌≡◌, true, false, slice_get, Some, IfOk, OnOk, OnErr, IsTrue};
ghost use Rattle.flow_book.specs.declared.state.SliceState.{SliceState};
ghost use Rattle.proxy_core.specs.Slots.{Comes, Hears, Keeps, SameQueue};
ghost use Rattle.proxy_core.specs.Opening.{has_side_at, is_up_at, AtSlot, Goes, Carries, StandsOn};

use crate::desk::Session;
use crate::known_ports::keep;
use crate::slice_events::{SliceMessage, SwitchFacts, come, go, hear};
use crate::slice_queues::{hand_out, make_rooms};
use crate::waiting::{make_room, push_more};
use of10_ctl::Frame;
use outbox::Outbox;
use std::alloc::{AllocError, Global};
use switch_side::{apply_all, react_in, reserve};

impl Session {
    pub(crate) fn has_side_at(&self, slot: u8) -> bool
        ensures { result ≡ has_side_at self.now slot }
    {
        let at = usize::from(slot);
        at < self.states.len() && at < self.queues.len()
    }

    /// Whether the slice at a slot is up.
    pub(crate) fn is_up(&self, slot: u8) -> bool
        ensures { result ≡ is_up_at self.now slot }
    {
        self.has_side_at(slot) && self.states[usize::from(slot)].up
    }

    /// A slice's controller connected. Whether there is such a slice.
    pub(crate) fn come(&mut self, alloc: Global, slot: u8) -> Result<bool, AllocError>
        ensures value { IfOk result (λ there. there ≡ has_side_at self.old slot) }
        ensures ok { OnOk result (AtSlot slot Comes self.old self.new) }
        ensures err { OnErr result (AtSlot slot Keeps self.old self.new) }
    {
        if !self.has_side_at(slot) {
            return Ok(false);
        }
        let at = usize::from(slot);
        come(alloc, &mut self.states[at], &mut self.queues[at])?;
        Ok(true)
    }

    /// The connection of a slice's controller ended. Whether there is such a slice.
    pub(crate) fn go(&mut self, slot: u8) -> bool
        ensures value { result ≡ has_side_at self.old slot }
        ensures change { AtSlot slot Goes self.old self.new }
    {
        if !self.has_side_at(slot) {
            return false;
        }
        let at = usize::from(slot);
        go(&mut self.states[at], &mut self.queues[at]);
        true
    }

    /// A message of a slice's controller. Whether its connection goes on; that of a slice that isn't up
    /// doesn't.
    pub(crate) fn hear(
        &mut self,
        alloc: Global,
        lane: &mut Outbox,
        slot: u8,
        frame: &Frame,
        moment: u64,
    ) -> Result<bool, AllocError>
        ensures down { IfOk result (λ on. is_up_at self.old slot ≡ false → (on ≡ false) × (self.new ≡ self.old) × (lane.new ≡ lane.old)) }
        ensures up { IfOk result (λ on. is_up_at self.old slot ≡ true → AtSlot slot (λ a b x y. Hears self.old.policy self.old.ports self.old.features slot frame.now moment on a b lane.old x y lane.new) self.old self.new) }
        ensures err { OnErr result (AtSlot slot Keeps self.old self.new) }
        ensures lane { OnErr result (SameQueue lane.old lane.new) }
    {
        if !self.is_up(slot) {
            return Ok(false);
        }
        let at = usize::from(slot);
        let switch = SwitchFacts {
            policy: self.policy.policy(),
            ports: &self.ports,
            features: &self.features,
        };
        let message = SliceMessage {
            slot,
            frame,
            moment,
        };
        hear(
            alloc,
            &switch,
            &message,
            &mut self.states[at],
            &mut self.queues[at],
            lane,
        )
    }

    /// A message of the switch. Whether its connection goes on.
    #[inline(always)]
    pub(crate) fn hear_switch(
        &mut self,
        alloc: Global,
        lane: &mut Outbox,
        frame: &Frame,
    ) -> Result<bool, AllocError>
        ensures ok { IfOk result (λ on. (moment : ℕ) → Carries moment frame.now on self.old lane.old self.new lane.new) }
        ensures err { OnErr result (StandsOn self.old self.new) }
        ensures lane { OnErr result (SameQueue lane.old lane.new) }
    {
        if self.states.len() != self.policy.policy().slices().len() {
            return Ok(false);
        }
        react_in(
            alloc,
            &mut self.spare,
            self.policy.policy(),
            self.policy.index(),
            &self.ports,
            &self.states,
            frame,
        )?;
        let dispatch = &mut self.spare.dispatch;
        if dispatch.close {
            return Ok(false);
        }
        make_room(lane, dispatch.to_switch.len())?;
        make_rooms(&mut self.queues, &dispatch.to_slices)?;
        reserve(&mut self.states, &dispatch.changes)?;
        keep(&mut self.ports, &dispatch.port)?;
        apply_all(alloc, &mut self.states, &mut dispatch.changes);
        hand_out(&mut self.queues, &mut dispatch.to_slices);
        push_more(alloc, lane, &mut dispatch.to_switch);
        Ok(true)
    }
}
