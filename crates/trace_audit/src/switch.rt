//! One switch of a trace: its session, and the rules by which its messages are judged.

ghost use Rattle.std.specs.Prelude.{ℕ, ◌≡◌, ◌+◌, ◌≤◌, List, length, IfOk, IfSome, OnOk};
ghost use Rattle.std.specs.Ordering.{nat_cmp};
ghost use Rattle.std.specs.BTreeMap.{get};
ghost use Rattle.of10_ctl.specs.Frames.{IsFrame};
ghost use Rattle.flowspace.specs.Order.{rules_on};
ghost use Rattle.recording.specs.Recordings.{Told, IsRead, item_at};
ghost use Rattle.recording.specs.declared.layout.Layout.TheVariants.{Trace};
ghost use Rattle.desk_words.specs.declared.event.Timed.{Timed};
ghost use Rattle.desk_words.specs.Recorded.{bytes_carried, told_by};
ghost use Rattle.trace_audit.specs.Auditing.{message_why};
ghost use Rattle.trace_audit.specs.Standing.{IsFrameAt, SessionStands, AreRulesOf, SwitchStands, IsFresh, Takes};

use crate::messages::message_why;
use crate::session::Session;
use crate::why::Why;
use desk_words::carried;
use flowspace::{Policy, SwitchPolicy};
use of10_ctl::Frame;
use recording::{Item, SENT_BYTES, SWITCH_BYTES, SWITCH_UP};
use std::alloc::{AllocError, Global};
use std::mem;

/// The rules of a switch that said a datapath id.
#[derive(Drop)]
pub(crate) struct SwitchRules {
    datapath: u64,
    policy: SwitchPolicy,
}

/// A switch of a trace.
#[derive(Drop)]
pub(crate) struct Switch {
    session: Session,
    /// They are made at the first message that is judged, and serve later sessions with the same datapath id.
    rules: Option<SwitchRules>,
}

/// The rules for a datapath id: those that are kept, where they are that.
fn rules_for(
    alloc: Global,
    policy: &Policy,
    kept: Option<SwitchRules>,
    datapath: u64,
) -> Result<SwitchRules, AllocError>
    requires { AreRulesOf policy.now.rules kept }
    ensures { IfOk result (λ own. (own.datapath ≡ datapath) × (own.policy.rules ≡ rules_on datapath policy.now.rules)) }
{
    if let Some(own) = kept {
        if own.datapath == datapath {
            return Ok(own);
        }
    }
    Ok(SwitchRules {
        datapath,
        policy: policy.of_switch(alloc, datapath)?,
    })
}

/// The frame of these bytes, in spare memory.
fn frame_of(alloc: Global, spare: &mut Vec<u8>, bytes: &[u8]) -> Result<Frame, AllocError>
    requires { IsFrame bytes.now }
    ensures { IfOk result (λ frame. frame ≡ bytes.now) }
{
    let mut memory = mem::replace(spare, Vec::new(alloc));
    memory.clear();
    memory.extend_from_slice(bytes)?;
    Ok(Frame::of(memory))
}

impl Switch {
    /// It hasn't connected.
    #[tactic(auto, using(crate::proofs::Taking::fresh))]
    pub(crate) fn new(alloc: Global) -> Switch
        ensures { IsFresh result }
    {
        Switch {
            session: Session::new(alloc),
            rules: None,
        }
    }

    /// What is wrong with a message that was sent for the slice at a slot.
    fn judge(
        &mut self,
        alloc: Global,
        policy: &Policy,
        file: &[u8],
        slot: u8,
        frame: &Frame,
    ) -> Result<Option<Why>, AllocError>
        requires places { (number : ℕ) → IfSome (get nat_cmp self.old.session.packets number) (IsFrameAt file.now) }
        requires rules { AreRulesOf policy.now.rules self.old.rules }
        ensures why { (h : List Timed) → SessionStands file.now h self.old.session → IfOk result (λ why. why ≡ message_why policy.now h slot frame.now) }
        ensures session { self.new.session ≡ self.old.session }
        ensures rules { OnOk result (AreRulesOf policy.now.rules self.new.rules) }
    {
        let Some(datapath) = self.session.datapath else {
            return Ok(Some(Why::Kind));
        };
        let rules = rules_for(alloc, policy, self.rules.take(), datapath)?;
        let why = message_why(alloc, &rules.policy, &self.session, file, slot, frame)?;
        self.rules = Some(rules);
        Ok(why)
    }

    /// What is wrong with the record at a place of the file, which is taken in.
    pub(crate) fn take(
        &mut self,
        alloc: Global,
        policy: &Policy,
        file: &[u8],
        at: u32,
        item: &Item,
        spare: &mut Vec<u8>,
    ) -> Result<Option<Why>, AllocError>
        requires stands { (before : List Told) × SwitchStands policy.now.rules file.now item.now.switch before self.old }
        requires item { (item.now ≡ item_at file.now at) × (at + 16 ≤ length file.now) }
        requires read { IsRead Trace (length policy.now.slices) file.now item.now }
        ensures { (before : List Told) → SwitchStands policy.now.rules file.now item.now.switch before self.old → Takes policy.now file.now (told_by item.now (bytes_carried file.now item.now)) before result self.new }
    {
        match item.kind {
            SWITCH_UP => self.session = Session::connected(alloc),
            SWITCH_BYTES => {
                let frame = frame_of(alloc, spare, carried(file, item))?;
                self.session.hear(at, &frame)?;
                *spare = frame.into_vec();
            }
            SENT_BYTES => {
                let frame = frame_of(alloc, spare, carried(file, item))?;
                let why = self.judge(alloc, policy, file, item.slot, &frame)?;
                *spare = frame.into_vec();
                return Ok(why);
            }
            _ => self.session.disconnect(),
        }
        Ok(None)
    }
}
