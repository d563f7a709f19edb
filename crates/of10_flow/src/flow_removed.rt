//! Messages of an entry that a switch removed (OpenFlow 1.0.0, section 5.4.2).

ghost use Rattle.std.specs.Prelude.{◌≡◌, ◌≤◌, ◌++◌, length, Err, OnOk, IfOk};
ghost use Rattle.byteorder.specs.Endian.{big_bytes};
ghost use Rattle.of10_model.specs.Spelling.{Spell};
ghost use Rattle.of10_action.specs.declared.fault.DecodeFault.TheVariants.{Memory};
ghost use Rattle.of10_action.specs.Actions.{padding};
ghost use Rattle.of10_action.specs.Reading.{Gives, Reads};
ghost use Rattle.of10_ctl.specs.declared.kind.TheConstants.{FLOW_REMOVED};
ghost use Rattle.of10_ctl.specs.Kinds.{IsOf};
ghost use Rattle.of10_flow.specs.FlowRemoveds.{IsFlowRemoved, read_flow_removed, removal_of, spell_flow_removed};

use crate::shared_fields::put_entry;
use of10_action::{DecodeFault, WireFault};
use of10_ctl::kind::FLOW_REMOVED;
use of10_ctl::{Frame, begin};
use of10_match::Match;
use of10_model::wire::{put_u8, put_u16, put_u32, put_u64, u8_at, u16_at, u32_at, u64_at};
use std::alloc::{AllocError, Global};

/// An entry that a switch removed from its table (OpenFlow 1.0.0, section 5.4.2).
#[derive(Clone, Copy, Debug, PartialEq, Eq)]
pub struct FlowRemoved {
    pub xid: u32,
    pub pattern: Match,
    pub cookie: u64,
    pub priority: u16,
    /// Why it was removed: 0 idle too long, 1 its time was up, 2 it was deleted.
    pub reason: u8,
    /// How long the entry stood: whole seconds, and the nanoseconds beyond them.
    pub seconds: u32,
    pub nanos: u32,
    /// The seconds without a packet that it was given (idle_timeout).
    pub idle: u16,
    /// Packets that it matched, and their bytes.
    pub packets: u64,
    pub bytes: u64,
}

/// The same where it lies, as in the frame that carries it: nothing of it is read before it is asked for.
#[derive(Clone, Copy)]
pub struct FlowRemovedView<'a> {
    bytes: &'a [u8; 88],
}

/// What the bytes of a flow-removed message say.
#[tactic(auto, unfolding(crate::specs::FlowRemoveds::read_flow_removed))]
fn read(bytes: &[u8]) -> Result<FlowRemovedView<'_>, WireFault>
    requires { length bytes.now ≤ 65535 }
    ensures exact { Reads removal_of result (read_flow_removed bytes.now) }
    ensures range { IfOk result (λ view. IsFlowRemoved (removal_of view)) }
{
    match <&[u8; 88]>::try_from(bytes) {
        Ok(bytes) => Ok(FlowRemovedView { bytes }),
        Err(_) => Err(WireFault::Length(bytes.len() as u16)),
    }
}

impl<'a> FlowRemovedView<'a> {
    /// The flow-removed message that the frame is, or its length where that isn't 88. Takes no memory.
    pub fn decode(frame: &'a Frame) -> Result<FlowRemovedView<'a>, WireFault>
        requires { IsOf FLOW_REMOVED frame.now }
        ensures exact { Reads removal_of result (read_flow_removed frame.now) }
        ensures range { IfOk result (λ view. IsFlowRemoved (removal_of view)) }
    {
        read(frame.as_slice())
    }

    /// What it says.
    pub fn entry(&self) -> FlowRemoved
        ensures value { result ≡ removal_of self.now }
        ensures range { IsFlowRemoved result }
    {
        let bytes = self.bytes;
        FlowRemoved {
            xid: u32_at(bytes, 4),
            pattern: Match::decode_at(bytes, 8),
            cookie: u64_at(bytes, 48),
            priority: u16_at(bytes, 56),
            reason: u8_at(bytes, 58),
            seconds: u32_at(bytes, 60),
            nanos: u32_at(bytes, 64),
            idle: u16_at(bytes, 68),
            packets: u64_at(bytes, 72),
            bytes: u64_at(bytes, 80),
        }
    }
}

fn put_times(out: &mut Vec<u8>, reason: u8, seconds: u32, nanos: u32) -> Result<(), AllocError>
    ensures { OnOk result (out.new.items ≡ out.old.items ++ (big_bytes 1 reason ++ padding 1 ++ big_bytes 4 seconds ++ big_bytes 4 nanos)) }
{
    put_u8(out, reason)?;
    put_u8(out, 0)?;
    put_u32(out, seconds)?;
    put_u32(out, nanos)
}

fn put_counts(out: &mut Vec<u8>, idle: u16, packets: u64, bytes: u64) -> Result<(), AllocError>
    ensures { OnOk result (out.new.items ≡ out.old.items ++ (big_bytes 2 idle ++ padding 2 ++ big_bytes 8 packets ++ big_bytes 8 bytes)) }
{
    put_u16(out, idle)?;
    put_u16(out, 0)?;
    put_u64(out, packets)?;
    put_u64(out, bytes)
}

impl FlowRemoved {
    /// The flow-removed message that the frame is, or its length where that isn't 88.
    pub fn decode(frame: &Frame) -> Result<FlowRemoved, DecodeFault>
        requires { IsOf FLOW_REMOVED frame.now }
        ensures exact { Gives (λ m. m) result (read_flow_removed frame.now) }
        ensures range { IfOk result IsFlowRemoved }
        ensures never_for_memory { result ≡ Err Memory → ⊥ }
    {
        match FlowRemovedView::decode(frame) {
            Ok(view) => Ok(view.entry()),
            Err(fault) => Err(DecodeFault::Wire(fault)),
        }
    }

    /// The message.
    #[tactic(auto, unfolding(of10_model::specs::Spelling::Spell, crate::specs::FlowRemoveds::spell_flow_removed))]
    pub fn encode(&self, alloc: Global) -> Result<Frame, AllocError>
        ensures value { IfOk result (λ f. f ≡ spell_flow_removed self.now) }
        ensures kind { IfOk result (λ f. IsOf FLOW_REMOVED f) }
        ensures size { IfOk result (λ f. length f ≡ 88) }
    {
        let mut out = begin(alloc, FLOW_REMOVED, self.xid, 80)?;
        put_entry(&mut out, &self.pattern, self.cookie, self.priority)?;
        put_times(&mut out, self.reason, self.seconds, self.nanos)?;
        put_counts(&mut out, self.idle, self.packets, self.bytes)?;
        Ok(Frame::of(out))
    }
}
