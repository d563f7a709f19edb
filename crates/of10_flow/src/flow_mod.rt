//! Messages that change a flow table (OpenFlow 1.0.0, section 5.3.3).

ghost use Rattle.std.specs.Prelude.{◌≡◌, ◌+◌, ◌≤◌, ◌++◌, true, false, length, drop, is_ok, Err, OnOk, IfOk};
ghost use Rattle.std.specs.List.{All};
ghost use Rattle.byteorder.specs.Endian.{big_bytes};
ghost use Rattle.of10_action.specs.declared.fault.DecodeFault.TheVariants.{Memory};
ghost use Rattle.of10_action.specs.Actions.{IsAction, HasAddress, spelling};
ghost use Rattle.of10_action.specs.Reading.{Gives, action_at};
ghost use Rattle.of10_ctl.specs.declared.kind.TheConstants.{FLOW_MOD};
ghost use Rattle.of10_ctl.specs.Kinds.{IsOf};
ghost use Rattle.of10_flow.specs.declared.protocol.TheConstants.{SEND_FLOW_REM, CHECK_OVERLAP, EMERG};
ghost use Rattle.of10_flow.specs.Tables.{is_delete, has_flag};
ghost use Rattle.of10_flow.specs.FlowMods.{IsFlowMod, flow_mod_with, read_flow_mod, shown_flow_mod, spell_flow_mod};

use crate::protocol::{CHECK_OVERLAP, DELETE, EMERG, SEND_FLOW_REM};
use crate::shared_fields::{put_buffer, put_entry};
use of10_action::{Action, Actions, ActionsView, DecodeFault, WireFault, encode_list, list_size};
use of10_ctl::kind::FLOW_MOD;
use of10_ctl::{Frame, begin};
use of10_match::Match;
use of10_model::wire::{put_u16, u16_at, u32_at, u64_at};
use std::alloc::{AllocError, Global};
use std::marker::Model;

/// A change of a flow table (OpenFlow 1.0.0, section 5.3.3).
#[derive(Debug, Drop)]
pub struct FlowMod {
    pub xid: u32,
    pub pattern: Match,
    /// A number of the controller's own, which the switch keeps with the entry.
    pub cookie: u64,
    /// What to do, such as `protocol::ADD`.
    pub command: u16,
    /// Seconds without a packet after which the entry goes (idle_timeout); 0 for never.
    pub idle: u16,
    /// Seconds after which the entry goes (hard_timeout); 0 for never.
    pub hard: u16,
    /// The higher one is looked at first.
    pub priority: u16,
    /// The buffered packet that the actions are applied to as well (buffer_id), or `protocol::NO_BUFFER`.
    pub buffer: u32,
    /// What a delete asks of an entry: an output to this port, or to any port where this is 0xffff.
    pub out_port: u16,
    /// Bits such as `protocol::CHECK_OVERLAP`, which `checks_overlap` and its like ask for.
    pub flags: u16,
    pub actions: Actions,
}

/// The same with its match and its actions where they stand, as each piece of one is sent: nothing is copied. Each
/// field is `FlowMod`'s of that name.
#[derive(Clone, Copy)]
pub struct FlowModParts<'a> {
    pub xid: u32,
    pub pattern: &'a Match,
    pub cookie: u64,
    pub command: u16,
    pub idle: u16,
    pub hard: u16,
    pub priority: u16,
    pub buffer: u32,
    pub out_port: u16,
    pub flags: u16,
    pub actions: &'a [Action],
}

/// The same where it lies, as in the frame that carries it: its actions are right, and nothing is copied. Its fields
/// are read as it is copied, so that the view is small.
#[derive(Drop)]
pub struct FlowModView<'a> {
    bytes: &'a [u8],
    actions: ActionsView<'a>,
}

impl<'a> Model for FlowModView<'a> {
    ghost use Rattle.std.specs.Prelude.{◌≤◌, length};
    ghost use Rattle.of10_flow.specs.declared.flow_mod.FlowMod.{FlowMod};
    ghost use Rattle.of10_flow.specs.FlowMods.{flow_mod_with};

    ghost Value = { FlowMod };

    ghost view = { λ v. flow_mod_with v.actions v.bytes.now };

    ghost invariant = { λ v. 72 ≤ length v.bytes.now };
}

fn behind(bytes: &[u8], at: usize) -> &[u8]
    requires { at ≤ length bytes.now }
    ensures value { result.now ≡ drop at bytes.now }
    ensures size { length result.now + at ≡ length bytes.now }
{
    &bytes[at..]
}

/// What the bytes of a flow-mod say.
#[tactic(auto, using(of10_action::proofs::Lengths::spelled_length), unfolding(crate::specs::FlowMods::read_flow_mod, crate::specs::FlowMods::flow_mod_with))]
fn read(bytes: &[u8]) -> Result<FlowModView<'_>, WireFault>
    requires { length bytes.now ≤ 65535 }
    ensures exact { result ≡ read_flow_mod bytes.now }
    ensures range { IfOk result IsFlowMod }
{
    if bytes.len() < 72 {
        return Err(WireFault::Length(bytes.len() as u16));
    }
    let actions = ActionsView::decode(behind(bytes, 72))?;
    Ok(FlowModView { bytes, actions })
}

impl<'a> FlowModView<'a> {
    /// The flow-mod that the frame is, or the first fault in it: its length where it is shorter than its fields,
    /// then what is wrong with the first action that is wrong. Takes no memory.
    pub fn decode(frame: &'a Frame) -> Result<FlowModView<'a>, WireFault>
        requires { IsOf FLOW_MOD frame.now }
        ensures exact { result ≡ read_flow_mod frame.now }
        ensures range { IfOk result IsFlowMod }
    {
        read(frame.as_slice())
    }

    /// The same with a copy of the actions, for which memory is taken where there are some.
    #[tactic(auto, unfolding(crate::specs::FlowMods::flow_mod_with))]
    pub fn copied(&self, alloc: Global) -> Result<FlowMod, AllocError>
        ensures value { IfOk result (λ m. m ≡ self.now) }
        ensures memory { is_ok result ≡ false → 1 ≤ length self.now.actions }
    {
        let bytes = self.bytes;
        let actions = self.actions.copied(alloc)?;
        Ok(FlowMod {
            xid: u32_at(bytes, 4),
            pattern: Match::decode_at(bytes, 8),
            cookie: u64_at(bytes, 48),
            command: u16_at(bytes, 56),
            idle: u16_at(bytes, 58),
            hard: u16_at(bytes, 60),
            priority: u16_at(bytes, 62),
            buffer: u32_at(bytes, 64),
            out_port: u16_at(bytes, 68),
            flags: u16_at(bytes, 70),
            actions,
        })
    }
}

fn put_times(out: &mut Vec<u8>, idle: u16, hard: u16, priority: u16) -> Result<(), AllocError>
    ensures { OnOk result (out.new.items ≡ out.old.items ++ (big_bytes 2 idle ++ big_bytes 2 hard ++ big_bytes 2 priority)) }
{
    put_u16(out, idle)?;
    put_u16(out, hard)?;
    put_u16(out, priority)
}

impl<'a> FlowModParts<'a> {
    /// The message, of at most 65,535 bytes.
    #[tactic(auto, unfolding(crate::specs::FlowMods::spell_flow_mod))]
    pub fn encode(&self, alloc: Global) -> Result<Frame, AllocError>
        requires addresses { All HasAddress self.now.actions.now }
        requires fits { 72 + length (spelling self.now.actions.now) ≤ 65535 }
        ensures value { IfOk result (λ f. f ≡ spell_flow_mod (shown_flow_mod self.now)) }
        ensures kind { IfOk result (λ f. IsOf FLOW_MOD f) }
        ensures size { IfOk result (λ f. length f ≡ 72 + length (spelling self.now.actions.now)) }
    {
        let size = list_size(self.actions) as usize;
        let mut out = begin(alloc, FLOW_MOD, self.xid, 64 + size)?;
        put_entry(&mut out, self.pattern, self.cookie, self.command)?;
        put_times(&mut out, self.idle, self.hard, self.priority)?;
        put_buffer(&mut out, self.buffer, self.out_port, self.flags)?;
        encode_list(self.actions, &mut out)?;
        Ok(Frame::of(out))
    }
}

impl FlowMod {
    /// The flow-mod that the frame is, or the first fault in it: its length where it is shorter than its
    /// fields, then what is wrong with the first action that is wrong.
    pub fn decode(alloc: Global, frame: &Frame) -> Result<FlowMod, DecodeFault>
        requires { IsOf FLOW_MOD frame.now }
        ensures exact { Gives (λ m. m) result (read_flow_mod frame.now) }
        ensures range { IfOk result IsFlowMod }
        // Memory is taken for actions alone, and once the first of them is right.
        ensures memory { result ≡ Err Memory → (72 ≤ length frame.now) × (is_ok (action_at (drop 72 frame.now)) ≡ true) }
    {
        match FlowModView::decode(frame) {
            Ok(view) => Ok(view.copied(alloc)?),
            Err(fault) => Err(DecodeFault::Wire(fault)),
        }
    }

    /// Whether it takes entries away: its command is DELETE, DELETE_STRICT or a number above these, which no
    /// command has (OpenFlow 1.0.0, section 5.3.3).
    pub fn is_delete(&self) -> bool
        ensures { result ≡ is_delete self.now }
    {
        self.command >= DELETE
    }

    /// Whether the flag is set, one of those of `protocol`.
    fn has_flag(&self, flag: u16) -> bool
        requires { 1 ≤ flag }
        ensures { result ≡ has_flag flag self.now }
    {
        self.flags / flag % 2 == 1
    }

    /// Whether a flow-removed message is asked for when the entry goes: the flag SEND_FLOW_REM is set
    /// (OpenFlow 1.0.0, section 5.3.3).
    pub fn asks_for_removal(&self) -> bool
        ensures { result ≡ has_flag SEND_FLOW_REM self.now }
    {
        self.has_flag(SEND_FLOW_REM)
    }

    /// Whether it is to be refused where an entry of its priority overlaps it: the flag CHECK_OVERLAP is set
    /// (OpenFlow 1.0.0, section 5.3.3).
    pub fn checks_overlap(&self) -> bool
        ensures { result ≡ has_flag CHECK_OVERLAP self.now }
    {
        self.has_flag(CHECK_OVERLAP)
    }

    /// Whether its entry is for a switch that has lost its controller: the flag EMERG is set (OpenFlow 1.0.0,
    /// section 5.3.3).
    pub fn is_emergency(&self) -> bool
        ensures { result ≡ has_flag EMERG self.now }
    {
        self.has_flag(EMERG)
    }

    /// The same flow-mod; nothing is copied.
    pub fn parts(&self) -> FlowModParts<'_>
        ensures value { shown_flow_mod result ≡ self.now }
        ensures addresses { All HasAddress result.actions.now }
    {
        FlowModParts {
            xid: self.xid,
            pattern: &self.pattern,
            cookie: self.cookie,
            command: self.command,
            idle: self.idle,
            hard: self.hard,
            priority: self.priority,
            buffer: self.buffer,
            out_port: self.out_port,
            flags: self.flags,
            actions: self.actions.as_slice(),
        }
    }

    /// The message, of at most 65,535 bytes.
    pub fn encode(&self, alloc: Global) -> Result<Frame, AllocError>
        requires { 72 + length (spelling self.now.actions) ≤ 65535 }
        ensures value { IfOk result (λ f. f ≡ spell_flow_mod self.now) }
        ensures kind { IfOk result (λ f. IsOf FLOW_MOD f) }
        ensures size { IfOk result (λ f. length f ≡ 72 + length (spelling self.now.actions)) }
    {
        self.parts().encode(alloc)
    }
}
