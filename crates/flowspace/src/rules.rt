//! Rules, and what a rule may constrain.

ghost use Rattle.std.specs.Prelude.{◌≡◌, IfSome, IsTrue};
ghost use Rattle.of10_model.specs.Normal.{bit};
ghost use Rattle.flowspace.specs.Rules.{first_improper, holds, is_written_by, IsInPort, IsVlan, is_vlan, IsPlainRule};

use crate::fault::Field;
use crate::owners::is_in_port;
use of10_match::{Match, has_network, has_ports, has_service, has_vlan};
use of10_model::protocol::{LAST_VLAN, UNTAGGED};
use of10_model::{Pattern, has_bit};

/// Who may write the headers of a match, and who is shown their packets.
#[derive(Clone, Copy, Debug, PartialEq, Eq)]
pub struct Rule {
    /// The datapath id of the switch on which the rule holds; without one it holds on each.
    pub switch: Option<u64>,
    /// Of two rules that have a header, the one of the higher priority counts.
    pub priority: u32,
    pub pattern: Match,
    /// The slot of the slice that may write, which is its place in the policy from 0.
    pub writer: Option<u8>,
    /// The slots of the slices that may read: bit k is slot k.
    pub readers: u32,
}

/// Whether packets can have the VLAN: a number of 12 bits, or the mark of packets without a tag (OpenFlow
/// 1.0.0, section 5.2.3).
pub fn is_vlan(vlan: u16) -> bool
    ensures { result ≡ is_vlan vlan }
{
    vlan <= LAST_VLAN || vlan == UNTAGGED
}

/// Whether the port of entry and the VLAN, where they are given, are such that packets have them.
fn has_link(m: &Pattern) -> bool
    ensures plain { IsTrue result → IfSome m.now.in_port IsInPort × IfSome m.now.dl_vlan IsVlan }
    ensures only { IfSome m.now.in_port IsInPort → IfSome m.now.dl_vlan IsVlan → IsTrue result }
{
    m.in_port.is_none_or(|port| is_in_port(port)) && m.dl_vlan.is_none_or(|vlan| is_vlan(vlan))
}

/// The first field, in the order of a match's fields, that is given without what it needs: a VLAN, or a
/// type or protocol that has the field (OpenFlow 1.0.0, section 3.4).
#[tactic(auto, unfolding(crate::specs::Rules::first_improper))]
pub fn first_improper(m: &Pattern) -> Option<Field>
    ensures { result ≡ first_improper m.now }
{
    if m.dl_vlan_pcp.is_some() && !has_vlan(m.dl_vlan) {
        Some(Field::DlVlanPcp)
    } else if m.nw_tos.is_some() && !has_service(m.dl_type) {
        Some(Field::NwTos)
    } else if m.nw_proto.is_some() && !has_network(m.dl_type) {
        Some(Field::NwProto)
    } else if m.nw_src.is_some() && !has_network(m.dl_type) {
        Some(Field::NwSrc)
    } else if m.nw_dst.is_some() && !has_network(m.dl_type) {
        Some(Field::NwDst)
    } else if m.tp_src.is_some() && !has_ports(m.dl_type, m.nw_proto) {
        Some(Field::TpSrc)
    } else if m.tp_dst.is_some() && !has_ports(m.dl_type, m.nw_proto) {
        Some(Field::TpDst)
    } else {
        None
    }
}

impl Rule {
    /// Whether the port of entry and the VLAN are such that packets have them, and the match constrains a
    /// field only where that field means something. `Policy::load` takes such rules alone.
    #[tactic(auto, using(crate::proofs::Improper::plain_rule, crate::proofs::Improper::none_improper))]
    pub fn is_plain(&self) -> bool
        ensures plain { IsTrue result → IsPlainRule self.now }
        ensures only { IsPlainRule self.now → IsTrue result }
    {
        let m = self.pattern.pattern();
        has_link(m) && first_improper(m).is_none()
    }
}

/// Whether the rule holds on a switch.
pub(crate) fn is_held(rule: &Rule, datapath: u64) -> bool
    ensures { result ≡ holds datapath rule.now }
{
    rule.switch.is_none_or(|switch| switch == datapath)
}

/// Whether the slice at a slot writes the rule.
pub fn is_written_by(rule: &Rule, slot: usize) -> bool
    ensures { result ≡ is_written_by slot rule.now }
{
    rule.writer
        .is_some_and(|writer| usize::from(writer) == slot)
}

/// Whether a slot is among these: bit k stands for the slot k.
pub fn has_slot(slots: u32, slot: u8) -> bool
    ensures { result ≡ bit slots slot }
{
    slot < 32 && has_bit(slots, u32::from(slot))
}
