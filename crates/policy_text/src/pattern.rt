//! The match of a rule.

ghost use Rattle.policy_text.specs.Reading.{GivesAsText};
ghost use Rattle.policy_text.specs.Rules.{link_in, pattern_in};
ghost use Rattle.policy_text.specs.Views.{link_view, section};

use crate::fault::ReadFault;
use crate::section::Section;
use crate::values::{Numbers, Numerals};
use of10_model::Pattern;

/// The constraints on the link: where a packet came in, and its Ethernet header.
#[derive(Clone, Copy)]
struct Link {
    in_port: Option<u16>,
    dl_src: Option<u64>,
    dl_dst: Option<u64>,
    dl_vlan: Option<u16>,
    dl_vlan_pcp: Option<u8>,
    dl_type: Option<u16>,
}

#[tactic(auto, unfolding(crate::specs::Rules::link_in))]
fn link_in(table: &Section<'_>) -> Result<Link, ReadFault>
    ensures { GivesAsText link_view result (link_in (section table.now)) }
{
    Ok(Link {
        in_port: table.number16(Numbers::InPort, "in_port")?,
        dl_src: table.numeral(Numerals::Hardware, "dl_src")?,
        dl_dst: table.numeral(Numerals::Hardware, "dl_dst")?,
        dl_vlan: table.number16(Numbers::Vlan, "dl_vlan")?,
        dl_vlan_pcp: table.number8(Numbers::UpTo(7), "dl_vlan_pcp")?,
        dl_type: table.number16(Numbers::UpTo(0xffff), "dl_type")?,
    })
}

/// The constraints of a rule's table.
#[tactic(auto, unfolding(crate::specs::Rules::pattern_in))]
pub fn pattern_in(table: &Section<'_>) -> Result<Pattern, ReadFault>
    ensures { GivesAsText (λ m. m) result (pattern_in (section table.now)) }
{
    let link = link_in(table)?;
    Ok(Pattern {
        in_port: link.in_port,
        dl_src: link.dl_src,
        dl_dst: link.dl_dst,
        dl_vlan: link.dl_vlan,
        dl_vlan_pcp: link.dl_vlan_pcp,
        dl_type: link.dl_type,
        nw_tos: table.number8(Numbers::Service, "nw_tos")?,
        nw_proto: table.number8(Numbers::UpTo(255), "nw_proto")?,
        nw_src: table.addresses("nw_src")?,
        nw_dst: table.addresses("nw_dst")?,
        tp_src: table.number16(Numbers::UpTo(0xffff), "tp_src")?,
        tp_dst: table.number16(Numbers::UpTo(0xffff), "tp_dst")?,
    })
}
