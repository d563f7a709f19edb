//! The twelve fields of a packet that matches speak of.

use std::marker::Model;

/// The twelve fields of a packet on which it is matched (OpenFlow 1.0.0, section 3.1). Hardware
/// addresses are below 2^48, the VLAN priority is at most 7 and the type of service is a multiple of 4;
/// an untagged packet has the VLAN 0xffff.
#[derive(Clone, Copy, Debug, PartialEq, Eq)]
pub struct Header12 {
    pub in_port: u16,
    pub dl_src: u64,
    pub dl_dst: u64,
    pub dl_vlan: u16,
    pub dl_vlan_pcp: u8,
    pub dl_type: u16,
    pub nw_tos: u8,
    pub nw_proto: u8,
    pub nw_src: u32,
    pub nw_dst: u32,
    pub tp_src: u16,
    pub tp_dst: u16,
}

impl Model for Header12 {
    ghost use Rattle.of10_model.specs.Header.{Header, IsHeader};

    ghost Value = { Header };

    ghost view = { λ h. record { in_port = h.in_port; dl_src = h.dl_src; dl_dst = h.dl_dst; dl_vlan = h.dl_vlan; dl_vlan_pcp = h.dl_vlan_pcp; dl_type = h.dl_type; nw_tos = h.nw_tos; nw_proto = h.nw_proto; nw_src = h.nw_src; nw_dst = h.nw_dst; tp_src = h.tp_src; tp_dst = h.tp_dst } };

    ghost invariant = { λ h. IsHeader (record { in_port = h.in_port; dl_src = h.dl_src; dl_dst = h.dl_dst; dl_vlan = h.dl_vlan; dl_vlan_pcp = h.dl_vlan_pcp; dl_type = h.dl_type; nw_tos = h.nw_tos; nw_proto = h.nw_proto; nw_src = h.nw_src; nw_dst = h.nw_dst; tp_src = h.tp_src; tp_dst = h.tp_dst }) };

    ghost inverse = { λ h. record { in_port = h.in_port; dl_src = h.dl_src; dl_dst = h.dl_dst; dl_vlan = h.dl_vlan; dl_vlan_pcp = h.dl_vlan_pcp; dl_type = h.dl_type; nw_tos = h.nw_tos; nw_proto = h.nw_proto; nw_src = h.nw_src; nw_dst = h.nw_dst; tp_src = h.tp_src; tp_dst = h.tp_dst } };
}
