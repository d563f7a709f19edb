//! Headers, constraints and actions of few values, drawn.

ghost use Rattle.std.specs.Prelude.{◌≡◌, ◌<◌, ◌%◌};
ghost use Rattle.of10_action.specs.Actions.{HasAddress};

use of10_action::Action;
use of10_match::{Header12, exact_pattern};
use of10_model::{Pattern, Prefix};

pub const FIRST_HEADER: Header12 = Header12 {
    in_port: 1,
    dl_src: 1,
    dl_dst: 2,
    dl_vlan: 2,
    dl_vlan_pcp: 1,
    dl_type: 0x0800,
    nw_tos: 4,
    nw_proto: 6,
    nw_src: 0x0a000001,
    nw_dst: 0x0a000002,
    tp_src: 1,
    tp_dst: 2,
};

#[derive(Drop)]
pub struct Draws {
    numbers: draws::Draws,
}

impl Draws {
    pub fn new(seed: u64) -> Draws {
        Draws {
            numbers: draws::Draws::new(seed),
        }
    }

    fn chance(&mut self, of: u8) -> bool
        requires { 0 < of }
    {
        self.numbers.below(of) == 0
    }

    fn vlan(&mut self) -> u16 {
        match self.numbers.below(3) {
            0 => 0xffff,
            n => u16::from(n),
        }
    }

    fn kind(&mut self) -> u16 {
        match self.numbers.below(4) {
            0 => 0x0806,
            1 => 0x88cc,
            _ => 0x0800,
        }
    }

    fn protocol(&mut self) -> u8 {
        match self.numbers.below(4) {
            0 => 1,
            1 => 17,
            _ => 6,
        }
    }

    fn address(&mut self) -> u32 {
        0x0a000000 + 0x10000 * u32::from(self.numbers.below(3)) + u32::from(self.numbers.below(3))
    }

    fn service(&mut self) -> u8
        ensures { result % 4 ≡ 0 }
    {
        4 * self.numbers.below(3)
    }

    /// The header with one field drawn anew.
    pub fn changed(&mut self, h: &Header12) -> Header12 {
        match self.numbers.below(12) {
            0 => Header12 {
                in_port: u16::from(self.numbers.below(3)),
                ..*h
            },
            1 => Header12 {
                dl_src: u64::from(self.numbers.below(3)),
                ..*h
            },
            2 => Header12 {
                dl_dst: u64::from(self.numbers.below(3)),
                ..*h
            },
            3 => Header12 {
                dl_vlan: self.vlan(),
                ..*h
            },
            4 => Header12 {
                dl_vlan_pcp: self.numbers.below(3),
                ..*h
            },
            5 => Header12 {
                dl_type: self.kind(),
                ..*h
            },
            _ => self.changed_payload(h),
        }
    }

    fn changed_payload(&mut self, h: &Header12) -> Header12 {
        match self.numbers.below(6) {
            0 => Header12 {
                nw_tos: self.service(),
                ..*h
            },
            1 => Header12 {
                nw_proto: self.protocol(),
                ..*h
            },
            2 => Header12 {
                nw_src: self.address(),
                ..*h
            },
            3 => Header12 {
                nw_dst: self.address(),
                ..*h
            },
            4 => Header12 {
                tp_src: u16::from(self.numbers.below(3)),
                ..*h
            },
            _ => Header12 {
                tp_dst: u16::from(self.numbers.below(3)),
                ..*h
            },
        }
    }

    fn prefix(&mut self, value: u32) -> Option<Prefix> {
        match self.numbers.below(4) {
            0 => Some(Prefix { bits: 32, value }),
            1 => Some(Prefix { bits: 16, value }),
            2 => Some(Prefix { bits: 8, value }),
            _ => None,
        }
    }

    /// Constraints, each free or of the header's value; all of them in one of eight.
    pub fn pattern_near(&mut self, h: &Header12) -> Pattern {
        if self.chance(8) {
            exact_pattern(h)
        } else {
            self.some_of(h)
        }
    }

    fn some_of(&mut self, h: &Header12) -> Pattern {
        Pattern {
            in_port: self.chance(4).then_some(h.in_port),
            dl_src: self.chance(4).then_some(h.dl_src),
            dl_dst: self.chance(4).then_some(h.dl_dst),
            dl_vlan: self.chance(2).then_some(h.dl_vlan),
            dl_vlan_pcp: self.chance(2).then_some(h.dl_vlan_pcp),
            dl_type: self.chance(2).then_some(h.dl_type),
            nw_tos: self.chance(4).then_some(h.nw_tos),
            nw_proto: self.chance(2).then_some(h.nw_proto),
            nw_src: self.prefix(h.nw_src),
            nw_dst: self.prefix(h.nw_dst),
            tp_src: self.chance(3).then_some(h.tp_src),
            tp_dst: self.chance(3).then_some(h.tp_dst),
        }
    }

    pub fn action(&mut self) -> Action
        ensures { HasAddress result }
    {
        match self.numbers.below(12) {
            0 => Action::SetVlanVid(0x0fff + u16::from(self.numbers.below(3))),
            1 => Action::SetVlanPcp(self.numbers.below(16)),
            2 => Action::StripVlan,
            3 => Action::SetDlSrc(u64::from(self.numbers.below(3))),
            4 => Action::SetDlDst(u64::from(self.numbers.below(3))),
            5 => Action::SetNwSrc(self.address()),
            6 => Action::SetNwDst(self.address()),
            7 => Action::SetNwTos(self.numbers.below(16)),
            8 => Action::SetTpSrc(u16::from(self.numbers.below(3))),
            9 => Action::SetTpDst(u16::from(self.numbers.below(3))),
            10 => Action::Enqueue { port: 1, queue: 2 },
            _ => Action::Output {
                port: 1,
                max_len: 0,
            },
        }
    }
}
