//! Rules, matches and headers of few values, drawn.

use super::given::spelled;
use flowspace::Rule;
use of10_match::{Header12, Match};
use of10_model::wire::set_u16;
use samples::{packet, rule};

#[derive(Drop)]
pub struct Draws {
    numbers: draws::Draws,
}

impl Draws {
    pub fn new(seed: u64) -> Draws {
        Draws {
            numbers: draws::Draws::new(seed),
        }
    }

    fn address(&mut self) -> u32 {
        0x0a00_0000 + 0x1_0000 * u32::from(self.numbers.below(3)) + u32::from(self.numbers.below(2))
    }

    /// The low bits of an address that a match ignores: 0, 16, 24, or 32 of them.
    fn ignored(&mut self) -> u32 {
        match self.numbers.below(6) {
            0 => 0,
            1 | 2 => 16,
            3 => 24,
            _ => 32,
        }
    }

    /// IPv4 packets from a port, to or from some networks and for some TCP ports; port 0 is any.
    fn at(&mut self, port: u8) -> Match {
        let mut word = 0x0030_006f | self.ignored() << 8 | self.ignored() << 14;
        let mut protocol = 0;
        if self.numbers.below(2) == 0 {
            word ^= 0x20;
            protocol = 6;
        }
        if protocol == 0 || self.numbers.below(2) == 0 {
            word |= 0x80;
        }
        if port > 0 {
            word ^= 1;
        }
        let service = 80 + u16::from(self.numbers.below(2));
        let mut bytes = spelled(word, protocol, self.address(), self.address(), service);
        set_u16(&mut bytes, 4, u16::from(port));
        Match::decode(&bytes)
    }

    /// A rule of the first slice for packets from port 1, or one of the second for those from port 2.
    pub fn rule(&mut self) -> Rule {
        let writer = self.numbers.below(4) / 3;
        let pattern = self.at(writer + 1);
        rule(u32::from(self.numbers.below(3)), &pattern, writer, 0)
    }

    /// A match, in one of three cases of packets from any port.
    pub fn pattern(&mut self) -> Match {
        let port = self.numbers.below(3);
        self.at(port)
    }

    /// A TCP or UDP packet.
    pub fn header(&mut self) -> Header12 {
        let in_port = 1 + u16::from(self.numbers.below(2));
        let nw_proto = 6 + 11 * self.numbers.below(2);
        let nw_src = self.address();
        let nw_dst = self.address();
        let tp_dst = 80 + u16::from(self.numbers.below(2));
        Header12 {
            nw_proto,
            nw_src,
            ..packet(in_port, nw_dst, tp_dst)
        }
    }
}
