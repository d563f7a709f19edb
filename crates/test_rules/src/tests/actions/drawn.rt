//! Rules, packets and actions of few values, drawn.

use super::given::{ALICE, BOB, FIRST_NET, SECOND_NET, enqueue, output};
use super::plain::Grant;
use of10_action::Action;
use of10_match::Header12;
use of10_port::protocol::{ALL, CONTROLLER, FLOOD, IN_PORT, NONE};
use samples::{Packets, packet};

#[derive(Drop)]
pub struct Draws {
    numbers: draws::Draws,
}

impl Draws {
    pub fn new(seed: u64) -> Draws {
        Draws {
            numbers: draws::Draws::new(seed),
        }
    }

    fn net(&mut self) -> u32 {
        match self.numbers.below(2) {
            0 => FIRST_NET,
            _ => SECOND_NET,
        }
    }

    fn service(&mut self) -> u16 {
        match self.numbers.below(3) {
            0 => 22,
            1 => 443,
            _ => 80,
        }
    }

    fn bits(&mut self) -> u8 {
        match self.numbers.below(4) {
            0 => 0,
            1 => 32,
            _ => 16,
        }
    }

    fn host_bits(&mut self) -> u8 {
        match self.numbers.below(3) {
            0 => 32,
            _ => 16,
        }
    }

    fn any_entry(&mut self) -> u16 {
        match self.numbers.below(4) {
            0 => NONE,
            port => u16::from(port),
        }
    }

    fn entry(&mut self) -> Option<u16> {
        match self.numbers.below(6) {
            0 => Some(1),
            1 => Some(2),
            _ => None,
        }
    }

    fn tcp(&mut self) -> Option<u16> {
        match self.numbers.below(2) {
            0 => None,
            _ => Some(self.service()),
        }
    }

    /// Packets to one of two networks or their first host.
    pub fn packets(&mut self) -> Packets {
        Packets {
            in_port: self.entry(),
            net: self.net(),
            bits: self.bits(),
            tcp: self.tcp(),
        }
    }

    /// A rule, more of them alice's.
    pub fn grant(&mut self) -> Grant {
        let writer = match self.numbers.below(4) {
            0 => BOB,
            _ => ALICE,
        };
        Grant {
            packets: self.packets(),
            writer,
        }
    }

    fn packets_within(&mut self, wide: &Packets) -> Packets {
        let drawn = self.packets();
        let (net, bits) = match wide.bits {
            0 => (drawn.net, drawn.bits),
            16 => (wide.net, self.host_bits()),
            _ => (wide.net, wide.bits),
        };
        Packets {
            in_port: wide.in_port.or(drawn.in_port),
            net,
            bits,
            tcp: wide.tcp.or(drawn.tcp),
        }
    }

    /// Packets of one rule, or any.
    pub fn packets_near(&mut self, grants: &[Grant; 3]) -> Packets {
        match self.numbers.below(4) {
            0 => self.packets(),
            1 => self.packets_within(&grants[0].packets),
            2 => self.packets_within(&grants[1].packets),
            _ => self.packets_within(&grants[2].packets),
        }
    }

    /// One of the packets, from port 1, 2 or 3 or from none.
    pub fn header(&mut self, packets: &Packets) -> Header12 {
        let in_port = match packets.in_port {
            Some(port) => port,
            None => self.any_entry(),
        };
        let host = match packets.bits {
            0 => self.net(),
            32 => packets.net,
            _ => packets.net | u32::from(self.numbers.below(3)),
        };
        let service = match packets.tcp {
            Some(port) => port,
            None => self.service(),
        };
        packet(in_port, host, service)
    }

    /// How many actions come before the last.
    pub fn before(&mut self) -> u8 {
        self.numbers.below(3)
    }

    /// An action that sends, or one that rewrites.
    pub fn action(&mut self) -> Action {
        match self.numbers.below(10) {
            0 | 1 => Action::SetNwDst(self.net() | u32::from(self.numbers.below(3))),
            2 | 3 => Action::SetTpDst(self.service()),
            4 => Action::SetVlanVid(4088 + u16::from(self.numbers.below(9))),
            5 => Action::StripVlan,
            6 => Action::SetNwTos(self.numbers.below(64)),
            _ => self.sending(),
        }
    }

    fn sending(&mut self) -> Action {
        match self.numbers.below(6) {
            0 => enqueue!(1),
            1 => output!(CONTROLLER),
            2 => output!(FLOOD),
            3 => output!(ALL),
            4 => output!(IN_PORT),
            _ => output!(2),
        }
    }
}
