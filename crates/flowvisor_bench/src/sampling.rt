//! Matches and headers to measure with.

use of10_match::{Header12, Match};

const COUNT: usize = 16;

/// As many matches as headers.
#[derive(Drop)]
pub struct Samples {
    patterns: [Match; COUNT],
    headers: [Header12; COUNT],
}

/// A match of TCP over IPv4 that leaves more or fewer fields free, by its number.
fn pattern(number: u8) -> Match {
    let mut bytes = [0; 40];
    let [first, second, third, fourth] = wildcards(number);
    bytes[0] = first;
    bytes[1] = second;
    bytes[2] = third;
    bytes[3] = fourth;
    // The port of entry, the type and the protocol.
    bytes[5] = number / 4 % 4;
    bytes[22] = 0x08;
    bytes[25] = 6;
    // The source's address, and the destination's port.
    bytes[28] = 10;
    bytes[29] = number / 4 % 2;
    bytes[39] = 80;
    Match::decode(&bytes)
}

/// Every field free but the type and the protocol; then the port of entry, the source's prefix or the
/// destination's port too.
fn wildcards(number: u8) -> [u8; 4] {
    match number % 4 {
        0 => [0x00, 0x38, 0x20, 0xcf],
        1 => [0x00, 0x38, 0x20, 0xce],
        2 => [0x00, 0x38, 0x10, 0xcf],
        _ => [0x00, 0x38, 0x20, 0x4f],
    }
}

/// A TCP segment's header.
fn header(number: u8) -> Header12 {
    Header12 {
        in_port: u16::from(number % 4),
        dl_src: 1,
        dl_dst: 2,
        dl_vlan: 0xffff,
        dl_vlan_pcp: 0,
        dl_type: 0x0800,
        nw_tos: 0,
        nw_proto: 6,
        nw_src: 0x0a00_0000 + u32::from(number),
        nw_dst: 0x0a00_0001,
        tp_src: 1024,
        tp_dst: if number < 8 { 80 } else { 22 },
    }
}

impl Samples {
    pub fn new() -> Samples {
        let mut patterns = [Match::all(); COUNT];
        let mut headers = [header(0); COUNT];
        for number in 0..COUNT {
            patterns[number] = pattern(number as u8);
            headers[number] = header(number as u8);
        }
        Samples { patterns, headers }
    }

    /// The match that a number picks.
    pub fn pattern(&self, number: u64) -> &Match {
        &self.patterns[(number % COUNT as u64) as usize]
    }

    /// The header that a number picks.
    pub fn header(&self, number: u64) -> &Header12 {
        &self.headers[(number % COUNT as u64) as usize]
    }
}
