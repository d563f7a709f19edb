//! The headers of packets, spelled out as bytes, and the marks of probes.

use expectations::expect_eq;
use frame_header::{header_of, probe_slot, probe_trailer};
use of10_match::Header12;
use std::test::*;

// An IPv4 packet for TCP port 80.
const IPV4_TCP: [u8; 54] = [
    0x00, 0x00, 0x00, 0x00, 0x00, 0x02, 0x00, 0x00, 0x00, 0x00, 0x00, 0x01, 0x08, 0x00, 0x45, 0x00,
    0x00, 0x28, 0x00, 0x00, 0x00, 0x00, 0x40, 0x06, 0x00, 0x00, 0x0a, 0x00, 0x00, 0x01, 0x0a, 0x00,
    0x00, 0x02, 0x04, 0x00, 0x00, 0x50, 0x00, 0x00, 0x00, 0x00, 0x00, 0x00, 0x00, 0x00, 0x50, 0x02,
    0x00, 0x00, 0x00, 0x00, 0x00, 0x00,
];

// The front of the same with the tag 0x7005: priority 3 and VLAN 5.
const TAGGED: [u8; 42] = [
    0x00, 0x00, 0x00, 0x00, 0x00, 0x02, 0x00, 0x00, 0x00, 0x00, 0x00, 0x01, 0x81, 0x00, 0x70, 0x05,
    0x08, 0x00, 0x45, 0x00, 0x00, 0x28, 0x00, 0x00, 0x00, 0x00, 0x40, 0x06, 0x00, 0x00, 0x0a, 0x00,
    0x00, 0x01, 0x0a, 0x00, 0x00, 0x02, 0x04, 0x00, 0x00, 0x50,
];

const ARP: [u8; 42] = [
    0x00, 0x00, 0x00, 0x00, 0x00, 0x02, 0x00, 0x00, 0x00, 0x00, 0x00, 0x01, 0x08, 0x06, 0x00, 0x01,
    0x08, 0x00, 0x06, 0x04, 0x00, 0x02, 0x00, 0x00, 0x00, 0x00, 0x00, 0x01, 0x0a, 0x00, 0x00, 0x01,
    0x00, 0x00, 0x00, 0x00, 0x00, 0x02, 0x0a, 0x00, 0x00, 0x02,
];

// The ARP packet in an 802.3 frame with SNAP.
const SNAP: [u8; 50] = [
    0x00, 0x00, 0x00, 0x00, 0x00, 0x02, 0x00, 0x00, 0x00, 0x00, 0x00, 0x01, 0x00, 0x24, 0xaa, 0xaa,
    0x03, 0x00, 0x00, 0x00, 0x08, 0x06, 0x00, 0x01, 0x08, 0x00, 0x06, 0x04, 0x00, 0x02, 0x00, 0x00,
    0x00, 0x00, 0x00, 0x01, 0x0a, 0x00, 0x00, 0x01, 0x00, 0x00, 0x00, 0x00, 0x00, 0x02, 0x0a, 0x00,
    0x00, 0x02,
];
// At most that many bytes from the front.
fn front(bytes: &[u8], length: usize) -> &[u8] {
    &bytes[..length.min(bytes.len())]
}

// The header of a packet with the two addresses above and nothing behind its type.
fn bare(dl_type: u16) -> Header12 {
    Header12 {
        in_port: 1,
        dl_src: 1,
        dl_dst: 2,
        dl_vlan: 0xffff,
        dl_vlan_pcp: 0,
        dl_type,
        nw_tos: 0,
        nw_proto: 0,
        nw_src: 0,
        nw_dst: 0,
        tp_src: 0,
        tp_dst: 0,
    }
}

// The same of an IPv4 packet from 10.0.0.1 to 10.0.0.2.
fn ipv4(nw_proto: u8, tp_src: u16, tp_dst: u16) -> Header12 {
    Header12 {
        nw_proto,
        nw_src: 0x0a00_0001,
        nw_dst: 0x0a00_0002,
        tp_src,
        tp_dst,
        ..bare(0x0800)
    }
}

fn arp() -> Header12 {
    Header12 {
        nw_proto: 2,
        nw_src: 0x0a00_0001,
        nw_dst: 0x0a00_0002,
        ..bare(0x0806)
    }
}

#[test]
fn short_packets(_rt: HostRuntime) -> Result<(), Fail> {
    let nothing = Header12 {
        dl_src: 0,
        dl_dst: 0,
        ..bare(0)
    };
    let addressed = Header12 {
        dl_dst: 2,
        ..nothing
    };
    let table = [
        (0, nothing),
        (5, nothing),
        (6, addressed),
        (11, addressed),
        (12, bare(0)),
        (13, bare(0)),
        (14, bare(0x0800)),
        (33, bare(0x0800)),
        (34, ipv4(6, 0, 0)),
        (37, ipv4(6, 0, 0)),
        (38, ipv4(6, 0x0400, 80)),
        (54, ipv4(6, 0x0400, 80)),
    ];
    for (length, want) in table {
        expect_eq!(header_of(1, front(&IPV4_TCP, length)), want, length);
    }
    Ok(())
}

#[test]
fn vlan_tags(_rt: HostRuntime) -> Result<(), Fail> {
    let want = Header12 {
        dl_vlan: 5,
        dl_vlan_pcp: 3,
        ..ipv4(6, 0x0400, 80)
    };
    expect_eq!(header_of(1, &TAGGED), want);
    // A tag that is cut off is none.
    expect_eq!(header_of(1, front(&TAGGED, 17)), bare(0));
    let mut twice = TAGGED;
    twice[16] = 0x81;
    twice[17] = 0x00;
    expect_eq!(
        header_of(1, &twice),
        Header12 {
            dl_vlan: 5,
            dl_vlan_pcp: 3,
            ..bare(0x8100)
        }
    );
    let mut length = TAGGED;
    length[16] = 0x00;
    length[17] = 0x28;
    expect_eq!(
        header_of(1, &length),
        Header12 {
            dl_vlan: 5,
            dl_vlan_pcp: 3,
            ..bare(0x05ff)
        }
    );
    Ok(())
}

#[test]
fn ieee_802_3(_rt: HostRuntime) -> Result<(), Fail> {
    expect_eq!(header_of(1, &SNAP), arp());
    expect_eq!(header_of(1, front(&SNAP, 21)), bare(0x05ff));
    let mut other = SNAP;
    other[19] = 1;
    expect_eq!(header_of(1, &other), bare(0x05ff));
    // The least type is 0x0600, whatever follows it.
    let mut least = SNAP;
    least[12] = 0x06;
    least[13] = 0x00;
    expect_eq!(header_of(1, &least), bare(0x0600));
    least[12] = 0x05;
    least[13] = 0xff;
    expect_eq!(header_of(1, &least), arp());
    Ok(())
}

#[test]
fn ipv4_headers(_rt: HostRuntime) -> Result<(), Fail> {
    let mut options = IPV4_TCP;
    options[14] = 0x46;
    options[38] = 0x12;
    options[39] = 0x34;
    options[40] = 0x56;
    options[41] = 0x78;
    expect_eq!(header_of(1, &options), ipv4(6, 0x1234, 0x5678));
    // The options are cut off, and with them the ports.
    expect_eq!(header_of(1, front(&options, 34)), ipv4(6, 0, 0));
    let mut too_short = IPV4_TCP;
    too_short[14] = 0x44;
    expect_eq!(header_of(1, &too_short), bare(0x0800));
    let mut service = IPV4_TCP;
    service[15] = 0xff;
    expect_eq!(
        header_of(1, &service),
        Header12 {
            nw_tos: 0xfc,
            ..ipv4(6, 0x0400, 80)
        }
    );
    Ok(())
}

#[test]
fn fragments(_rt: HostRuntime) -> Result<(), Fail> {
    // More fragments; don't fragment; an offset.
    for (high, low, want) in [
        (0x20, 0, ipv4(6, 0, 0)),
        (0x40, 0, ipv4(6, 0x0400, 80)),
        (0, 1, ipv4(6, 0, 0)),
    ] {
        let mut packet = IPV4_TCP;
        packet[20] = high;
        packet[21] = low;
        expect_eq!(header_of(1, &packet), want, (high, low));
    }
    Ok(())
}

#[test]
fn transports(_rt: HostRuntime) -> Result<(), Fail> {
    let mut ports = IPV4_TCP;
    ports[34] = 3;
    ports[35] = 10;
    for (proto, tp_src, tp_dst) in [(17, 0x030a, 80), (1, 3, 10), (47, 0, 0)] {
        let mut packet = ports;
        packet[23] = proto;
        expect_eq!(header_of(1, &packet), ipv4(proto, tp_src, tp_dst), proto);
    }
    let mut icmp = ports;
    icmp[23] = 1;
    expect_eq!(header_of(1, front(&icmp, 36)), ipv4(1, 3, 10));
    expect_eq!(header_of(1, front(&icmp, 35)), ipv4(1, 0, 0));
    Ok(())
}

#[test]
fn arp_packets(_rt: HostRuntime) -> Result<(), Fail> {
    expect_eq!(header_of(1, &ARP), arp());
    expect_eq!(header_of(1, front(&ARP, 41)), bare(0x0806));
    Ok(())
}

// An LLDP packet of 16 bytes, filled to 52, and the trailer of a slot.
fn probe(slot: u8) -> [u8; 60] {
    let mut packet = [0; 60];
    packet[0] = 0x01;
    packet[1] = 0x80;
    packet[2] = 0xc2;
    packet[5] = 0x0e;
    packet[11] = 0x01;
    packet[12] = 0x88;
    packet[13] = 0xcc;
    packet[52] = 0x46;
    packet[53] = 0x56;
    packet[54] = 0x53;
    packet[55] = 0x4c;
    packet[56] = slot;
    packet
}

#[test]
fn probes(_rt: HostRuntime) -> Result<(), Fail> {
    expect_eq!(probe_slot(&probe(0)), Some(0));
    expect_eq!(probe_slot(&probe(1)), Some(1));
    expect_eq!(probe_trailer(1), [0x46, 0x56, 0x53, 0x4c, 1, 0, 0, 0]);
    // Another type, another mark, and a last byte that isn't zero.
    for (place, value) in [
        (13, 0xcd),
        (12, 0x08),
        (52, 0x47),
        (55, 0),
        (57, 1),
        (59, 1),
    ] {
        let mut packet = probe(1);
        packet[place % 60] = value;
        expect_eq!(probe_slot(&packet), None, (value, place));
    }
    // The mark has to end the packet, and eight bytes alone have no type.
    expect_eq!(probe_slot(front(&probe(1), 59)), None);
    expect_eq!(probe_slot(front(&probe(1), 7)), None);
    expect_eq!(probe_slot(&probe_trailer(1)), None);
    Ok(())
}
