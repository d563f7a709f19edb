//! The 40 bytes of a match, read and written, and the headers that a match has.

ghost use Rattle.std.specs.Prelude.{◌≡◌};

use expectations::{expect, expect_eq};
use of10_match::{Header12, Match};
use of10_model::wire::{set_u16, set_u32};
use of10_model::{Pattern, Prefix};
use std::test::Fail;

/// The header of a TCP packet to a port, which came in on port 1.
fn to_port(port: u16) -> Header12
    ensures { result ≡ record { in_port = 1; dl_src = 1; dl_dst = 2; dl_vlan = 0xffff; dl_vlan_pcp = 0; dl_type = 0x0800; nw_tos = 0; nw_proto = 6; nw_src = 0x0a000001; nw_dst = 0x0a000002; tp_src = 1024; tp_dst = port } }
{
    Header12 {
        in_port: 1,
        dl_src: 1,
        dl_dst: 2,
        dl_vlan: 0xffff,
        dl_vlan_pcp: 0,
        dl_type: 0x0800,
        nw_tos: 0,
        nw_proto: 6,
        nw_src: 0x0a000001,
        nw_dst: 0x0a000002,
        tp_src: 1024,
        tp_dst: port,
    }
}

fn of_protocol(nw_proto: u8) -> Header12 {
    Header12 {
        nw_proto,
        ..to_port(80)
    }
}

fn of_host(nw_src: u32) -> Header12 {
    Header12 {
        nw_src,
        ..to_port(80)
    }
}

fn with_word(word: u32, fill: u8) -> [u8; 40] {
    let mut bytes = [fill; 40];
    set_u32(&mut bytes, 0, word);
    bytes
}

fn of_type(word: u32, kind: u16, fill: u8) -> [u8; 40] {
    let mut bytes = with_word(word, fill);
    set_u16(&mut bytes, 22, kind);
    bytes
}

fn from_source(word: u32, address: u32) -> [u8; 40] {
    let mut bytes = of_type(word, 0x0800, 0);
    set_u32(&mut bytes, 28, address);
    bytes
}

/// IPv4, TCP, to port 80.
fn web() -> [u8; 40] {
    let mut bytes = of_type(0x0038204f, 0x0800, 0);
    bytes[25] = 6;
    bytes[39] = 80;
    bytes
}

#[test]
fn free_matches_have_many_spellings(_rt: HostRuntime) -> Result<(), Fail> {
    expect_eq!(
        *Match::decode(&with_word(0x003fffff, 0xab)).pattern(),
        Pattern::ANY,
        "fields under wildcard bits"
    );
    expect_eq!(
        *Match::decode(&with_word(0xffffffff, 0)).pattern(),
        Pattern::ANY,
        "bits past the last"
    );
    let mut port_alone = with_word(0x0038207f, 0);
    port_alone[39] = 80;
    expect_eq!(
        *Match::decode(&port_alone).pattern(),
        Pattern::ANY,
        "a port without a protocol"
    );
    Ok(())
}

#[test]
fn counts_of_ignored_bits_make_prefixes(_rt: HostRuntime) -> Result<(), Fail> {
    // word and address as read; word and address as written; the length of the prefix
    let cases = [
        (0x003808ef, 0x0a010200, 0x003808ef, 0x0a010200, 24),
        (0x00381fef, 0x8a010203, 0x00381fef, 0x80000000, 1),
        (0x003800ef, 0x8a010203, 0x003800ef, 0x8a010203, 32),
        (0x003820ef, 0x8a010203, 0x003820ef, 0, 0),
        (0x00383fef, 0x8a010203, 0x003820ef, 0, 0),
    ];
    for (word, address, kept_word, value, bits) in cases {
        let expected = Pattern {
            dl_type: Some(0x0800),
            nw_src: (bits > 0).then_some(Prefix { bits, value }),
            ..Pattern::ANY
        };
        let found = Match::decode(&from_source(word, address));
        expect_eq!(*found.pattern(), expected, word);
        expect_eq!(found.encode(), from_source(kept_word, value), word);
    }
    Ok(())
}

#[test]
fn fields_with_their_prerequisites_are_kept(_rt: HostRuntime) -> Result<(), Fail> {
    let expected = Pattern {
        dl_type: Some(0x0800),
        nw_proto: Some(6),
        tp_dst: Some(80),
        ..Pattern::ANY
    };
    expect_eq!(*Match::decode(&web()).pattern(), expected);

    let tagged = Pattern {
        dl_vlan: Some(0x0505),
        dl_vlan_pcp: Some(5),
        ..Pattern::ANY
    };
    expect_eq!(
        *Match::decode(&with_word(0x002ffffd, 0x05)).pattern(),
        tagged,
        "a tag"
    );
    expect_eq!(
        *Match::decode(&with_word(0x002ffffd, 0xff)).pattern(),
        Pattern {
            dl_vlan: Some(0xffff),
            ..Pattern::ANY
        },
        "untagged"
    );
    expect_eq!(
        *Match::decode(&of_type(0x001fffef, 0x0800, 0xff)).pattern(),
        Pattern {
            dl_type: Some(0x0800),
            nw_tos: Some(0xfc),
            ..Pattern::ANY
        },
        "a type of service"
    );
    Ok(())
}

#[test]
fn all_exact_matches_stay_all_exact(_rt: HostRuntime) -> Result<(), Fail> {
    let expected = Pattern {
        in_port: Some(0x4f4f),
        dl_src: Some(0x4f4f4f4f4f4f),
        dl_dst: Some(0x4f4f4f4f4f4f),
        dl_vlan: Some(0x4f4f),
        dl_vlan_pcp: Some(7),
        dl_type: Some(0x88cc),
        nw_tos: Some(0),
        nw_proto: Some(0),
        nw_src: Some(Prefix { bits: 32, value: 0 }),
        nw_dst: Some(Prefix { bits: 32, value: 0 }),
        tp_src: Some(0),
        tp_dst: Some(0),
    };
    expect_eq!(
        *Match::decode(&of_type(0, 0x88cc, 0x4f)).pattern(),
        expected
    );
    Ok(())
}

#[test]
fn headers_are_matched_by_each_constraint(_rt: HostRuntime) -> Result<(), Fail> {
    let all = Match::decode(&with_word(0x003fffff, 0));
    let web = Match::decode(&web());
    let net = Match::decode(&from_source(0x003808ef, 0x0a010200));
    let upper_half = Match::decode(&from_source(0x00381fef, 0x8a010203));
    let cases = [
        (all, to_port(80), true),
        (web, to_port(80), true),
        (web, to_port(22), false),
        (web, of_protocol(17), false),
        (net, to_port(80), false),
        (net, of_host(0x0a0102ff), true),
        (net, of_host(0x0a010300), false),
        (upper_half, of_host(0x80000000), true),
        (upper_half, of_host(0x7fffffff), false),
    ];
    for (m, h, expected) in &cases {
        expect_eq!(m.matches(h), *expected, (m, h));
    }
    Ok(())
}

#[test]
fn matches_are_written_in_their_one_spelling(_rt: HostRuntime) -> Result<(), Fail> {
    let mut all = [0; 40];
    all[0..4].copy_from_slice(&[0x00, 0x38, 0x20, 0xff]);
    expect_eq!(Match::all().encode(), all);
    let mut freed = [0x5a; 40];
    freed[0..4].copy_from_slice(&[0x00, 0x3f, 0xff, 0xff]);
    expect_eq!(Match::decode(&freed).encode(), all);
    let mut port_alone = all;
    port_alone[0..4].copy_from_slice(&[0x00, 0x38, 0x20, 0x7f]);
    port_alone[39] = 80;
    expect_eq!(Match::decode(&port_alone).encode(), all);
    expect!(!Match::all().is_exact());
    Ok(())
}

#[test]
fn an_exact_match_has_its_header_alone(_rt: HostRuntime) -> Result<(), Fail> {
    let header = to_port(80);
    let exact = Match::exact(&header);
    expect!(exact.is_exact());
    expect!(exact.matches(&header));
    expect!(!exact.matches(&Header12 {
        tp_dst: 81,
        ..header
    }));
    expect_eq!(Match::decode(&exact.encode()), exact);
    Ok(())
}
