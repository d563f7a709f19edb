//! What follows from the messages of a switch, for each slice.

use super::{RuleRow, TWO_RULES, policy_of, push_message, state};
use expectations::expect_eq;
use flow_book::SliceState;
use flowspace::SwitchPolicy;
use of10_ctl::Frame;
use port_view::PortView;
use rule_index::RuleIndex;
use samples::{frame, three_ports};
use std::alloc::{AllocError, Global};
use std::test::Fail;
use switch_side::{Dispatch, react};

/// TCP packets of 54 bytes, but for the port that each is for and what follows it.
const BEFORE_PORT: &str =
    "00000000000200000000000108004500002800000000400600000a0000010a0000020400";

const BEHIND_PORT: &str = "00000000000000005002000000000000";

/// A port without its number.
const PORT: &str =
    "0000000000000000000000000000000000000000000000000000000000000000000000000000000000000000\
0000";

/// A state for each of the two slices.
fn states(
    alloc: Global,
    policy: &SwitchPolicy,
    up: [bool; 2],
) -> Result<Vec<SliceState>, AllocError> {
    let mut states = Vec::new(alloc);
    states.push(state(alloc, policy, 0, up[0])?)?;
    states.push(state(alloc, policy, 1, up[1])?)?;
    Ok(states)
}

/// What a message is answered, with a state for each slice, by a switch with three ports and its own.
fn answer(
    alloc: Global,
    policy: &SwitchPolicy,
    states: &[SliceState],
    message: &Frame,
) -> Result<Dispatch, AllocError> {
    if states.len() != policy.slices().len() {
        return Err(AllocError);
    }
    let index = RuleIndex::build(alloc, policy)?;
    let ports = PortView::new(alloc, &three_ports(alloc)?)?;
    react(alloc, policy, &index, &ports, states, message)
}

/// Whether the switch's connection stays or ends, what it and each slot is sent, and the port that changes.
fn told(alloc: Global, dispatch: &Dispatch) -> Result<String, AllocError> {
    let mut text = String::from_str(alloc, if dispatch.close { "ends" } else { "stays" })?;
    for message in &dispatch.to_switch {
        push_message(&mut text, ", switch: ", message)?;
    }
    for (slot, message) in &dispatch.to_slices {
        write!(text, ", slot {slot}")?;
        push_message(&mut text, ": ", message)?;
    }
    if let Some(status) = &dispatch.port {
        write!(text, ", port {}", status.port.number())?;
    }
    Ok(text)
}

/// The same digits, with each packet `[tcp ..]` to a port and each `[port]` without its number written out.
fn written_out(alloc: Global, digits: &str) -> Result<String, AllocError> {
    let digits = digits.replace(alloc, "[port]", PORT)?;
    let digits = digits.as_str().replace(alloc, "[tcp ", BEFORE_PORT)?;
    digits.as_str().replace(alloc, "]", BEHIND_PORT)
}

/// Each message is answered as its row says, where each slice's connection is up or not. A row is a line:
/// what the switch sends, and what is to be sent.
fn expect_rows(alloc: Global, rules: &[RuleRow], up: [bool; 2], rows: &str) -> Result<(), Fail> {
    let policy = policy_of(alloc, rules)?;
    let states = states(alloc, &policy, up)?;
    for row in rows.lines() {
        let (sent, wanted) = row.split_once(" => ").ok_or(AllocError)?;
        let message = frame(alloc, &[written_out(alloc, sent)?.as_str()])?;
        let answer = told(alloc, &answer(alloc, &policy, &states, &message)?)?;
        let wanted = written_out(alloc, wanted)?;
        expect_eq!(answer.as_str(), wanted.as_str(), sent);
    }
    Ok(())
}

/// What the switch sends, and who is sent what.
const MESSAGE_ROWS: &str = "\
010a004800000063ffffffff003600010000[tcp 0050] => stays, slot 0: 010a004800000000ffffffff003600010000[tcp 0050]
010a004800000063ffffffff00ff000201ee[tcp 0016] => stays, slot 1: 010a004800000000ffffffff00ff00020100[tcp 0016]
010a004800000063ffffffff003600020000[tcp 0050] => stays
010a004800000063000000070036000101ff[tcp 0050] => stays, slot 0: 010a00480000000000000000003600010100[tcp 0050]
010a004800000063000000070036000200ff[tcp 0050] => stays
010a002a00000063000000090018000200000180c200000e00000000000188cc00004656534c01000000 => stays, slot 1: 010a002200000000ffffffff0010000200000180c200000e00000000000188cc0000
010a002a00000063ffffffff0018000200000180c200000e00000000000188cc00004656534c02000000 => stays
010c00400000000702000000000000000002[port] => stays, slot 1: 010c00400000000002000000000000000002[port], port 2
010c00400000000701ffffffffffffff0001[port] => stays, slot 0: 010c00400000000001000000000000000001[port], slot 1: 010c00400000000001000000000000000001[port], port 1
010c00400000000701000000000000000009[port] => stays
010c0010000000070200000000000000 => stays
";

#[test]
fn each_message_goes_where_it_concerns_somebody(rt: HostRuntime) -> Result<(), Fail> {
    expect_rows(rt.alloc(), TWO_RULES, [true, true], MESSAGE_ROWS)?;
    Ok(())
}

/// What the switch sends, and what it is sent.
const SWITCH_ROWS: &str = "\
0102000c00000004aabbccdd => stays, switch: 0103000c00000004aabbccdd
0402000c00000004aabbccdd => stays
0103000c00000004aabbccdd => stays
0102000700000005 => ends
0402000000000005 => ends
0100000800000000 => stays
0108000c000000090000ffff => stays
";

#[test]
fn the_switch_is_answered_itself(rt: HostRuntime) -> Result<(), Fail> {
    let rules = &[(100, None, 80, 0, 0), (50, None, 22, 1, 0)];
    expect_rows(rt.alloc(), rules, [true, true], SWITCH_ROWS)?;
    Ok(())
}

/// Whether the reader and the writer of a packet are up, and who is sent it.
const READER_ROWS: &[([bool; 2], &str)] = &[
    (
        [true, true],
        "010a004800000000ffffffff003600010000[tcp 0050] => stays, slot 0: \
010a004800000000ffffffff003600010000[tcp 0050], slot 1: \
010a004800000000ffffffff003600010000[tcp 0050]",
    ),
    (
        [true, false],
        "010a004800000000ffffffff003600010000[tcp 0050] => stays, slot 0: \
010a004800000000ffffffff003600010000[tcp 0050]",
    ),
    (
        [false, true],
        "010a004800000000ffffffff003600010000[tcp 0050] => stays, slot 1: \
010a004800000000ffffffff003600010000[tcp 0050]",
    ),
    (
        [false, false],
        "010a004800000000ffffffff003600010000[tcp 0050] => stays",
    ),
];

#[test]
fn readers_are_told_where_they_are_up(rt: HostRuntime) -> Result<(), Fail> {
    let rules = &[(100, None, 80, 1, 0b01), (100, None, 80, 1, 0)];
    for (up, row) in READER_ROWS {
        expect_rows(rt.alloc(), rules, *up, row)?;
    }
    Ok(())
}

/// Packet-ins at port 1 of the first bytes of a TCP packet to port 80, in buffer 7 of the switch, and who is
/// sent them. A packet has a writer as soon as the TCP port that it is for is there.
fn cut_rows(alloc: Global) -> Result<String, AllocError> {
    let packet = written_out(alloc, "[tcp 0050]")?;
    let mut rows = String::new(alloc);
    for size in 0..55usize {
        let (length, front) = (18 + size, packet.as_str().get(..2 * size).unwrap_or(""));
        write!(
            rows,
            "010a{length:04x}0000000900000007003600010000{front} => stays"
        )?;
        if size >= 38 {
            write!(
                rows,
                ", slot 0: 010a{length:04x}0000000000000000003600010000{front}"
            )?;
        }
        rows.push_str("\n")?;
    }
    Ok(rows)
}

#[test]
fn a_packet_has_a_writer_as_soon_as_its_port_is_there(rt: HostRuntime) -> Result<(), Fail> {
    let rows = cut_rows(rt.alloc())?;
    let rules = &[(100, None, 80, 0, 0)];
    expect_rows(rt.alloc(), rules, [true, true], rows.as_str())?;
    Ok(())
}
