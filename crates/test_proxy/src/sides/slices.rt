//! What is answered to the messages of a slice, and what they change.

mod lengths;

ghost use Rattle.std.specs.Prelude.{IfOk};
ghost use Rattle.slice_side.specs.Reactions.{IsSoundChange};

use super::{TWO_RULES, policy_of, push_message, state};
use expectations::{expect, expect_eq};
use flow_book::SliceState;
use flowspace::SwitchPolicy;
use of10_ctl::Frame;
use of10_port::Features;
use port_view::PortView;
use samples::{frame, three_ports};
use slice_side::{Change, Reaction, apply, go_down, react, reserve};
use std::alloc::{AllocError, Global};
use std::test::Fail;

/// A switch with three ports and its own, and one slice on it.
#[derive(Drop)]
struct Bench {
    policy: SwitchPolicy,
    features: Features,
    ports: PortView,
    state: SliceState,
}

/// The slice at slot 0 takes packets from port 1 alone.
fn set_up(alloc: Global) -> Result<Bench, AllocError> {
    let policy = policy_of(alloc, TWO_RULES)?;
    let features = three_ports(alloc)?;
    let ports = PortView::new(alloc, &features)?;
    let state = state(alloc, &policy, 0, true)?;
    Ok(Bench {
        policy,
        features,
        ports,
        state,
    })
}

impl Bench {
    fn hear(&self, alloc: Global, message: &Frame, moment: u64) -> Result<Reaction, AllocError>
        ensures { IfOk result (λ reaction. IsSoundChange reaction.change) }
    {
        react(
            alloc,
            &self.policy,
            &self.ports,
            &self.features,
            &self.state,
            0,
            message,
            moment,
        )
    }

    /// A message comes, and changes the state.
    fn settle(&mut self, alloc: Global, digits: &str, moment: u64) -> Result<(), AllocError> {
        let message = frame(alloc, &[digits])?;
        let Reaction { change, .. } = self.hear(alloc, &message, moment)?;
        put(&mut self.state, change)
    }
}

fn put(state: &mut SliceState, change: Change) -> Result<(), AllocError>
    requires { IsSoundChange change }
{
    reserve(state, &change)?;
    apply(state, change);
    Ok(())
}

/// Whether the slice is up or not, wants so many bytes of a packet, and was heard last at that timestamp.
fn stands_so(state: &SliceState, up: bool, miss_send_len: u16, moment: u64) -> bool {
    state.up == up && state.miss_send_len == miss_send_len && state.moment == moment
}

/// Whether the connection stays or ends, and then each message to the controller and each to the switch.
fn told(alloc: Global, reaction: &Reaction) -> Result<String, AllocError> {
    let mut text = String::from_str(alloc, if reaction.close { "ends" } else { "stays" })?;
    for message in &reaction.to_slice {
        push_message(&mut text, " ", message)?;
    }
    for message in &reaction.to_switch {
        push_message(&mut text, ", switch: ", message)?;
    }
    Ok(text)
}

/// Each message is answered as its row says. A row is a line: what the controller sends, and what is to be
/// sent.
fn expect_rows(alloc: Global, rows: &str) -> Result<(), Fail> {
    let bench = set_up(alloc)?;
    for row in rows.lines() {
        let (message, wanted) = row.split_once(" => ").ok_or(AllocError)?;
        let reaction = bench.hear(alloc, &frame(alloc, &[message])?, 0)?;
        expect_eq!(told(alloc, &reaction)?.as_str(), wanted, message);
    }
    Ok(())
}

/// What the controller sends, and what `told` says of the answer.
const ANSWER_ROWS: &str = "\
0102000700000005 => ends 0101001400000005000100060102000700000005
0000000800000009 => ends 0101000c0000000900000000
0400000800000009 => stays
0402000800000007 => stays 0101001400000007000100000402000800000007
0116000800000001 => stays 0101001400000001000100010116000800000001
010a000800000001 => stays 010100140000000100010001010a000800000001
0101000900000001ff => stays
0103000800000001 => stays
01040008000000aa => stays 01010014000000aa0001000301040008000000aa
010f000800000007 => stays 010100140000000700010005010f000800000007
0105000900000001ff => stays 0101001500000001000100060105000900000001ff
0109000800000001 => stays 0101001400000001000100060109000800000001
0110000800000001 => stays 0101001400000001000100060110000800000001
0110000c0000000100060000 => stays 0101001800000001000100020110000c0000000100060000
0110000c00000001ffff0000 => stays 0101001800000001000100030110000c00000001ffff0000
010d001800000001ffffffffffff00090000000800020000 => stays 010100240000000100010006010d001800000001ffffffffffff00090000000800020000
0109000c0000000300010080 => stays 0101001800000003000100050109000c0000000300010080
0109000c0000000100000080 => stays
0102000c00000004aabbccdd => stays 0103000c00000004aabbccdd
0107000800000002 => stays 0108000c0000000200000080
0112000800000002 => stays, switch: 0112000800000000
0114000c0000000200010000 => stays, switch: 0114000c0000000000010000
0114000c0000000200020000 => stays 0101001800000002000100050114000c0000000200020000
0110001400000002000400000001000000000000 => stays, switch: 0110001400000000000400000001000000000000
0110001400000002000400000002000000000000 => stays 0101002000000002000100050110001400000002000400000002000000000000
0110001400000002000500000002000000000001 => stays 0101002000000002000100050110001400000002000500000002000000000001
";

#[test]
fn each_message_is_answered_by_its_first_line(rt: HostRuntime) -> Result<(), Fail> {
    expect_rows(rt.alloc(), ANSWER_ROWS)?;
    Ok(())
}

/// The switch is described with the one port that the slice has.
const FEATURES_ROW: &str = "\
0105000800000007 => stays 010600500000000700000000000000a100000100010000000000000000000fff\
000100000000000000000000000000000000000000000000000000000000000000000000000000000000000000000000";

#[test]
fn features_are_those_of_the_slice(rt: HostRuntime) -> Result<(), Fail> {
    expect_rows(rt.alloc(), FEATURES_ROW)?;
    Ok(())
}

impl Bench {
    /// Whether the slice wants so many bytes of a packet once the message has come at its timestamp, and was
    /// heard last at that other timestamp.
    fn is_settled(&mut self, alloc: Global, digits: &str, moment: u64, then: (u16, u64)) -> bool {
        match self.settle(alloc, digits, moment) {
            Ok(()) => stands_so(&self.state, true, then.0, then.1),
            Err(_) => false,
        }
    }

    /// Whether the slice wants so many bytes of a packet once its controller has disconnected, and was heard
    /// last at that timestamp.
    fn is_left(&mut self, miss_send_len: u16, moment: u64) -> bool {
        go_down(&mut self.state);
        stands_so(&self.state, false, miss_send_len, moment)
    }
}

#[test]
fn what_was_set_lasts_as_long_as_the_connection(rt: HostRuntime) -> Result<(), Fail> {
    let alloc = rt.alloc();
    let mut bench = set_up(alloc)?;
    let is_set = bench.is_settled(alloc, "0109000c0000000100000010", 7, (16, 7));
    let is_kept = bench.is_settled(alloc, "0103000800000001", 5, (16, 7));
    let is_left = bench.is_left(128, 7);
    expect!(is_set, "a setting");
    expect!(is_kept, "an echo after it");
    expect!(is_left, "the end of the connection");
    Ok(())
}
