//! The pieces of a match that a slice may write, and the messages for them.

mod drawn;
mod given;

use crate::tests::tables::{expect_bytes, expect_so};
use drawn::Draws;
use expectations::{expect_told, told};
use flowmod_expand::pieces;
use flowspace::SwitchPolicy;
use given::{built, spelled, strips};
use match_meet::meet;
use of10_action::{Action, Actions};
use of10_ctl::Frame;
use of10_flow::FlowMod;
use of10_flow::protocol::{
    ADD, CHECK_OVERLAP, DELETE, DELETE_STRICT, MODIFY, MODIFY_STRICT, NO_BUFFER,
};
use of10_match::{Header12, Match};
use samples::{TO_TCP_80, rule, switch_policy, tcp};
use std::alloc::{AllocError, Global};
use std::test::Fail;

/// To TCP port 22.
const M22: &str =
    "0038204f 000000000000000000000000000000000000 0800 0006 000000000000000000000000 0016";

/// A flow-mod for every packet, with no fields of its own and no actions.
fn for_all(alloc: Global, command: u16) -> Result<FlowMod, AllocError> {
    Ok(FlowMod {
        xid: 0x2a,
        pattern: Match::all(),
        cookie: 0,
        command,
        idle: 0,
        hard: 0,
        priority: 0,
        buffer: NO_BUFFER,
        out_port: 0xffff,
        flags: 0,
        actions: Actions::of(alloc, &[])?,
    })
}

fn output(alloc: Global, port: u16) -> Result<Actions, AllocError> {
    let output = Action::Output { port, max_len: 0 };
    Ok(Actions::from_vec(vec![in alloc; output; 1]?))
}

/// The match of a wildcard word and a protocol, a source and a destination of IPv4.
fn decoded(word: u32, protocol: u8, source: u32, destination: u32) -> Match {
    Match::decode(&spelled(word, protocol, source, destination, 0))
}

// The pieces stand by falling priority, which isn't the order of the file.
#[test]
fn the_third_meet_is_the_first(rt: HostRuntime) -> Result<(), Fail> {
    let alloc = rt.alloc();
    let net = 0x0a00_0000;
    let rules = [
        rule(20, &decoded(0x0038_18ef, 0, net, 0), 0, 0),
        rule(10, &decoded(0x0036_20cf, 6, 0, net), 0, 0),
        rule(30, &decoded(0x0036_20ef, 0, 0, net), 0, 0),
    ];
    let policy = switch_policy(alloc, &rules)?;
    let asked = spelled(0x0034_20cf, 6, 0, 0x0a01_0000, 0);
    let found = pieces(alloc, &policy, 0, &Match::decode(&asked))?;
    let mut came = Vec::new(alloc);
    for piece in &found {
        came.extend_from_slice(&piece.encode())?;
    }
    let mut wanted = Vec::from_slice(alloc, &asked)?;
    wanted.extend_from_slice(&spelled(0x0034_18cf, 6, net, 0x0a01_0000, 0))?;
    let of_other = pieces(alloc, &policy, 1, &Match::all())?;
    expect_so(0, came == wanted && of_other.is_empty())
}

fn have(found: &[Match], h: &Header12) -> bool {
    for piece in found {
        if piece.matches(h) {
            return true;
        }
    }
    false
}

/// Whether some piece has a header exactly where the match and a rule of the slice have it.
fn has_what_is_written(
    policy: &SwitchPolicy,
    slot: u8,
    m: &Match,
    found: &[Match],
    h: &Header12,
) -> bool {
    let mut is_written = false;
    for rule in policy.rules() {
        is_written |= rule.writer == Some(slot) && rule.pattern.matches(h);
    }
    have(found, h) == (m.matches(h) && is_written)
}

/// The meets of the match with the rules of the slice in rule order.
fn meets(
    alloc: Global,
    policy: &SwitchPolicy,
    slot: u8,
    m: &Match,
) -> Result<Vec<Match>, AllocError> {
    let mut found = Vec::new(alloc);
    for rule in policy.rules() {
        if rule.writer == Some(slot) {
            if let Some(shared) = meet(m, &rule.pattern) {
                found.push(shared)?;
            }
        }
    }
    Ok(found)
}

/// Each of the matches once, at the place of its first.
fn each_once(alloc: Global, given: &[Match]) -> Result<Vec<Match>, AllocError> {
    let mut kept = Vec::new(alloc);
    for m in given {
        if !kept.contains(m) {
            kept.push(*m)?;
        }
    }
    Ok(kept)
}

/// What was met among drawn matches.
#[derive(Clone, Copy, Debug)]
struct Tally {
    without_pieces: u32,
    of_several_pieces: u32,
    with_repeats: u32,
    headers_inside: u32,
}

fn count(counted: &mut u32, is_so: bool) {
    *counted = counted.saturating_add(u32::from(is_so));
}

impl Tally {
    fn count_list(&mut self, met: usize, pieces: usize) {
        count(&mut self.without_pieces, pieces == 0);
        count(&mut self.of_several_pieces, pieces > 1);
        count(&mut self.with_repeats, pieces < met);
    }

    /// Each case came often enough that a fault in it would be seen.
    fn is_rich(&self) -> bool {
        self.without_pieces >= 500
            && self.of_several_pieces >= 500
            && self.with_repeats >= 200
            && self.headers_inside >= 1500
    }

    /// Counts the pieces of a drawn match and some headers. Whether they are as they are to be.
    fn add_drawn(
        &mut self,
        alloc: Global,
        policy: &SwitchPolicy,
        slot: u8,
        draws: &mut Draws,
    ) -> Result<bool, AllocError> {
        let m = draws.pattern();
        let found = pieces(alloc, policy, slot, &m)?;
        let met = meets(alloc, policy, slot, &m)?;
        let mut are_right = found == each_once(alloc, &met)?;
        self.count_list(met.len(), found.len());
        for _ in 0..16 {
            let h = draws.header();
            count(&mut self.headers_inside, have(&found, &h));
            are_right &= has_what_is_written(policy, slot, &m, &found, &h);
        }
        Ok(are_right)
    }
}

#[test]
fn pieces_stand_in_rule_order_and_agree_with_membership(rt: HostRuntime) -> Result<(), Fail> {
    let alloc = rt.alloc();
    let mut draws = Draws::new(1);
    let mut tally = Tally {
        without_pieces: 0,
        of_several_pieces: 0,
        with_repeats: 0,
        headers_inside: 0,
    };
    for number in 0..1000u32 {
        let mut rules = Vec::new(alloc);
        for _ in 0..8 {
            rules.push(draws.rule())?;
        }
        let policy = switch_policy(alloc, &rules)?;
        for slot in 0..2 {
            let are_right = tally.add_drawn(alloc, &policy, slot, &mut draws)?;
            expect_so(number, are_right)?;
        }
    }
    if tally.is_rich() {
        Ok(())
    } else {
        Err(Fail::new(told(alloc, &tally)?))
    }
}

/// The messages have each the bytes of its digits.
fn expect_frames(alloc: Global, frames: &[Frame], wanted: &[&[&str]]) -> Result<(), Fail> {
    expect_so(0, frames.len() == wanted.len())?;
    let mut place = 0usize;
    for frame in frames {
        match wanted.get(place) {
            Some(pieces) => expect_bytes(alloc, frame.as_slice(), pieces)?,
            None => expect_so(0, false)?,
        }
        place = place.saturating_add(1);
    }
    Ok(())
}

const ADDED: &[&str] = &[
    "010e0050 00000000",
    TO_TCP_80,
    "0000000000000000 0000 003c 0000 000a ffffffff ffff 0001 0000000800020000",
];

const DELETED: &[&str] = &[
    "010e0048 00000001",
    TO_TCP_80,
    "0000000000000000 0003 0000 0000 0000 ffffffff ffff 0000",
];

#[test]
fn a_flow_mod_is_sent_for_what_the_slice_writes(rt: HostRuntime) -> Result<(), Fail> {
    let alloc = rt.alloc();
    let rules = [
        rule(100, &tcp(None, 80), 0, 0),
        rule(50, &tcp(None, 22), 1, 0),
    ];
    let policy = switch_policy(alloc, &rules)?;
    let found = pieces(alloc, &policy, 0, &Match::all())?;
    let add = FlowMod {
        idle: 60,
        priority: 10,
        actions: output(alloc, 2)?,
        ..for_all(alloc, ADD)?
    };
    let frames = built(alloc, &add, 0, &found, &[output(alloc, 2)?], None)?;
    expect_frames(alloc, &frames, &[ADDED])?;
    let delete = for_all(alloc, DELETE)?;
    let frames = built(alloc, &delete, 1, &found, &[strips(alloc, 0)?], None)?;
    expect_frames(alloc, &frames, &[DELETED])
}

/// A command, the buffer that is given, and what follows the cookie in the messages for two pieces, of
/// which the first has an action.
const SENT: &[(u16, Option<(u32, u32)>, &str, &str)] = &[
    (
        ADD,
        Some((1, 0x99)),
        "0000 0011 0012 0013 ffffffff 0014 0001 0000000800010000",
        "0000 0011 0012 0013 00000099 0014 0001",
    ),
    (
        MODIFY,
        Some((0, 0x99)),
        "0001 0011 0012 0013 00000099 0014 0001 0000000800010000",
        "0001 0011 0012 0013 ffffffff 0014 0001",
    ),
    (
        MODIFY_STRICT,
        None,
        "0002 0011 0012 0013 ffffffff 0014 0001 0000000800010000",
        "0002 0011 0012 0013 ffffffff 0014 0001",
    ),
    (
        DELETE,
        Some((0, 0x99)),
        "0003 0011 0012 0013 ffffffff 0014 0000",
        "0003 0011 0012 0013 ffffffff 0014 0000",
    ),
    (
        DELETE_STRICT,
        None,
        "0004 0011 0012 0013 ffffffff 0014 0000",
        "0004 0011 0012 0013 ffffffff 0014 0000",
    ),
];

#[test]
fn each_piece_has_its_actions_and_one_the_buffer(rt: HostRuntime) -> Result<(), Fail> {
    let alloc = rt.alloc();
    let lists = [output(alloc, 1)?, strips(alloc, 0)?];
    let found = [tcp(None, 80), tcp(None, 22)];
    for (command, buffer, first, second) in SENT {
        let asked = FlowMod {
            cookie: 0x0102_0304_0506_0708,
            idle: 0x11,
            hard: 0x12,
            priority: 0x13,
            buffer: 5,
            out_port: 0x14,
            flags: CHECK_OVERLAP,
            ..for_all(alloc, *command)?
        };
        let head = if *command < DELETE {
            "010e0050"
        } else {
            "010e0048"
        };
        let (xid, cookie) = ("01000007", "0102030405060708");
        let frames = built(alloc, &asked, 0x0100_0007, &found, &lists, *buffer)?;
        expect_frames(
            alloc,
            &frames,
            &[
                &[head, xid, TO_TCP_80, cookie, first],
                &["010e0048", xid, M22, cookie, second],
            ],
        )?;
    }
    Ok(())
}

/// What is said of the messages that `build` makes for lists of so many actions of 8 bytes each: how many
/// they are.
fn made(alloc: Global, command: u16, counts: &[usize]) -> Result<String, AllocError> {
    let asked = for_all(alloc, command)?;
    let mut found = Vec::new(alloc);
    let mut lists = Vec::new(alloc);
    for count in counts {
        found.push(tcp(None, 80))?;
        lists.push(strips(alloc, *count)?)?;
    }
    match built(alloc, &asked, 0, &found, &lists, None) {
        Ok(frames) => told(alloc, &frames.len()),
        Err(fault) => told(alloc, &fault),
    }
}

/// Commands, the lengths of lists, and what is said of the messages for them.
const SIZES: &[(u16, &[usize], &str)] = &[
    // 65,528 bytes and 65,536 bytes
    (ADD, &[8182], "1"),
    (ADD, &[0, 8183], "TooLarge"),
    (DELETE, &[0, 8183], "2"),
    // together 262,144 bytes and 8 more
    (ADD, &[8182, 8182, 8182, 4088, 4089], "5"),
    (ADD, &[8182, 8182, 8182, 4089, 4089], "TooLarge"),
    (DELETE, &[8182, 8182, 8182, 4089, 4089], "5"),
    // 3,640 messages without actions have 262,080 bytes
    (ADD, &[0; 3640], "3640"),
    (DELETE, &[0; 3641], "TooLarge"),
];

#[test]
fn messages_keep_to_their_sizes(rt: HostRuntime) -> Result<(), Fail> {
    for (row, (command, counts, wanted)) in SIZES.iter().enumerate() {
        let came = made(rt.alloc(), *command, counts)?;
        expect_told(row as u32, &came, wanted)?;
    }
    Ok(())
}
