//! Messages of each length, whatever they say of the length of a part.

use super::{Bench, set_up};
use expectations::expect;
use of10_ctl::kind::{FLOW_MOD, PACKET_OUT};
use of10_ctl::{Frame, message};
use samples::{TO_TCP_80, bytes};
use slice_side::Reaction;
use std::alloc::{AllocError, Global};
use std::test::Fail;

/// A message that is sent on, and how it names the length of a part.
struct Whole {
    kind: u8,
    /// What stands between its head and that length.
    before: &'static [&'static str],
    /// What follows that length.
    behind: &'static str,
    /// It is cut to each length below this.
    size: u16,
    /// It says each length below this of its part.
    listed: u16,
    /// What is answered; the first row that fits counts.
    answers: &'static [Answer],
}

/// What is answered: the least length of the message and the greatest, the same of its part, and how many
/// bytes there are at least beside the part. Then class and code of the error, or nothing where the message
/// is sent on.
type Answer = (u16, u16, u16, u16, u16, &'static [u8]);

const MOST: u16 = u16::MAX;

/// The answer where no other fits: the message, or its part, hasn't the length that it should have.
const BAD_LENGTH: &[u8] = &[0, 1, 0, 6];

/// A packet-out of 78 bytes, of no buffer and port 1, which names the length of its actions. An OUTPUT to port 1
/// follows, and a TCP packet to port 80.
///
/// It is refused where it ends before its actions, an action ends before its end, or the packet, up to the port that
/// it is for, isn't all there or isn't where it was.
const PACKET: Whole = Whole {
    kind: PACKET_OUT,
    before: &["ffffffff0001"],
    behind: "0000000800010000\
00000000000200000000000108004500002800000000400600000a0000010a000002\
0400005000000000000000005002000000000000",
    size: 79,
    listed: 80,
    answers: &[
        (62, MOST, 8, 8, 16, &[]),
        (16, MOST, 0, 0, 16, &[0, 1, 0, 5]),
        (16, MOST, 8, 8, 16, &[0, 1, 0, 5]),
        (16, MOST, 0, MOST, 16, &[0, 2, 0, 1]),
    ],
};

/// An ADD, of no buffer, which names the length of its first action, an ENQUEUE to a queue of port 1. Two OUTPUTs to
/// port 1 follow.
///
/// It is refused where the fields aren't all there, or an action isn't.
const ADD: Whole = Whole {
    kind: FLOW_MOD,
    before: &[
        TO_TCP_80,
        "0000000000000000 0000 003c 0000 000a ffffffff ffff 0000 000b",
    ],
    behind: "0001 000000000000 00000003 0000000800010000 0000000800010000",
    size: 105,
    listed: 41,
    answers: &[
        (72, 72, 0, MOST, 0, &[]),
        (88, 88, 16, 16, 0, &[]),
        (96, 96, 16, 16, 0, &[]),
        (104, 104, 16, 16, 0, &[]),
        (73, MOST, 0, MOST, 0, &[0, 2, 0, 1]),
    ],
};

impl Whole {
    /// The first bytes of the message, where it says that its part has so many.
    fn cut(&self, alloc: Global, size: u16, listed: u16) -> Result<Frame, AllocError> {
        let mut body = bytes(alloc, self.before)?;
        body.extend_from_slice(&listed.to_be_bytes())?;
        body.extend_from_slice(&bytes(alloc, &[self.behind])?)?;
        let size = usize::from(size).saturating_sub(8).min(body.len());
        message(alloc, self.kind, 7, &body[..size])
    }

    /// Class and code of the error that is answered to it.
    fn error(&self, size: u16, listed: u16) -> &'static [u8] {
        for (least, most, least_listed, most_listed, beside, error) in self.answers {
            let is_size = *least <= size && size <= *most;
            let is_listed = *least_listed <= listed && listed <= *most_listed;
            if is_size && is_listed && listed <= size.saturating_sub(*beside) {
                return error;
            }
        }
        BAD_LENGTH
    }
}

/// Class and code of the error that is answered.
fn error_in(reaction: &Reaction) -> &[u8] {
    match reaction.to_slice.first() {
        Some(error) => error.as_slice().get(8..12).unwrap_or(&[]),
        None => &[],
    }
}

/// Whether the message that is cut so is answered with its error, and is sent on where there is none.
fn is_answered(
    alloc: Global,
    bench: &Bench,
    whole: &Whole,
    size: u16,
    listed: u16,
) -> Result<bool, AllocError> {
    let reaction = bench.hear(alloc, &whole.cut(alloc, size, listed)?, 0)?;
    let error = whole.error(size, listed);
    let is_sent = !reaction.to_switch.is_empty();
    Ok(error_in(&reaction) == error && is_sent == error.is_empty())
}

/// Each message is answered as it is to be.
fn expect_answers(alloc: Global, whole: &Whole) -> Result<(), Fail> {
    let bench = set_up(alloc)?;
    for size in 8..whole.size {
        for listed in 0..whole.listed {
            let is_so = is_answered(alloc, &bench, whole, size, listed)?;
            expect_case(alloc, is_so, size, listed)?;
        }
    }
    Ok(())
}

/// How many bytes a message has, and how many it says of its part.
fn case_name(alloc: Global, size: u16, listed: u16) -> Result<String, AllocError> {
    let mut name = String::new(alloc);
    write!(name, "{size} bytes, and {listed} of the part")?;
    Ok(name)
}

/// It is so of the message that is cut so.
fn expect_case(alloc: Global, is_so: bool, size: u16, listed: u16) -> Result<(), Fail> {
    if !is_so {
        expect!(is_so, case_name(alloc, size, listed)?);
    }
    Ok(())
}

#[test]
fn packet_outs_of_each_length_are_refused_or_sent(rt: HostRuntime) -> Result<(), Fail> {
    expect_answers(rt.alloc(), &PACKET)
}

#[test]
fn flow_mods_of_each_length_are_refused_or_sent(rt: HostRuntime) -> Result<(), Fail> {
    expect_answers(rt.alloc(), &ADD)
}
