//! The calls that are measured.

use crate::checking::give;
use crate::expanding::{send, split};
use crate::messages::Messages;
use crate::parts::Part;
use crate::policies::{check, largest};
use crate::reporting::{Keeping, report};
use crate::sampling::Samples;
use match_meet::{includes, meet};
use std::alloc::{AllocError, Global};

/// A question about matches and headers.
#[derive(Clone, Copy)]
pub enum Question {
    /// Whether a match has a header.
    Matches,
    /// The headers that two matches share.
    Meet,
    /// Whether a match has all headers of another.
    Includes,
}

/// A call that is measured.
#[derive(Clone, Copy)]
pub enum Benchmark {
    Asks(Question),
    /// Cutting a stream into frames.
    Framing,
    /// Reading packet-ins with packets of 64 bytes.
    SmallPackets,
    /// Reading packet-ins with packets of 1,500 bytes.
    LargePackets,
    /// Finding the 256 pieces of a flow-mod.
    Splitting,
    /// Making the messages of 256 pieces.
    Sending,
    /// Checking a list of actions against 256 rules.
    Checking,
    /// Reading and loading the text of a policy of 2,048 rules in 32 slices.
    Policies,
    /// A call to a part of a slice.
    Of(Part),
    /// Writing the report of a recording of packets.
    Report(Keeping),
}

/// What is said of a benchmark's speed: fewer calls are too few to say it; a call counts as so many, and a
/// million of these in a second are one of the unit.
#[derive(Clone, Copy)]
pub struct Scale {
    pub least: u64,
    pub each: u64,
    pub unit: &'static str,
}

const MILLIONS: Scale = Scale {
    least: 1_000_000,
    each: 1,
    unit: "million",
};

const THOUSANDS: Scale = Scale {
    least: 10_000,
    each: 1_000,
    unit: "thousand",
};

const EVENTS: Scale = Scale {
    least: 10_000,
    each: 1_000_000,
    unit: "events",
};

const POLICIES: Scale = Scale {
    least: 10,
    each: 1_000_000,
    unit: "policies",
};

/// Of calls that read 4,096 bytes of a stream.
const PIECES: Scale = Scale {
    least: 1_000_000,
    each: Messages::PIECE as u64,
    unit: "MB",
};

/// Of the reading of a message of 82 bytes.
const SMALL: Scale = Scale {
    least: 1_000_000,
    each: 82,
    unit: "MB",
};

/// Of the reading of one of 1,518 bytes.
const LARGE: Scale = Scale {
    least: 1_000_000,
    each: 1_518,
    unit: "MB",
};

/// A benchmark by its name, and how its speed is printed.
pub type Named = (&'static str, Benchmark, Scale);

/// Those that `all` runs, in the order in which they are made.
pub const ALL: &[Named] = &[
    ("matches", Benchmark::Asks(Question::Matches), MILLIONS),
    ("meet", Benchmark::Asks(Question::Meet), MILLIONS),
    ("includes", Benchmark::Asks(Question::Includes), MILLIONS),
    ("framing", Benchmark::Framing, PIECES),
    ("packet-in-64", Benchmark::SmallPackets, SMALL),
    ("packet-in-1500", Benchmark::LargePackets, LARGE),
    ("pieces", Benchmark::Splitting, THOUSANDS),
    ("build", Benchmark::Sending, THOUSANDS),
    ("actions", Benchmark::Checking, THOUSANDS),
    ("issue", Benchmark::Of(Part::Issue), MILLIONS),
    ("find", Benchmark::Of(Part::Find), MILLIONS),
    ("ask", Benchmark::Of(Part::Ask), MILLIONS),
    ("booked", Benchmark::Of(Part::Booked), MILLIONS),
    ("overlaps", Benchmark::Of(Part::Overlaps), THOUSANDS),
    ("newcomers", Benchmark::Of(Part::Newcomers), THOUSANDS),
    ("report", Benchmark::Report(Keeping::Nothing), EVENTS),
    (
        "report-buffered",
        Benchmark::Report(Keeping::EachPacket),
        EVENTS,
    ),
];

/// The reading of policies, which `all` doesn't run.
pub const CHECK: Named = ("check", Benchmark::Policies, POLICIES);

/// One answer, on samples that its number picks.
fn holds(samples: &Samples, question: Question, number: u64) -> bool {
    let first = samples.pattern(number);
    let second = number / 7;
    match question {
        Question::Matches => first.matches(samples.header(second)),
        Question::Meet => meet(first, samples.pattern(second)).is_some(),
        Question::Includes => includes(first, samples.pattern(second)),
    }
}

/// Asks so often, and counts the answers that are yes.
fn ask(samples: &Samples, question: Question, count: u64) -> u64 {
    let mut found = 0u64;
    for number in 0..count {
        found = found.saturating_add(u64::from(holds(samples, question, number)));
    }
    found
}

/// Makes so many calls, and counts what they find: answers that are yes, frames, packets, pieces,
/// messages, lists, policies that are accepted, requests, pairs, or packets that are reported.
pub fn run(
    alloc: Global,
    samples: &Samples,
    messages: &Messages,
    benchmark: Benchmark,
    count: u64,
) -> Result<u64, AllocError> {
    match benchmark {
        Benchmark::Asks(question) => Ok(ask(samples, question, count)),
        Benchmark::Framing => messages.cut(alloc, count),
        Benchmark::SmallPackets => Messages::read(alloc, messages.small(), count),
        Benchmark::LargePackets => Messages::read(alloc, messages.large(), count),
        Benchmark::Splitting => split(alloc, count),
        Benchmark::Sending => send(alloc, count),
        Benchmark::Checking => give(alloc, count),
        Benchmark::Policies => Ok(check(alloc, &largest(alloc)?, count)),
        Benchmark::Of(part) => part.run(alloc, count),
        Benchmark::Report(keeping) => report(alloc, keeping, count),
    }
}
