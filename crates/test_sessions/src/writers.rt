use crate::connections::{Connection, Then, Writer, play};
use crate::desks::{Before, ECHO, FIRST_VERSION, TO_DISMISSED};
use live_session::{ReaderEnd, Side, WriterEnd};
use std::test::Fail;

const FAILED: Connection = Connection {
    before: Before::Opened,
    side: Side::Slice(0),
    comes: &[ECHO, FIRST_VERSION],
    questions: 0,
    most: 3,
    failing: None,
    calls: 100,
    writer_calls: 100,
    end: ReaderEnd::Dismissed,
    left: 97,
    now: 13,
    then: Then::Writes(Writer {
        most: 5,
        failing: Some(2),
        end: WriterEnd::WriteFault,
        left: 96,
        sent: TO_DISMISSED,
        size: 10,
    }),
};

#[test]
fn sink_that_fails_took_a_beginning(rt: HostRuntime) -> Result<(), Fail> {
    play(&rt, rt.alloc(), &FAILED)
}

/// The reader has calls for the up and the questions, but for no down. Of the 65 answers the last has no room.
const CHOKED: Connection = Connection {
    before: Before::Opened,
    side: Side::Slice(0),
    comes: &[],
    questions: 65,
    most: 100_000,
    failing: None,
    calls: 66,
    writer_calls: 1_000,
    end: ReaderEnd::Spent,
    left: 0,
    now: 14,
    then: Then::Writes(Writer {
        most: usize::MAX,
        failing: None,
        end: WriterEnd::Choked,
        left: 934,
        sent: "0100000800000000",
        size: 8 + 64 * 65_535,
    }),
};

#[test]
fn writer_of_a_slice_that_reads_too_slowly_is_choked(rt: HostRuntime) -> Result<(), Fail> {
    play(&rt, rt.alloc(), &CHOKED)
}

const SPENT: Connection = Connection {
    before: Before::Opened,
    side: Side::Slice(1),
    comes: &[ECHO, FIRST_VERSION],
    questions: 0,
    most: 3,
    failing: None,
    calls: 100,
    writer_calls: 1,
    end: ReaderEnd::Dismissed,
    left: 97,
    now: 13,
    then: Then::Writes(Writer {
        most: usize::MAX,
        failing: None,
        end: WriterEnd::Spent,
        left: 0,
        sent: TO_DISMISSED,
        size: 8,
    }),
};

#[test]
fn writer_ends_once_its_calls_are_spent(rt: HostRuntime) -> Result<(), Fail> {
    play(&rt, rt.alloc(), &SPENT)
}
