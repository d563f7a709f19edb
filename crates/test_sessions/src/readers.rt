use crate::connections::{Connection, Then, Writer, play};
use crate::desks::{Before, ECHO, FEATURES, FIRST_VERSION, Found, PORT_REST, TO_DISMISSED};
use live_session::{ReaderEnd, Side, WriterEnd};
use std::test::Fail;

const DISMISSED: Connection = Connection {
    before: Before::Opened,
    side: Side::Slice(0),
    comes: &[ECHO, FIRST_VERSION, ECHO],
    questions: 0,
    most: 3,
    failing: None,
    calls: 100,
    writer_calls: 100,
    end: ReaderEnd::Dismissed,
    left: 97,
    now: 13,
    then: Then::Writes(Writer {
        most: usize::MAX,
        failing: None,
        end: WriterEnd::Ended,
        left: 96,
        sent: TO_DISMISSED,
        size: 28,
    }),
};

#[test]
fn messages_are_asked_whatever_the_pieces_are(rt: HostRuntime) -> Result<(), Fail> {
    play(&rt, rt.alloc(), &DISMISSED)
}

/// The switch says what it is, and breaks off within another message.
const CLOSED: Connection = Connection {
    before: Before::Nothing,
    side: Side::Switch,
    comes: &[FEATURES, PORT_REST, "010200"],
    questions: 0,
    most: 3,
    failing: None,
    calls: 100,
    writer_calls: 0,
    end: ReaderEnd::Closed,
    left: 97,
    now: 13,
    then: Then::Finds(Found::Ended),
};

#[test]
fn source_that_is_closed_takes_the_switch_down(rt: HostRuntime) -> Result<(), Fail> {
    play(&rt, rt.alloc(), &CLOSED)
}

const FAILED: Connection = Connection {
    before: Before::Nothing,
    side: Side::Switch,
    comes: &[ECHO, ECHO],
    questions: 0,
    most: 3,
    failing: Some(4),
    calls: 100,
    writer_calls: 0,
    end: ReaderEnd::ReadFault,
    left: 97,
    now: 13,
    then: Then::Finds(Found::Ended),
};

#[test]
fn source_that_fails_takes_the_switch_down(rt: HostRuntime) -> Result<(), Fail> {
    play(&rt, rt.alloc(), &FAILED)
}

const TOO_LATE: Connection = Connection {
    before: Before::Ended,
    side: Side::Slice(1),
    comes: &[ECHO],
    questions: 0,
    most: 3,
    failing: None,
    calls: 100,
    writer_calls: 100,
    end: ReaderEnd::DeskEnded,
    left: 99,
    now: 11,
    then: Then::Writes(Writer {
        most: usize::MAX,
        failing: None,
        end: WriterEnd::Ended,
        left: 99,
        sent: "",
        size: 0,
    }),
};

#[test]
fn desk_that_has_ended_ends_its_readers_and_writers(rt: HostRuntime) -> Result<(), Fail> {
    play(&rt, rt.alloc(), &TOO_LATE)
}

const SPENT: Connection = Connection {
    before: Before::Nothing,
    side: Side::Switch,
    comes: &[ECHO, ECHO],
    questions: 0,
    most: 3,
    failing: None,
    calls: 2,
    writer_calls: 0,
    end: ReaderEnd::Spent,
    left: 0,
    now: 12,
    then: Then::Finds(Found::Message),
};

#[test]
fn reader_ends_once_its_calls_are_spent(rt: HostRuntime) -> Result<(), Fail> {
    play(&rt, rt.alloc(), &SPENT)
}
