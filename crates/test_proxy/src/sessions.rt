//! Sessions at the desk of one switch, row by row.
//!
//! A case begins with a line that says what it shows, and with a fresh desk. `opened` stands for the rows of `OPENED`:
//! the switch has connected and told what it is, alice is up, and what this brought was taken. A row has a connection
//! and what becomes of it. It comes `up`, goes `down` or says a message, by its name or its digits, once or so many
//! times: this `goes`, or its connection `closes`, or all has ended (`ends`). It `asks` for flows, so many times, which
//! the switch answers. It `gets` the oldest message, which is this one, or `passes` so many messages, or `finds` no
//! message and why. The switch `is` told or untold, by its datapath id, and a slice is up or down, missing, or unknown
//! before the switch has told what it is. A `#` at the end stands for the number of the time, from 0, in eight digits. A row of another form
//! is a mistake in a test. It is answered as out of memory, so that the test fails.

mod messages;

use expectations::expect;
use flowspace::Policy;
use messages::{flows, said};
use of10_ctl::Frame;
use proxy_core::{Desk, Dest, Event, Taken, Timed, Verdict};
use samples::{policy, rule, tcp};
use std::alloc::{AllocError, Global};
use std::test::Fail;

/// The datapath id that the switch says.
const DATAPATH: u64 = 0xa1;

/// The rows for which `opened` stands.
const OPENED: &str = "\
switch goes up
switch goes features
switch passes 5 messages
alice goes up
alice passes 1 message
";

fn desk_of(alloc: Global, policy: Policy) -> Desk {
    Desk::new(alloc, policy)
}

/// The desk of alice, who writes TCP packets for so many ports from 80 on, and bob, who writes those for port 22.
fn desk(alloc: Global, ports: u16) -> Result<Desk, AllocError> {
    let mut rules = Vec::new(alloc);
    rules.push(rule(50, &tcp(None, 22), 1, 0))?;
    for port in 0..ports {
        rules.push(rule(100, &tcp(None, u16::saturating_add(80, port)), 0, 0))?;
    }
    match policy(alloc, &rules) {
        Ok(policy) => Ok(desk_of(alloc, policy)),
        Err(_) => Err(AllocError),
    }
}

fn connection(who: &str) -> Result<Dest, AllocError> {
    match who {
        "switch" => Ok(Dest::Switch),
        "alice" => Ok(Dest::Slice(0)),
        "bob" => Ok(Dest::Slice(1)),
        "nobody" => Ok(Dest::Slice(2)),
        _ => Err(AllocError),
    }
}

/// A connection comes, goes or says something.
fn event(alloc: Global, whose: Dest, what: &str) -> Result<Event, AllocError> {
    Ok(match (whose, what) {
        (Dest::Switch, "up") => Event::SwitchUp,
        (Dest::Switch, "down") => Event::SwitchDown,
        (Dest::Switch, message) => Event::SwitchMsg(said(alloc, message)?),
        (Dest::Slice(slot), "up") => Event::SliceUp(slot),
        (Dest::Slice(slot), "down") => Event::SliceDown(slot),
        (Dest::Slice(slot), message) => Event::SliceMsg(slot, said(alloc, message)?),
    })
}

/// The desk takes an event in; the verb for its answer.
fn step(alloc: Global, desk: &mut Desk, event: Event) -> Result<&'static str, AllocError> {
    Ok(match desk.step(alloc, Timed { event, moment: 0 })? {
        Verdict::Go => "goes",
        Verdict::Close => "closes",
        Verdict::Ended => "ends",
    })
}

/// The oldest message for a connection, or why there is none.
fn taken(desk: &mut Desk, whose: Dest) -> Result<Frame, &'static str> {
    match desk.take(whose) {
        Taken::Message(message) => Ok(message),
        Taken::Nothing => Err("nothing"),
        Taken::Choked => Err("choked"),
        Taken::Ended => Err("ended"),
        Taken::NotOpen => Err("early"),
    }
}

/// A slice asks the switch for its flows, and the switch answers; whether the desk takes both in.
fn asks(alloc: Global, desk: &mut Desk, whose: Dest) -> Result<bool, AllocError> {
    let asked = step(alloc, desk, event(alloc, whose, "flows")?)?;
    let Ok(question) = taken(desk, Dest::Switch) else {
        return Ok(false);
    };
    let xid = question.head().xid;
    let answered = step(alloc, desk, Event::SwitchMsg(flows(alloc, xid)?))?;
    Ok(asked == "goes" && answered == "goes")
}

/// What is taken for a connection is this message, or there is none for this reason.
fn finds(alloc: Global, desk: &mut Desk, whose: Dest, what: &str) -> Result<bool, AllocError> {
    Ok(match taken(desk, whose) {
        Ok(message) => message.as_slice() == said(alloc, what)?.as_slice(),
        Err(reason) => reason == what,
    })
}

/// What the desk knows of the switch, or keeps of a slice.
fn known(desk: &Desk, whose: Dest) -> &'static str {
    match (whose, desk.states()) {
        (Dest::Switch, _) => match desk.datapath() {
            Some(DATAPATH) => "told",
            Some(_) => "another",
            None => "untold",
        },
        (Dest::Slice(_), None) => "unknown",
        (Dest::Slice(slot), Some(states)) => match states.get(usize::from(slot)) {
            Some(state) if state.up => "up",
            Some(_) => "down",
            None => "missing",
        },
    }
}

/// What a verb says is so, once.
fn is_so(
    alloc: Global,
    desk: &mut Desk,
    whose: Dest,
    verb: &str,
    what: &str,
) -> Result<bool, AllocError> {
    match verb {
        "gets" | "finds" => finds(alloc, desk, whose, what),
        "passes" => Ok(taken(desk, whose).is_ok()),
        "asks" => asks(alloc, desk, whose),
        "is" => Ok(known(desk, whose) == what),
        _ => Ok(step(alloc, desk, event(alloc, whose, what)?)? == verb),
    }
}

/// The words of a row: whose connection it is, the verb, how often it is so, which is once where nothing is said, and
/// what.
fn words_of(row: &str) -> Option<(&str, &str, u32, &str)> {
    let (who, rest) = row.split_once(" ")?;
    let (verb, what) = rest.split_once(" ")?;
    let (count, what) = what.split_once(" ").unwrap_or(("1", what));
    Some((who, verb, count.parse::<u32>().ok()?, what))
}

/// The words, with the number of the time for a `#` at their end.
fn numbered(alloc: Global, what: &str, time: u32) -> Result<String, AllocError> {
    match what.strip_suffix("#") {
        Some(begun) => format!(in alloc; "{begun}{time:08x}"),
        None => String::from_str(alloc, what),
    }
}

/// Each row but `opened` is so.
fn play(alloc: Global, desk: &mut Desk, rows: &str) -> Result<(), Fail> {
    for row in rows.lines() {
        let (who, verb, count, what) = words_of(row).ok_or(AllocError)?;
        let whose = connection(who)?;
        for time in 0..count {
            let what = numbered(alloc, what, time)?;
            expect!(is_so(alloc, desk, whose, verb, what.as_str())?, row);
        }
    }
    Ok(())
}

/// Each case goes as its rows say, where alice writes packets for so many ports.
pub(crate) fn expect_rows(alloc: Global, cases: &str, ports: u16) -> Result<(), Fail> {
    let mut desk = self::desk(alloc, ports)?;
    for row in cases.lines() {
        if row.starts_with('#') {
            desk = self::desk(alloc, ports)?;
        } else if row == "opened" {
            play(alloc, &mut desk, OPENED)?;
        } else {
            play(alloc, &mut desk, row)?;
        }
    }
    Ok(())
}
