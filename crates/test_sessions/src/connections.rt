//! One connection of a desk: what comes on it, what is sent on it, and how its reader and its writer end.

ghost use Rattle.turn_desk.specs.Seats.{IsSeatOf};

use crate::desks::{Before, Found, clock, expect, finds, hear};
use fv_base::MemorySink;
use fv_live::{Clock, Host, MemorySource};
use live_samples::desk;
use live_session::{
    Bells, DeskObject, Dest, OpenGate, ReaderEnd, Side, WriterEnd, run_reader, run_writer,
};
use of10_ctl::message;
use samples::bytes;
use std::alloc::{AllocError, Global};
use std::net::{Net, TcpListener, TcpStream};
use std::process::Abort;
use std::sync::Wait;
use std::test::Fail;
use turn_desk::{TurnDesk, TurnSeat};

/// A connection, and what becomes of it.
pub struct Connection {
    /// What the desk heard of the switch before.
    pub before: Before,
    /// Whose connection it is.
    pub side: Side,
    /// The digits that its source gives.
    pub comes: &'static [&'static str],
    /// How many of the longest questions of a controller come after that.
    pub questions: u32,
    /// The source gives at most so many bytes at once.
    pub most: usize,
    /// The take, from 0, at which the source fails.
    pub failing: Option<u64>,
    /// How many calls the reader's seat has, and how many the writer's.
    pub calls: u32,
    pub writer_calls: u32,
    /// How the reader ends.
    pub end: ReaderEnd,
    /// How many of its calls are left.
    pub left: u64,
    /// What the clock answers next.
    pub now: u64,
    pub then: Then,
}

/// What is seen once the reader has ended.
pub enum Then {
    /// What the desk gives for the switch.
    Finds(Found),
    /// What the writer of the connection does.
    Writes(Writer),
}

/// The writer of a connection, and what it writes.
#[derive(Clone, Copy)]
pub struct Writer {
    /// Its sink takes at most so many bytes at once.
    pub most: usize,
    /// The put, from 0, at which the sink fails.
    pub failing: Option<u64>,
    pub end: WriterEnd,
    /// How many of its calls are left.
    pub left: u64,
    /// The digits of what is sent, as far as either goes.
    pub sent: &'static str,
    /// How many bytes are sent.
    pub size: usize,
}

// Appends so many of the longest questions of a controller.
fn push_questions(alloc: Global, bytes: &mut Vec<u8>, count: u32) -> Result<(), AllocError> {
    let body = vec![in alloc; 0; 65_527]?;
    for xid in 0..count {
        bytes.extend_from_slice(message(alloc, 2, xid, &body)?.as_slice())?;
    }
    Ok(())
}

fn list_of(alloc: Global, number: Option<u64>) -> Result<Vec<u64>, AllocError> {
    let mut list = Vec::new(alloc);
    if let Some(number) = number {
        list.push(number)?;
    }
    Ok(list)
}

fn faults_of(failing: Option<u64>) -> u64 {
    match failing {
        Some(_) => 1,
        None => 0,
    }
}

fn source(alloc: Global, row: &Connection) -> Result<MemorySource, AllocError> {
    let mut comes = bytes(alloc, row.comes)?;
    push_questions(alloc, &mut comes, row.questions)?;
    Ok(MemorySource::new(comes, row.most, list_of(alloc, row.failing)?))
}

// How the reader ended, what the clock answers next, and how many takes failed.
fn read<R: Host + Net<Listener = TcpListener, Stream = TcpStream>>(
    rt: &R,
    alloc: Global,
    desk: &TurnDesk<DeskObject>,
    seat: &mut TurnSeat<DeskObject>,
    bells: &Bells,
    row: &Connection,
) -> Result<(ReaderEnd, u64, u64), AllocError>
    requires { IsSeatOf desk.now seat.old }
{
    let mut source = source(alloc, row)?;
    let mut clock = clock(alloc)?;
    let end = run_reader(
        rt,
        alloc,
        desk,
        seat,
        &mut source,
        row.side,
        &mut clock,
        &OpenGate,
        bells,
    );
    Ok((end, clock.now(), source.faults()))
}

fn dest_of(side: Side) -> Dest {
    match side {
        Side::Switch => Dest::Switch,
        Side::Slice(slot) => Dest::Slice(slot),
    }
}

// How the writer ended, and what it wrote.
fn write<R: Wait>(
    rt: &R,
    alloc: Global,
    desk: &TurnDesk<DeskObject>,
    seat: &mut TurnSeat<DeskObject>,
    bells: &Bells,
    side: Side,
    row: &Writer,
) -> Result<(WriterEnd, MemorySink), AllocError>
    requires { IsSeatOf desk.now seat.old }
{
    let mut sink = MemorySink::with_plan(alloc, row.most, list_of(alloc, row.failing)?);
    let end = run_writer(rt, alloc, desk, seat, &mut sink, dest_of(side), bells);
    Ok((end, sink))
}

// Whether the bytes are the same as far as both go.
fn are_alike(left: &[u8], right: &[u8]) -> bool {
    let size = left.len().min(right.len());
    left[..size] == right[..size]
}

fn expect_written(
    rt: &impl Abort,
    alloc: Global,
    row: &Writer,
    end: WriterEnd,
    sink: &MemorySink,
) -> Result<(), AllocError> {
    let sent = bytes(alloc, &[row.sent])?;
    expect(rt, end == row.end, "how the writer ended");
    expect(
        rt,
        sink.faults() == faults_of(row.failing),
        "how many puts failed",
    );
    expect(rt, sink.as_slice().len() == row.size, "how much was sent");
    expect(rt, are_alike(sink.as_slice(), &sent), "what was sent");
    Ok(())
}

// Whoever is at the other end is sent what the row says.
fn expect_then<R: Wait + Abort>(
    rt: &R,
    alloc: Global,
    desk: &TurnDesk<DeskObject>,
    seat: &mut TurnSeat<DeskObject>,
    writing: &mut TurnSeat<DeskObject>,
    bells: &Bells,
    row: &Connection,
) -> Result<(), AllocError>
    requires seat { IsSeatOf desk.now seat.old }
    requires writing { IsSeatOf desk.now writing.old }
{
    match &row.then {
        Then::Finds(found) => {
            expect(rt, finds(rt, desk, seat, *found), "what the switch finds");
            Ok(())
        }
        Then::Writes(writer) => {
            let (end, sink) = write(rt, alloc, desk, writing, bells, row.side, writer)?;
            expect(
                rt,
                writing.left() == writer.left,
                "what is left to the writer",
            );
            expect_written(rt, alloc, writer, end, &sink)
        }
    }
}

/// The connection is read, and then written, as its row says.
pub fn play<R: Host + Net<Listener = TcpListener, Stream = TcpStream> + Abort>(
    rt: &R,
    alloc: Global,
    row: &Connection,
) -> Result<(), Fail> {
    let (desk, mut seat, bells) = desk(alloc)?;
    let mut reading = desk.split(&mut seat, u64::from(row.calls));
    let mut writing = desk.split(&mut seat, u64::from(row.writer_calls));
    expect(
        rt,
        hear(rt, alloc, &desk, &mut seat, row.before)?,
        "what the desk heard before",
    );
    let (end, now, faults) = read(rt, alloc, &desk, &mut reading, &bells, row)?;
    expect(rt, end == row.end, "how the reader ended");
    expect(rt, reading.left() == row.left, "what is left to the reader");
    expect(rt, now == row.now, "what the clock answers");
    expect(
        rt,
        faults == faults_of(row.failing),
        "how many takes failed",
    );
    expect_then(rt, alloc, &desk, &mut seat, &mut writing, &bells, row)?;
    Ok(())
}
