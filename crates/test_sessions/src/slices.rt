ghost use Rattle.turn_desk.specs.Seats.{IsSeatOf, SameDesk};

use crate::desks::{Before, ECHO, FIRST_VERSION, TO_DISMISSED, clock, expect, hear};
use fv_base::MemorySink;
use fv_live::{Host, Links, MemoryDialer, MemorySource, SharedSink};
use live_samples::{Sent, desk, link, nothing};
use live_session::{Bells, DeskObject, Dest, Half, OpenGate, SliceEnd, run_slice, run_writer};
use samples::bytes;
use std::alloc::{AllocError, Global};
use std::net::{Net, TcpListener, TcpStream};
use std::process::Abort;
use std::sync::{Arc, Wait};
use std::test::Fail;
use std::thread;
use turn_desk::{TurnDesk, TurnSeat};

/// How many calls the seat has; how the reader ends, how many dials failed, and how many calls are left.
const CASES: [(u32, SliceEnd, u64, u64); 2] = [
    (100, SliceEnd::GaveUp, 1_000, 99),
    (0, SliceEnd::Spent, 0, 0),
];

// How the reader of a slice without a controller ended, and how many dials failed. No link was handed on.
fn read<R: Host + Net<Listener = TcpListener, Stream = TcpStream> + Abort>(
    rt: &R,
    alloc: Global,
    desk: &TurnDesk<DeskObject>,
    seat: &mut TurnSeat<DeskObject>,
    bells: &Bells,
) -> Result<(SliceEnd, u64), AllocError>
    requires { IsSeatOf desk.now seat.old }
{
    let mut dialer = MemoryDialer::<MemorySource, MemorySink>::new(alloc, None);
    let half = Half::new(alloc)?;
    let mut clock = clock(alloc)?;
    let end = run_slice(
        rt,
        alloc,
        desk,
        seat,
        &mut dialer,
        "alice",
        0,
        &mut clock,
        &OpenGate,
        &half,
        bells,
    );
    expect(rt, half.take(rt).is_none(), "which links are handed on");
    Ok((end, dialer.faults("alice")))
}

#[test]
fn reader_ends_after_a_thousand_dials_or_without_calls(rt: HostRuntime) -> Result<(), Fail> {
    let alloc = rt.alloc();
    for (calls, wanted, faults, left) in CASES {
        let (desk, mut seat, bells) = desk(alloc)?;
        let mut reader = desk.split(&mut seat, u64::from(calls));
        expect(
            &rt,
            hear(&rt, alloc, &desk, &mut seat, Before::Opened)?,
            "what the desk heard before",
        );
        let (end, failed) = read(&rt, alloc, &desk, &mut reader, &bells)?;
        expect(&rt, end == wanted, "how the reader ended");
        expect(&rt, failed == faults, "how many dials failed");
        expect(&rt, reader.left() == left, "what is left to the reader");
    }
    Ok(())
}

// What gives alice's links, one for each of these.
fn dialer<R: Wait + Copy>(
    rt: R,
    alloc: Global,
    sent: &[Sent],
) -> Result<MemoryDialer<MemorySource, SharedSink<R>>, AllocError> {
    let mut links = Vec::new(alloc);
    for sent in sent {
        links.push(link(rt, alloc, "alice", &[ECHO, FIRST_VERSION], sent)?)?;
    }
    let links = Arc::new(alloc, Links::new(links, Vec::new(alloc)))?;
    Ok(MemoryDialer::new(alloc, Some(links)))
}

// Reads alice's links, and answers how it ended and how many dials failed.
fn read_links<R: Host + Net<Listener = TcpListener, Stream = TcpStream> + Copy>(
    rt: &R,
    alloc: Global,
    desk: &TurnDesk<DeskObject>,
    seat: TurnSeat<DeskObject>,
    sent: &[Sent],
    half: &Half<SharedSink<R>>,
    bells: &Bells,
) -> Result<(SliceEnd, u64), AllocError>
    requires { IsSeatOf desk.now seat }
{
    let mut seat = seat;
    let mut dialer = dialer(*rt, alloc, sent)?;
    let mut clock = clock(alloc)?;
    let end = run_slice(
        rt,
        alloc,
        desk,
        &mut seat,
        &mut dialer,
        "alice",
        0,
        &mut clock,
        &OpenGate,
        half,
        bells,
    );
    Ok((end, dialer.faults("alice")))
}

// Writes one of alice's links to its end.
fn write_link<R: Wait + Copy>(
    rt: &R,
    alloc: Global,
    desk: &TurnDesk<DeskObject>,
    seat: &mut TurnSeat<DeskObject>,
    half: &Half<SharedSink<R>>,
    bells: &Bells,
)
    requires { IsSeatOf desk.now seat.old }
    ensures { SameDesk seat.new seat.old }
{
    let Some(mut sink) = half.take(rt) else {
        return;
    };
    let _end = run_writer(rt, alloc, desk, seat, &mut sink, Dest::Slice(0), bells);
    drop(sink);
    half.end(rt);
}

// Writes two of alice's links, one after the other.
fn write_links<R: Wait + Copy>(
    rt: &R,
    alloc: Global,
    desk: &TurnDesk<DeskObject>,
    seat: TurnSeat<DeskObject>,
    half: &Half<SharedSink<R>>,
    bells: &Bells,
)
    requires { IsSeatOf desk.now seat }
{
    let mut seat = seat;
    write_link(rt, alloc, desk, &mut seat, half, bells);
    write_link(rt, alloc, desk, &mut seat, half, bells);
}

#[test]
fn each_link_has_its_own_answers(rt: HostRuntime) -> Result<(), Fail> {
    let alloc = rt.alloc();
    let (desk, mut seat, bells) = desk(alloc)?;
    let reader = desk.split(&mut seat, 100);
    let writer = desk.split(&mut seat, 100);
    expect(
        &rt,
        hear(&rt, alloc, &desk, &mut seat, Before::Opened)?,
        "what the desk heard before",
    );
    let sent = nothing(alloc, 2)?;
    let half = Half::new(alloc)?;
    let (shared, links, half, bells) = (&desk, &sent, &half, &bells);
    let (read, ()) = thread::join(
        &rt,
        || -> Result<(SliceEnd, u64), AllocError>
            requires { IsSeatOf shared.now reader }
        { read_links(&rt, alloc, shared, reader, links, half, bells) },
        || -> ()
            requires { IsSeatOf shared.now writer }
        { write_links(&rt, alloc, shared, writer, half, bells) },
    );
    let ended = read?;
    expect(
        &rt,
        ended == (SliceEnd::GaveUp, 1_000),
        "how the reader ended",
    );
    let wanted = bytes(alloc, &[TO_DISMISSED])?;
    for told in &sent {
        let told = told.so_far(&rt, alloc)?;
        expect(&rt, told.as_slice() == wanted.as_slice(), "what was sent");
    }
    Ok(())
}
