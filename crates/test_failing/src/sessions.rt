ghost use Rattle.std.specs.Arc.{arc_value};
ghost use Rattle.turn_desk.specs.Seats.{IsSeatOf, SameDesk};

use crate::gate::Hold;
use crate::notes::{Mark, Notes};
use crate::session_threads::{End, Job, Part, Session};
use crate::sinks::{Watched, link};
use expectations::{expect, expect_eq};
use fv_live::{Host, Links, MemoryDialer, MemorySource};
use live_samples::devices::{
    ALICE, BOB, Device, GREETING, IN, Long, NOTHING, OUT, SWITCH, Stream, TO_22, TO_80, Told,
    UNANSWERED, told_to_all,
};
use live_samples::{FEATURES, LANE, Sent, nothing};
use live_session::{DeskObject, ReaderEnd, Side, SliceEnd, WriterEnd};
use std::alloc::{AllocError, Global};
use std::net::{Net, TcpListener, TcpStream};
use std::sync::{Arc, Wait};
use std::test::Fail;
use std::thread;
use turn_desk::TurnSeat;

/// A switch and the controllers of alice and bob; which messages are held back, whether the gate may wait,
/// and what raises the flag on which a sink that stands still waits. Also what comes before what, and how the
/// threads end: reader and writer of the switch, of alice and of bob.
struct Case {
    devices: [Device; 3],
    holds: &'static [Hold],
    may_wait: bool,
    raised_by: Mark,
    order: Option<(Mark, Mark)>,
    ends: [End; 6],
}

const ALICES: Side = Side::Slice(0);

const BOBS: Side = Side::Slice(1);

const ECHO: Long = Long {
    kind: 2,
    body: &[],
    count: 65,
};

const MORE_THAN_MAY_WAIT: Long = Long { count: 40, ..OUT };

/// The switch was sent what it is to be sent, and the readers of both slices have ended.
const SLICES_ARE_OVER: &[Mark] = &[
    Mark::Sent(Side::Switch),
    Mark::Read(ALICES),
    Mark::Read(BOBS),
];

/// The switch's reader and the writers of both slices have ended.
const ALL_IS_OVER: &[Mark] = &[
    Mark::Read(Side::Switch),
    Mark::Wrote(ALICES),
    Mark::Wrote(BOBS),
];

/// The third take from the switch fails, after a packet for each slice.
const SOURCE_FAILS: Case = Case {
    devices: [
        Device {
            says: Stream {
                first: &[FEATURES, IN, TO_80, IN, TO_22],
                last: UNANSWERED,
                ..NOTHING
            },
            most: 224,
            takes: &[2],
            ..SWITCH
        },
        Device {
            sent: Stream {
                first: GREETING,
                last: &["0103000800000001", IN, TO_80],
                ..NOTHING
            },
            free: 0,
            ..ALICE
        },
        Device {
            sent: Stream {
                first: GREETING,
                last: &["010300080000000b", IN, TO_22],
                ..NOTHING
            },
            free: 0,
            ..BOB
        },
    ],
    holds: &[
        (
            Side::Switch,
            1,
            &[
                Mark::Sent(Side::Switch),
                Mark::Standing(ALICES),
                Mark::Standing(BOBS),
                Mark::AtGate(ALICES, 1),
                Mark::AtGate(BOBS, 1),
            ],
        ),
        (ALICES, 1, ALL_IS_OVER),
        (BOBS, 1, ALL_IS_OVER),
    ],
    may_wait: true,
    raised_by: Mark::Read(Side::Switch),
    order: None,
    ends: [
        End::Switch(ReaderEnd::ReadFault, 6),
        End::Writer(WriterEnd::Ended),
        End::Slice(SliceEnd::DeskEnded),
        End::Writer(WriterEnd::Ended),
        End::Slice(SliceEnd::DeskEnded),
        End::Writer(WriterEnd::Ended),
    ],
};

/// The second put to alice fails. Bob asks after that, and is answered.
const SINK_FAILS: Case = Case {
    devices: [
        SWITCH,
        Device {
            sent: Stream {
                first: GREETING,
                ..NOTHING
            },
            waited_for: 8,
            puts: &[1],
            ..ALICE
        },
        BOB,
    ],
    holds: &[
        (ALICES, 0, &[Mark::Sent(ALICES)]),
        (ALICES, 1, &[Mark::Wrote(ALICES)]),
        (BOBS, 0, &[Mark::Wrote(ALICES)]),
        (BOBS, 1, &[Mark::Sent(BOBS)]),
        (Side::Switch, 1, SLICES_ARE_OVER),
    ],
    may_wait: true,
    raised_by: Mark::AtGate(ALICES, 1),
    order: None,
    ends: [
        End::Switch(ReaderEnd::Closed, 4),
        End::Writer(WriterEnd::Ended),
        End::Slice(SliceEnd::GaveUp),
        End::Writer(WriterEnd::WriteFault),
        End::Slice(SliceEnd::GaveUp),
        End::Writer(WriterEnd::Ended),
    ],
};

/// Alice doesn't take her greeting while she asks 65 long questions. Bob asks after her writer has ended, and is answered.
const SLICE_IS_CHOKED: Case = Case {
    devices: [
        SWITCH,
        Device {
            says: Stream {
                long: ECHO,
                last: UNANSWERED,
                ..NOTHING
            },
            sent: Stream {
                first: GREETING,
                long: Long {
                    kind: 3,
                    count: 64,
                    ..ECHO
                },
                ..NOTHING
            },
            free: 0,
            ..ALICE
        },
        BOB,
    ],
    holds: &[
        (ALICES, 0, &[Mark::Standing(ALICES)]),
        (ALICES, 65, &[Mark::Wrote(ALICES)]),
        (BOBS, 0, &[Mark::Wrote(ALICES)]),
        (BOBS, 1, &[Mark::Sent(BOBS)]),
        (Side::Switch, 1, SLICES_ARE_OVER),
    ],
    may_wait: true,
    raised_by: Mark::AtGate(ALICES, 65),
    order: None,
    ends: [
        End::Switch(ReaderEnd::Closed, 4),
        End::Writer(WriterEnd::Ended),
        End::Slice(SliceEnd::GaveUp),
        End::Writer(WriterEnd::Choked),
        End::Slice(SliceEnd::GaveUp),
        End::Writer(WriterEnd::Ended),
    ],
};

/// The switch doesn't take the first of 18 long packets that alice sends out.
const LANE_IS_CHOKED: Case = Case {
    devices: [
        Device {
            sent: Stream {
                first: &LANE,
                long: Long { count: 17, ..OUT },
                ..NOTHING
            },
            free: 108,
            ..SWITCH
        },
        Device {
            says: Stream {
                long: OUT,
                last: UNANSWERED,
                ..NOTHING
            },
            sent: Stream {
                first: GREETING,
                ..NOTHING
            },
            ..ALICE
        },
        BOB,
    ],
    holds: &[
        (ALICES, 0, &[Mark::Sent(Side::Switch)]),
        (ALICES, 1, &[Mark::Standing(Side::Switch)]),
        (
            ALICES,
            18,
            &[Mark::Wrote(Side::Switch), Mark::Read(Side::Switch)],
        ),
        (
            Side::Switch,
            1,
            &[Mark::Wrote(Side::Switch), Mark::Sent(BOBS)],
        ),
        (BOBS, 1, &[Mark::Read(Side::Switch)]),
    ],
    may_wait: true,
    raised_by: Mark::AtGate(ALICES, 18),
    order: None,
    ends: [
        End::Switch(ReaderEnd::Closed, 4),
        End::Writer(WriterEnd::Choked),
        End::Slice(SliceEnd::DeskEnded),
        End::Writer(WriterEnd::Ended),
        End::Slice(SliceEnd::DeskEnded),
        End::Writer(WriterEnd::Ended),
    ],
};

/// The switch takes nothing for a while, and alice has more for it than may wait: her reader waits for room, and bob,
/// who has nothing for it, is heard meanwhile. Without the wait the lane would be choked.
const LANE_IS_FULL: Case = Case {
    devices: [
        Device {
            sent: Stream {
                first: &LANE,
                long: MORE_THAN_MAY_WAIT,
                ..NOTHING
            },
            most: 224,
            waited_for: 2_621_508,
            free: 108,
            ..SWITCH
        },
        Device {
            says: Stream {
                long: MORE_THAN_MAY_WAIT,
                last: UNANSWERED,
                ..NOTHING
            },
            sent: Stream {
                first: GREETING,
                ..NOTHING
            },
            waited_for: 8,
            ..ALICE
        },
        Device { most: 8, ..BOB },
    ],
    holds: &[
        (ALICES, 0, &[Mark::Sent(ALICES)]),
        (
            BOBS,
            0,
            &[Mark::AtGate(ALICES, 9), Mark::Standing(Side::Switch)],
        ),
        (BOBS, 1, &[Mark::Sent(BOBS)]),
        (Side::Switch, 1, SLICES_ARE_OVER),
    ],
    may_wait: false,
    raised_by: Mark::AtGate(BOBS, 1),
    order: Some((Mark::AtGate(BOBS, 1), Mark::AtGate(ALICES, 12))),
    ends: [
        End::Switch(ReaderEnd::Closed, 4),
        End::Writer(WriterEnd::Ended),
        End::Slice(SliceEnd::GaveUp),
        End::Writer(WriterEnd::Ended),
        End::Slice(SliceEnd::GaveUp),
        End::Writer(WriterEnd::Ended),
    ],
};

type Dials<R> = MemoryDialer<MemorySource, Watched<R>>;

// The jobs of a reader and of its writer.
type Pair<R> = (Job<Dials<R>>, Job<Dials<R>>);

fn switch_pair<R: Wait + Copy>(
    rt: R,
    alloc: Global,
    notes: &Arc<Notes, Global>,
    device: &Device,
    sent: &Sent,
) -> Result<Pair<R>, AllocError> {
    let sink = Watched::new(rt, alloc, notes, Side::Switch, device, sent)?;
    let source = device.source(alloc)?;
    Ok((Job::ReadSwitch(source), Job::WriteSwitch(sink)))
}

// Those of a slice, with what gives its one link.
fn slice_pair<R: Wait + Copy>(
    rt: R,
    alloc: Global,
    notes: &Arc<Notes, Global>,
    slot: u8,
    device: &Device,
    sent: &Sent,
) -> Result<Pair<R>, AllocError> {
    let mut links = Vec::new(alloc);
    links.push(link(rt, alloc, notes, slot, device, sent)?)?;
    let links = Arc::new(alloc, Links::new(links, Vec::new(alloc)))?;
    let dialer = MemoryDialer::new(alloc, Some(links));
    Ok((Job::ReadSlice(slot, dialer), Job::WriteSlice(slot)))
}

// Adds the bodies of the threads of these.
fn add<R: Wait + Copy>(
    parts: &mut Vec<Part<Dials<R>>>,
    session: &Arc<Session<Watched<R>>, Global>,
    seat: &mut TurnSeat<DeskObject>,
    pair: Pair<R>,
) -> Result<(), AllocError>
    requires desk { IsSeatOf (arc_value session.now).desk seat.old }
    ensures desk { SameDesk seat.new seat.old }
{
    let (reader, writer) = pair;
    parts.push(Part::new(session, seat, reader)?)?;
    parts.push(Part::new(session, seat, writer)?)?;
    Ok(())
}

// The bodies of the six threads.
fn parts<R: Wait + Copy>(
    rt: R,
    alloc: Global,
    notes: &Arc<Notes, Global>,
    case: &Case,
    sent: &[Sent],
) -> Result<Vec<Part<Dials<R>>>, AllocError> {
    let [switch, alice, bob] = &case.devices;
    let [to_switch, to_alice, to_bob] = sent else {
        return Err(AllocError);
    };
    let switch = switch_pair(rt, alloc, notes, switch, to_switch)?;
    let alice = slice_pair(rt, alloc, notes, 0, alice, to_alice)?;
    let bob = slice_pair(rt, alloc, notes, 1, bob, to_bob)?;
    let (session, mut seat) = Session::new(alloc, notes, case.holds, case.may_wait)?;
    let mut parts = Vec::new(alloc);
    add(&mut parts, &session, &mut seat, switch)?;
    add(&mut parts, &session, &mut seat, alice)?;
    add(&mut parts, &session, &mut seat, bob)?;
    Ok(parts)
}

// Runs these on threads, and answers how they ended.
fn ends<R: Host + Net<Listener = TcpListener, Stream = TcpStream> + Send + 'static>(
    rt: R,
    alloc: Global,
    parts: Vec<Part<Dials<R>>>,
) -> Result<Vec<End>, AllocError> {
    let mut threads = Vec::with_capacity(alloc, parts.len())?;
    for part in parts {
        threads.push(thread::spawn(&rt, move || part.run(&rt))?)?;
    }
    let mut ends = Vec::with_capacity(alloc, threads.len())?;
    for thread in threads {
        ends.push(thread.join(&rt))?;
    }
    Ok(ends)
}

/// How the threads of a case ended, how much was sent, and whether what came is right and in its order.
#[derive(Drop)]
struct Outcome {
    ends: Vec<End>,
    told: [Told; 3],
    is_right: bool,
}

// What comes of a case.
fn come_of<R: Host + Net<Listener = TcpListener, Stream = TcpStream> + Send + 'static>(
    rt: R,
    alloc: Global,
    case: &Case,
) -> Result<Outcome, AllocError> {
    let notes = Notes::new(alloc, case.raised_by)?;
    let sent = nothing(alloc, 3)?;
    let ends = ends(rt, alloc, parts(rt, alloc, &notes, case, &sent)?)?;
    let told = told_to_all(&rt, alloc, &case.devices, &sent)?;
    let is_ordered = match case.order {
        Some((first, second)) => notes.has_first(&rt, first, second),
        None => true,
    };
    Ok(Outcome {
        ends,
        told,
        is_right: is_ordered && notes.is_right(&rt),
    })
}

// Runs a case, and compares what comes of it.
fn run<R: Host + Net<Listener = TcpListener, Stream = TcpStream> + Send + 'static>(
    rt: R,
    alloc: Global,
    case: &Case,
) -> Result<(), Fail> {
    let outcome = come_of(rt, alloc, case)?;
    expect_eq!(outcome.ends.as_slice(), case.ends.as_slice(), "ends");
    expect_eq!(outcome.told, [Told::All; 3], "sent");
    expect!(outcome.is_right, "what came");
    Ok(())
}

#[test]
fn what_waits_for_slices_is_written_where_the_source_fails(rt: HostRuntime) -> Result<(), Fail> {
    run(rt, rt.alloc(), &SOURCE_FAILS)
}

#[test]
fn slice_whose_sink_fails_loses_its_own_link_alone(rt: HostRuntime) -> Result<(), Fail> {
    run(rt, rt.alloc(), &SINK_FAILS)
}

#[test]
fn slice_that_takes_nothing_loses_its_own_link_alone(rt: HostRuntime) -> Result<(), Fail> {
    run(rt, rt.alloc(), &SLICE_IS_CHOKED)
}

#[test]
fn switch_that_takes_nothing_ends_its_session(rt: HostRuntime) -> Result<(), Fail> {
    run(rt, rt.alloc(), &LANE_IS_CHOKED)
}

#[test]
fn slice_waits_while_the_lane_is_full(rt: HostRuntime) -> Result<(), Fail> {
    run(rt, rt.alloc(), &LANE_IS_FULL)
}
