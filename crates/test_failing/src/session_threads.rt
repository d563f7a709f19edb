//! The threads of one switch's session, whose ends are reported.

ghost use Rattle.std.specs.Prelude.{IfOk};
ghost use Rattle.std.specs.Arc.{arc_value};
ghost use Rattle.turn_desk.specs.Seats.{IsSeatOf, SameDesk};

use crate::gate::{Hold, Holding};
use crate::notes::{Mark, Notes};
use crate::sinks::address;
use fv_base::Sink;
use fv_live::{Dialer, Host, MemorySource};
use live_samples::{Still, desk};
use live_session::{
    Bells, DeskObject, Dest, Half, ReaderEnd, Side, SliceEnd, WriterEnd, run_reader, run_slice,
    run_writer,
};
use std::alloc::{AllocError, Global};
use std::net::{Net, TcpListener, TcpStream};
use std::sync::{Arc, Wait};
use turn_desk::{TurnDesk, TurnSeat};

/// How many calls the seat of a thread has.
const CALLS: u64 = 100_000;

/// How a thread ended.
#[derive(Clone, Copy, Debug, PartialEq, Eq)]
pub enum End {
    /// The switch's reader, after so many calls of its seat.
    Switch(ReaderEnd, u64),
    /// The reader of a slice.
    Slice(SliceEnd),
    Writer(WriterEnd),
    /// There was no connection to write.
    NoLink,
}

/// What the threads share: the desk, bells, a gate, a place for the writing half of alice's link and one for that of
/// bob's, and what came.
#[derive(Drop)]
pub struct Session<K: Sink> {
    alloc: Global,
    desk: TurnDesk<DeskObject>,
    bells: Bells,
    gate: Holding,
    alice: Half<K>,
    bob: Half<K>,
    notes: Arc<Notes, Global>,
}

impl<K: Sink> Session<K> {
    /// A session in which nothing came and these messages are held, and the first seat of its desk. Its gate says
    /// whether it may wait.
    pub fn new(
        alloc: Global,
        notes: &Arc<Notes, Global>,
        holds: &'static [Hold],
        may_wait: bool,
    ) -> Result<(Arc<Session<K>, Global>, TurnSeat<DeskObject>), AllocError>
        ensures seat { IfOk result (λ made. IsSeatOf (arc_value made.0).desk made.1) }
    {
        let (desk, seat, bells) = desk(alloc)?;
        let session = Session {
            alloc,
            desk,
            bells,
            gate: Holding::new(notes, holds, may_wait)?,
            alice: Half::new(alloc)?,
            bob: Half::new(alloc)?,
            notes: Arc::try_clone(notes)?,
        };
        Ok((Arc::new(alloc, session)?, seat))
    }

    fn link(&self, slot: u8) -> &Half<K> {
        if slot == 0 { &self.alice } else { &self.bob }
    }
}

/// What a thread does.
#[derive(Drop)]
pub enum Job<D: Dialer> {
    ReadSwitch(MemorySource),
    WriteSwitch(D::Out),
    ReadSlice(u8, D),
    WriteSlice(u8),
}

/// The body of a thread.
#[derive(Drop)]
pub struct Part<D: Dialer> {
    session: Arc<Session<D::Out>, Global>,
    seat: TurnSeat<DeskObject>,
    job: Job<D>,
    ghost same: { IsSeatOf (arc_value session).desk seat },
}

impl<D: Dialer> Part<D> {
    /// The body of a thread that does this, with a seat of its own.
    pub fn new(
        session: &Arc<Session<D::Out>, Global>,
        seat: &mut TurnSeat<DeskObject>,
        job: Job<D>,
    ) -> Result<Part<D>, AllocError>
        requires desk { IsSeatOf (arc_value session.now).desk seat.old }
        ensures desk { SameDesk seat.new seat.old }
    {
        if seat.left() < CALLS {
            return Err(AllocError);
        }
        let theirs = Arc::try_clone(session)?;
        let own = session.desk.split(seat, CALLS);
        Ok(Part {
            session: theirs,
            seat: own,
            job,
        })
    }

    /// Runs to its end.
    pub fn run<R: Host + Net<Listener = TcpListener, Stream = TcpStream>>(self, rt: &R) -> End {
        let Part {
            session,
            mut seat,
            job,
        } = self;
        let shared = &*session;
        match job {
            Job::ReadSwitch(source) => read_switch(rt, shared, &mut seat, source),
            Job::WriteSwitch(sink) => write(rt, shared, &mut seat, sink, Side::Switch),
            Job::ReadSlice(slot, dialer) => read_slice(rt, shared, &mut seat, dialer, slot),
            Job::WriteSlice(slot) => write_slice(rt, shared, &mut seat, slot),
        }
    }
}

fn read_switch<R: Host + Net<Listener = TcpListener, Stream = TcpStream>, K: Sink>(
    rt: &R,
    session: &Session<K>,
    seat: &mut TurnSeat<DeskObject>,
    source: MemorySource,
) -> End
    requires desk { IsSeatOf session.now.desk seat.old }
{
    let mut source = source;
    let before = seat.left();
    let end = run_reader(
        rt,
        session.alloc,
        &session.desk,
        seat,
        &mut source,
        Side::Switch,
        &mut Still,
        &session.gate,
        &session.bells,
    );
    session.notes.note(rt, Mark::Read(Side::Switch));
    End::Switch(end, before.saturating_sub(seat.left()))
}

fn read_slice<R: Host + Net<Listener = TcpListener, Stream = TcpStream>, D: Dialer>(
    rt: &R,
    session: &Session<D::Out>,
    seat: &mut TurnSeat<DeskObject>,
    dialer: D,
    slot: u8,
) -> End
    requires desk { IsSeatOf session.now.desk seat.old }
{
    let mut dialer = dialer;
    let end = run_slice(
        rt,
        session.alloc,
        &session.desk,
        seat,
        &mut dialer,
        address(slot),
        slot,
        &mut Still,
        &session.gate,
        session.link(slot),
        &session.bells,
    );
    session.notes.note(rt, Mark::Read(Side::Slice(slot)));
    End::Slice(end)
}

fn dest(side: Side) -> Dest {
    match side {
        Side::Switch => Dest::Switch,
        Side::Slice(slot) => Dest::Slice(slot),
    }
}

fn write<R: Wait, K: Sink>(
    rt: &R,
    session: &Session<K>,
    seat: &mut TurnSeat<DeskObject>,
    sink: K,
    side: Side,
) -> End
    requires desk { IsSeatOf session.now.desk seat.old }
{
    let mut sink = sink;
    let end = run_writer(
        rt,
        session.alloc,
        &session.desk,
        seat,
        &mut sink,
        dest(side),
        &session.bells,
    );
    session.notes.note(rt, Mark::Wrote(side));
    End::Writer(end)
}

// There is one link at most.
fn write_slice<R: Wait, K: Sink>(
    rt: &R,
    session: &Session<K>,
    seat: &mut TurnSeat<DeskObject>,
    slot: u8,
) -> End
    requires desk { IsSeatOf session.now.desk seat.old }
{
    let link = session.link(slot);
    let Some(sink) = link.take(rt) else {
        return End::NoLink;
    };
    let end = write(rt, session, seat, sink, Side::Slice(slot));
    link.end(rt);
    end
}
