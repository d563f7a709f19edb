ghost use Rattle.std.specs.Prelude.{◌≡◌, ◌+◌, min};
ghost use Rattle.std.specs.Arc.{arc_value};
ghost use Rattle.turn_desk.specs.Seats.{IsSeatOf, SameDesk};

use crate::connection::Connection;
use fv_live::{Clock, Dialer, Host, NeverSource, Wires, Work};
use live_session::{
    DeskObject, Dest, Gate, ReaderEnd, Side, SliceEnd, run_reader, run_slice, run_writer, tell_end,
};
use std::alloc::Global;
use std::net::{Net, TcpListener, TcpStream};
use std::sync::{Arc, Wait};
use std::thread;
use std::time::Duration;
use turn_desk::{TurnDesk, TurnSeat};

/// The wait before another attempt to end a switch for which there was no memory, in milliseconds.
const WAIT_FOR_MEMORY: u64 = 10;

/// What the reader of a slice's links works with. `address` is where its controller listens.
#[derive(Drop)]
pub(crate) struct SliceReader<D: Dialer, C: Clock, G: Gate> {
    pub(crate) slot: u8,
    pub(crate) address: String,
    pub(crate) dialer: D,
    pub(crate) clock: C,
    pub(crate) gate: G,
}

/// What a thread does.
#[derive(Drop)]
pub(crate) enum Job<D: Dialer, C: Clock, G: Gate> {
    ReadSwitch(C, G),
    WriteSwitch,
    ReadSlice(SliceReader<D, C, G>),
    WriteSlice(u8),
}

/// The body of one thread of a session: it reads or writes the switch's connection, or the links of a slice.
#[derive(Drop)]
pub struct SessionWork<N: Wires, C: Clock, G: Gate> {
    pub(crate) connection: Arc<Connection<N>, Global>,
    pub(crate) seat: TurnSeat<DeskObject>,
    pub(crate) job: Job<N::Dial, C, G>,
    ghost same: { IsSeatOf (arc_value connection).desk seat },
}

impl<N: Wires, C: Clock, G: Gate> Work for SessionWork<N, C, G> {
    ghost use Rattle.live_serve.specs.Roles.{role_of};

    ghost role = { λ work. role_of work.job };

    fn run<R: Host + Net<Listener = TcpListener, Stream = TcpStream>>(self, rt: &R) {
        let SessionWork {
            connection,
            mut seat,
            job,
        } = self;
        let shared = &*connection;
        if !shared.is_started(rt) {
            return;
        }
        match job {
            Job::ReadSwitch(mut clock, gate) => {
                read_from_switch(rt, shared, &mut seat, &mut clock, &gate);
                shared.end_of_switch(rt);
            }
            Job::WriteSwitch => {
                write_switch(rt, shared, &mut seat);
                shared.end_of_switch(rt);
            }
            Job::ReadSlice(reader) => read_links(rt, shared, &mut seat, reader),
            Job::WriteSlice(slot) => write_links(rt, shared, &mut seat, slot),
        }
        shared.end_work(rt);
    }
}

fn read_from_switch<
    R: Host + Net<Listener = TcpListener, Stream = TcpStream>,
    N: Wires,
    C: Clock,
    G: Gate,
>(rt: &R, shared: &Connection<N>, seat: &mut TurnSeat<DeskObject>, clock: &mut C, gate: &G)
    requires desk { IsSeatOf shared.now.desk seat.old }
{
    let Some(mut source) = shared.take_source(rt) else {
        return;
    };
    let mut kept = keep_call(&shared.desk, seat);
    let mut end = run_reader(
        rt,
        shared.alloc,
        &shared.desk,
        seat,
        &mut source,
        Side::Switch,
        clock,
        gate,
        &shared.bells,
    );
    if end == ReaderEnd::Memory {
        end = end_switch(rt, shared, seat, clock, gate);
    }
    if end == ReaderEnd::Spent {
        let _told = tell_end(
            rt,
            &shared.desk,
            &mut kept,
            Side::Switch,
            clock,
            &shared.bells,
        );
    }
}

// One call of a reader's, where it has one: by it the desk is asked for the down once the others are spent.
fn keep_call(desk: &TurnDesk<DeskObject>, seat: &mut TurnSeat<DeskObject>) -> TurnSeat<DeskObject>
    requires desk { IsSeatOf desk.now seat.old }
    ensures desk { SameDesk seat.new seat.old × SameDesk result seat.old }
    ensures kept { result.left ≡ min seat.old.left 1 }
    ensures rest { seat.new.left + result.left ≡ seat.old.left }
{
    let calls = seat.left().min(1);
    desk.split(seat, calls)
}

// Where there was no memory for the first event, the desk knows of no switch that could end, and others would wait
// for ever: one comes and ends, as soon as there is memory for that.
fn end_switch<
    R: Host + Net<Listener = TcpListener, Stream = TcpStream>,
    N: Wires,
    C: Clock,
    G: Gate,
>(
    rt: &R,
    shared: &Connection<N>,
    seat: &mut TurnSeat<DeskObject>,
    clock: &mut C,
    gate: &G,
) -> ReaderEnd
    requires desk { IsSeatOf shared.now.desk seat.old }
{
    for _ in rt.forever() {
        let end = run_reader(
            rt,
            shared.alloc,
            &shared.desk,
            seat,
            &mut NeverSource,
            Side::Switch,
            clock,
            gate,
            &shared.bells,
        );
        if end != ReaderEnd::Memory {
            return end;
        }
        thread::sleep(rt, Duration::from_millis(WAIT_FOR_MEMORY));
    }
    unreachable!()
}

fn write_switch<R: Wait, N: Wires>(rt: &R, shared: &Connection<N>, seat: &mut TurnSeat<DeskObject>)
    requires desk { IsSeatOf shared.now.desk seat.old }
{
    let Some(mut sink) = shared.take_sink(rt) else {
        return;
    };
    let _end = run_writer(
        rt,
        shared.alloc,
        &shared.desk,
        seat,
        &mut sink,
        Dest::Switch,
        &shared.bells,
    );
}

fn read_links<
    R: Host + Net<Listener = TcpListener, Stream = TcpStream>,
    N: Wires,
    C: Clock,
    G: Gate,
>(
    rt: &R,
    shared: &Connection<N>,
    seat: &mut TurnSeat<DeskObject>,
    reader: SliceReader<N::Dial, C, G>,
)
    requires desk { IsSeatOf shared.now.desk seat.old }
{
    let SliceReader {
        slot,
        address,
        mut dialer,
        mut clock,
        gate,
    } = reader;
    let Some(half) = shared.links.get(usize::from(slot)) else {
        return;
    };
    let mut kept = keep_call(&shared.desk, seat);
    let end = run_slice(
        rt,
        shared.alloc,
        &shared.desk,
        seat,
        &mut dialer,
        &address,
        slot,
        &mut clock,
        &gate,
        half,
        &shared.bells,
    );
    if end == SliceEnd::Spent {
        let _told = tell_end(
            rt,
            &shared.desk,
            &mut kept,
            Side::Slice(slot),
            &mut clock,
            &shared.bells,
        );
    }
}

// Each link's half is dropped before the next link is asked for.
fn write_links<R: Wait, N: Wires>(
    rt: &R,
    shared: &Connection<N>,
    seat: &mut TurnSeat<DeskObject>,
    slot: u8,
)
    requires desk { IsSeatOf shared.now.desk seat.old }
{
    let Some(half) = shared.links.get(usize::from(slot)) else {
        return;
    };
    for _ in rt.forever() {
        let Some(mut sink) = half.take(rt) else {
            return;
        };
        let _end = run_writer(
            rt,
            shared.alloc,
            &shared.desk,
            seat,
            &mut sink,
            Dest::Slice(slot),
            &shared.bells,
        );
        drop(sink);
        half.end(rt);
    }
}
