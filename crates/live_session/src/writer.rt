ghost use Rattle.std.specs.Prelude.{◌≡◌, ◌<◌, ◌+◌, ℕ, List, ◌++◌, [], ◌∷◌, Option, IfOk, IfErr, OnOk, OnErr, IfSome, IfNone, length};
ghost use Rattle.fv_base.specs.Told.{Rose, appended, IsBeginning};
ghost use Rattle.turn_desk.specs.Seats.{IsSeatOf, SameDesk, view};
ghost use Rattle.live_session.specs.declared.ends.WriterEnd.TheVariants.{WriteFault};
ghost use Rattle.live_session.specs.Takings.{TookOne, Gathers, Written, in_hand};

use crate::bells::Bells;
use crate::ends::WriterEnd;
use crate::joined::append;
use fv_base::{Failed, Sink, put_all};
use live_desk::{DeskObject, DeskOp, DeskReply, Dest, Taken, place_of};
use of10_ctl::Frame;
use std::alloc::Global;
use std::sync::Wait;
use turn_desk::{Spent, TurnDesk, TurnSeat};

/// How many bytes of more than one message are put at once.
const PIECE: usize = 65_536;

/// How many takes are made while others wait for their turn.
const TAKES: u32 = 1000;

/// One take.
pub(crate) fn take<R: Wait>(
    rt: &R,
    desk: &TurnDesk<DeskObject>,
    seat: &mut TurnSeat<DeskObject>,
    dest: Dest,
) -> Result<Taken, Spent>
    requires desk { IsSeatOf desk.now seat.old }
    ensures desk { SameDesk seat.new seat.old }
    ensures took { IfOk result (λ taken. TookOne dest (view seat.old) seat.old.left taken (view seat.new) seat.new.left) }
    ensures spent { OnErr result (seat.old.left ≡ 0) }
    ensures same { OnErr result (seat.new ≡ seat.old) }
{
    match desk.submit(rt, seat, DeskOp::Take(dest)) {
        Ok(DeskReply::Took(taken)) => Ok(taken),
        Ok(DeskReply::Stepped(_)) => unreachable!(),
        Err(spent) => Err(spent),
    }
}

/// Why no more is taken for now.
#[derive(Drop)]
pub(crate) enum Pause {
    /// Others are to have their turn.
    Room,
    /// A message that doesn't fit beside the others.
    Hand(Frame),
    /// Nothing waits.
    Nothing,
    /// Nothing will come.
    Over(WriterEnd),
}

/// Takes messages until no more fit into the buffer. Nobody else asks the desk meanwhile.
fn gather<R: Wait>(
    rt: &R,
    desk: &TurnDesk<DeskObject>,
    seat: &mut TurnSeat<DeskObject>,
    dest: Dest,
    bells: &Bells,
    buffer: &mut Vec<u8>,
) -> Pause
    requires desk { IsSeatOf desk.now seat.old }
    ensures desk { SameDesk seat.new seat.old }
    ensures gathered { Gathers dest (view seat.old) seat.old.left buffer.old.items result (view seat.new) seat.new.left buffer.new.items }
{
    let hold = bells.hold(rt);
    for _ in 0..TAKES {
        match take(rt, desk, seat, dest) {
            Ok(Taken::Message(frame)) => {
                if !append(buffer, frame.as_slice()) {
                    drop(hold);
                    return Pause::Hand(frame);
                }
            }
            Ok(Taken::Nothing) => {
                drop(hold);
                return Pause::Nothing;
            }
            Ok(Taken::NotOpen) => {
                drop(hold);
                return Pause::Nothing;
            }
            Ok(Taken::Choked) => {
                drop(hold);
                return Pause::Over(WriterEnd::Choked);
            }
            Ok(Taken::Ended) => {
                drop(hold);
                return Pause::Over(WriterEnd::Ended);
            }
            Err(_) => {
                drop(hold);
                return Pause::Over(WriterEnd::Spent);
            }
        }
    }
    drop(hold);
    Pause::Room
}

/// Puts what the buffer holds, and then the message in hand.
fn put_out<K: Sink>(sink: &mut K, buffer: &mut Vec<u8>, pause: &Pause) -> Result<(), Failed>
    ensures all { OnOk result (K.contents sink.new ≡ appended (K.contents sink.old) (buffer.old.items ++ in_hand pause.now)) }
    ensures empty { OnOk result (buffer.new.items ≡ []) }
    ensures part { OnErr result ((piece : List ℕ) × IsBeginning piece (buffer.old.items ++ in_hand pause.now) × (K.contents sink.new ≡ appended (K.contents sink.old) piece)) }
    ensures cause { OnErr result (Rose (K.faults sink.old) (K.faults sink.new)) }
    ensures calm { OnOk result (K.faults sink.new ≡ K.faults sink.old) }
{
    put_all(sink, buffer)?;
    buffer.clear();
    if let Pause::Hand(frame) = pause {
        put_all(sink, frame.as_slice())?;
    }
    Ok(())
}

/// Writes what is taken, until it ends.
fn write_on<R: Wait, K: Sink>(
    rt: &R,
    desk: &TurnDesk<DeskObject>,
    seat: &mut TurnSeat<DeskObject>,
    sink: &mut K,
    dest: Dest,
    bells: &Bells,
    buffer: &mut Vec<u8>,
) -> WriterEnd
    requires desk { IsSeatOf desk.now seat.old }
    requires empty { buffer.old.items ≡ [] }
    ensures desk { SameDesk seat.new seat.old }
    ensures written { Written dest (view seat.old) seat.old.left (K.contents sink.old) result (K.contents sink.new) (view seat.new) seat.new.left }
    ensures fault { result ≡ WriteFault → Rose (K.faults sink.old) (K.faults sink.new) }
{
    let at = place_of(dest);
    let mut seen = bells.rings(rt, at);
    let mut lying = false;
    for _ in rt.forever() {
        let pause = gather(rt, desk, seat, dest, bells, buffer);
        bells.took(rt, at);
        let Ok(()) = put_out(sink, buffer, &pause) else {
            return WriterEnd::WriteFault;
        };
        if let Pause::Over(end) = &pause {
            return *end;
        }
        let idle = matches!(&pause, Pause::Nothing);
        (lying, seen) = rest(rt, bells, at, idle, lying, seen);
    }
    unreachable!()
}

/// Where nothing waits: lies down, and when nothing came since then sleeps.
fn rest<R: Wait>(
    rt: &R,
    bells: &Bells,
    at: usize,
    idle: bool,
    lying: bool,
    seen: u64,
) -> (bool, u64) {
    if !idle {
        return (false, seen);
    }
    if !lying {
        bells.lie_down(at);
        return (true, seen);
    }
    bells.sleep(rt, at, seen);
    (false, bells.rings(rt, at))
}

/// Writes one connection: takes the messages that the desk has for it, and puts them in their order, as many at
/// once as fit into 64 KiB. Without memory for that, each is put by itself. Of the calls for one destination the
/// k-th takes nothing before the k-th up was answered.
pub fn run_writer<R: Wait, K: Sink>(
    rt: &R,
    alloc: Global,
    desk: &TurnDesk<DeskObject>,
    seat: &mut TurnSeat<DeskObject>,
    sink: &mut K,
    dest: Dest,
    bells: &Bells,
) -> WriterEnd
    requires desk { IsSeatOf desk.now seat.old }
    ensures desk { SameDesk seat.new seat.old }
    ensures written { Written dest (view seat.old) seat.old.left (K.contents sink.old) result (K.contents sink.new) (view seat.new) seat.new.left }
    ensures fault { result ≡ WriteFault → Rose (K.faults sink.old) (K.faults sink.new) }
{
    bells.begin_writer(rt, place_of(dest));
    let mut buffer = room(alloc);
    write_on(rt, desk, seat, sink, dest, bells, &mut buffer)
}

/// An empty buffer, with room where there is memory.
fn room(alloc: Global) -> Vec<u8>
    ensures { result.items ≡ [] }
{
    match Vec::with_capacity(alloc, PIECE) {
        Ok(buffer) => buffer,
        Err(_) => Vec::new(alloc),
    }
}
