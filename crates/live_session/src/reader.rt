ghost use Rattle.std.specs.Prelude.{◌≡◌, ◌<◌, ◌+◌, ℕ, List, ◌++◌, [], Option, IsTrue, IfOk, IfErr, OnOk, OnErr, IfSome, IfNone, length};
ghost use Rattle.fv_base.specs.Told.{Rose};
ghost use Rattle.fv_live.specs.Live.{IsUsedUp};
ghost use Rattle.of10_ctl.specs.Streams.{Stands, AreFirst, frames_of};
ghost use Rattle.slice_words.specs.Messages.{is_question};
ghost use Rattle.desk_words.specs.declared.event.Event.TheVariants.{SliceMsg};
ghost use Rattle.live_desk.specs.declared.object.DeskReply.TheVariants.{Stepped};
ghost use Rattle.live_session.specs.declared.ends.ReaderEnd.TheVariants.{Closed, ReadFault};
ghost use Rattle.turn_desk.specs.Histories.{Called};
ghost use Rattle.turn_desk.specs.Seats.{IsSeatOf, SameDesk, view};
ghost use Rattle.live_desk.specs.Operates.{Operates};
ghost use Rattle.live_desk.specs.declared.object.DeskOp.TheVariants.{Step};
ghost use Rattle.live_session.specs.Stretches.{spot, messages, Went, WentOne, Tells, StretchOfMessages, HandedTo, DeskCall, StretchBeforeDown, has_down, GoesDown, Finishes, Stretch};

use crate::bells::Bells;
use crate::ends::ReaderEnd;
use crate::facts::ReaderFacts;
use crate::gate::Gate;
use crate::side::{Side, down, message, side_of, up};
use crate::turns::Turns;
use fv_live::{Clock, Host, Source};
use live_desk::{DeskObject, DeskOp, DeskReply, Event, Timed, Verdict};
use of10_ctl::kind::{
    BARRIER_REQUEST, FLOW_MOD, PACKET_OUT, QUEUE_GET_CONFIG_REQUEST, STATS_REQUEST,
};
use of10_ctl::{Framer, Next};
use std::alloc::{AllocError, Global};
use std::net::{Net, TcpListener, TcpStream};
use std::sync::Wait;
use turn_desk::{Spent, TurnDesk, TurnSeat};

/// How many bytes are taken from a source at once.
const PIECE: usize = 65_536;

/// One step.
fn step<R: Wait>(
    rt: &R,
    desk: &TurnDesk<DeskObject>,
    seat: &mut TurnSeat<DeskObject>,
    timed: Timed,
) -> Result<Result<Verdict, AllocError>, Spent>
    requires desk { IsSeatOf desk.now seat.old }
    ensures desk { SameDesk seat.new seat.old }
    ensures called { IfOk result (λ stepped. Called Operates (view seat.old) (Step timed) (Stepped stepped) (view seat.new)) }
    ensures fewer { OnOk result (seat.new.left + 1 ≡ seat.old.left) }
    ensures spent { OnErr result (seat.old.left ≡ 0) }
    ensures same { OnErr result (seat.new ≡ seat.old) }
{
    match desk.submit(rt, seat, DeskOp::Step(timed)) {
        Ok(DeskReply::Stepped(stepped)) => Ok(stepped),
        Ok(DeskReply::Took(_)) => unreachable!(),
        Err(spent) => Err(spent),
    }
}

fn goes_on(stepped: &Result<Result<Verdict, AllocError>, Spent>) -> bool {
    matches!(stepped, Ok(Ok(Verdict::Go)))
}

fn is_over(stepped: &Result<Result<Verdict, AllocError>, Spent>) -> bool {
    matches!(stepped, Ok(Ok(Verdict::Close | Verdict::Ended)))
}

/// One event, at the timestamp that the clock answers. Where the seat has no calls left the clock isn't asked.
fn ask<R: Wait, C: Clock>(
    rt: &R,
    desk: &TurnDesk<DeskObject>,
    seat: &mut TurnSeat<DeskObject>,
    clock: &mut C,
    event: Event,
) -> Result<Result<Verdict, AllocError>, Spent>
    requires desk { IsSeatOf desk.now seat.old }
    ensures desk { SameDesk seat.new seat.old }
    ensures went { IfOk result (λ stepped. WentOne (spot seat.old (C.coming clock.old)) event (Stepped stepped) (spot seat.new (C.coming clock.new))) }
    ensures spent { OnErr result (seat.old.left ≡ 0) }
    ensures same { OnErr result (spot seat.new (C.coming clock.new) ≡ spot seat.old (C.coming clock.old)) }
{
    if seat.left() == 0 {
        return Err(Spent);
    }
    let moment = clock.now();
    match step(rt, desk, seat, Timed { event, moment }) {
        Ok(stepped) => Ok(stepped),
        Err(_) => unreachable!(),
    }
}

/// One event while nobody else asks. Then those are woken for whom it may be the first that they wait for, or their end.
pub(crate) fn ask_alone<R: Wait, C: Clock>(
    rt: &R,
    desk: &TurnDesk<DeskObject>,
    seat: &mut TurnSeat<DeskObject>,
    clock: &mut C,
    bells: &Bells,
    event: Event,
) -> Result<Result<Verdict, AllocError>, Spent>
    requires desk { IsSeatOf desk.now seat.old }
    ensures desk { SameDesk seat.new seat.old }
    ensures went { IfOk result (λ stepped. WentOne (spot seat.old (C.coming clock.old)) event (Stepped stepped) (spot seat.new (C.coming clock.new))) }
    ensures spent { OnErr result (seat.old.left ≡ 0) }
    ensures same { OnErr result (spot seat.new (C.coming clock.new) ≡ spot seat.old (C.coming clock.old)) }
{
    let hold = bells.hold(rt);
    let ends = matches!(&event, Event::SwitchDown);
    let side = side_of(&event);
    let asked = ask(rt, desk, seat, clock, event);
    if ends {
        bells.end(Side::Switch);
    }
    drop(hold);
    bells.ring_for(rt, side);
    asked
}

/// Whether the event is a message of a slice that may be sent on to the switch. The head of the message
/// decides, so that one of bad form may be sent on too.
#[tactic(auto, using(crate::proofs::Asking::last_type))]
fn is_for_the_switch(event: &Event) -> bool
    ensures { (slot : ℕ) (message : List ℕ) → event.now ≡ SliceMsg slot message → IsTrue (is_question message) → IsTrue result }
{
    let Event::SliceMsg(_, frame) = event else {
        return false;
    };
    frame.is_of(PACKET_OUT)
        || frame.is_of(FLOW_MOD)
        || frame.is_of(STATS_REQUEST)
        || frame.is_of(BARRIER_REQUEST)
        || frame.is_of(QUEUE_GET_CONFIG_REQUEST)
}

/// One event in a turn of the reader's.
fn ask_in_turn<R: Host, C: Clock>(
    rt: &R,
    desk: &TurnDesk<DeskObject>,
    seat: &mut TurnSeat<DeskObject>,
    clock: &mut C,
    turns: &mut Turns<'_>,
    event: Event,
) -> Result<Result<Verdict, AllocError>, Spent>
    requires desk { IsSeatOf desk.now seat.old }
    ensures desk { SameDesk seat.new seat.old }
    ensures went { IfOk result (λ stepped. WentOne (spot seat.old (C.coming clock.old)) event (Stepped stepped) (spot seat.new (C.coming clock.new))) }
    ensures spent { OnErr result (seat.old.left ≡ 0) }
    ensures same { OnErr result (spot seat.new (C.coming clock.new) ≡ spot seat.old (C.coming clock.old)) }
{
    turns.begin(rt, is_for_the_switch(&event));
    let asked = ask(rt, desk, seat, clock, event);
    if is_over(&asked) {
        turns.close();
    }
    turns.end(rt, goes_on(&asked));
    asked
}

/// How a connection ends by the answer to a step, if it does.
pub(crate) fn end_by(stepped: Result<Verdict, AllocError>) -> Option<ReaderEnd>
    ensures { Tells result (Stepped stepped) }
{
    match stepped {
        Ok(Verdict::Go) => None,
        Ok(Verdict::Close) => Some(ReaderEnd::Dismissed),
        Ok(Verdict::Ended) => Some(ReaderEnd::DeskEnded),
        Err(_) => Some(ReaderEnd::Memory),
    }
}

/// Hands on the frames that are whole, in turns.
fn hand_each<R: Host + Net<Listener = TcpListener, Stream = TcpStream>, C: Clock, G: Gate>(
    rt: &R,
    facts: &ReaderFacts<'_, G>,
    seat: &mut TurnSeat<DeskObject>,
    clock: &mut C,
    turns: &mut Turns<'_>,
    framer: &mut Framer,
    count: &mut u64,
) -> Option<ReaderEnd>
    requires desk { IsSeatOf facts.now.desk.now seat.old }
    ensures desk { SameDesk seat.new seat.old }
    ensures handed { (fed : List ℕ) (given : List (List ℕ)) → Stands framer.old fed given → (more : List (List ℕ)) × (calls : List DeskCall) × Went (spot seat.old (C.coming clock.old)) (messages facts.now.side more) calls (spot seat.new (C.coming clock.new)) × AreFirst (given ++ more) (frames_of fed) × HandedTo result framer.new fed (given ++ more) calls seat.new.left }
{
    for _ in rt.forever() {
        let frame = match framer.next() {
            Ok(Next::Frame(frame)) => frame,
            Ok(Next::NeedMore) => return None,
            Ok(Next::Ended) => return None,
            Err(_) => return Some(ReaderEnd::Memory),
        };
        facts.gate.pass(rt, facts.side, *count);
        *count = count.wrapping_add(1);
        let event = message(facts.side, frame);
        let asked = ask_in_turn(rt, facts.desk, seat, clock, turns, event);
        let Ok(stepped) = asked else {
            return Some(ReaderEnd::Spent);
        };
        if let Some(end) = end_by(stepped) {
            return Some(end);
        }
    }
    unreachable!()
}

/// Hands on the frames that are whole. Where the gate may wait for other threads these have their turn after each
/// frame, and else after many.
fn hand_on<R: Host + Net<Listener = TcpListener, Stream = TcpStream>, C: Clock, G: Gate>(
    rt: &R,
    facts: &ReaderFacts<'_, G>,
    seat: &mut TurnSeat<DeskObject>,
    clock: &mut C,
    framer: &mut Framer,
    count: &mut u64,
) -> Option<ReaderEnd>
    requires desk { IsSeatOf facts.now.desk.now seat.old }
    ensures desk { SameDesk seat.new seat.old }
    ensures handed { (fed : List ℕ) (given : List (List ℕ)) → Stands framer.old fed given → (more : List (List ℕ)) × (calls : List DeskCall) × Went (spot seat.old (C.coming clock.old)) (messages facts.now.side more) calls (spot seat.new (C.coming clock.new)) × AreFirst (given ++ more) (frames_of fed) × HandedTo result framer.new fed (given ++ more) calls seat.new.left }
{
    let mut turns = Turns::new(facts.bells, facts.side, facts.gate.may_wait());
    let end = hand_each(rt, facts, seat, clock, &mut turns, framer, count);
    turns.finish(rt);
    end
}

/// Takes all that comes from the source, and hands on its frames.
fn read_on<R: Host + Net<Listener = TcpListener, Stream = TcpStream>, S: Source, C: Clock, G: Gate>(
    rt: &R,
    facts: &ReaderFacts<'_, G>,
    seat: &mut TurnSeat<DeskObject>,
    source: &mut S,
    clock: &mut C,
    piece: &mut [u8],
) -> ReaderEnd
    requires desk { IsSeatOf facts.now.desk.now seat.old }
    requires piece { 0 < length piece.old }
    ensures desk { SameDesk seat.new seat.old }
    ensures reading { StretchOfMessages facts.now.side (spot seat.old (C.coming clock.old)) (S.left source.old) result (S.left source.new) (spot seat.new (C.coming clock.new)) }
    ensures fault { result ≡ ReadFault → Rose (S.faults source.old) (S.faults source.new) }
    ensures closed { result ≡ Closed → IsUsedUp (S.left source.new) }
{
    let mut framer = Framer::new(facts.alloc);
    let mut count = 0;
    for _ in rt.forever() {
        let Ok(taken) = source.take(piece) else {
            return ReaderEnd::ReadFault;
        };
        if taken == 0 {
            return ReaderEnd::Closed;
        }
        let Ok(()) = framer.feed(&piece[..taken]) else {
            return ReaderEnd::Memory;
        };
        let end = hand_on(rt, facts, seat, clock, &mut framer, &mut count);
        if let Some(end) = end {
            return end;
        }
    }
    unreachable!()
}

/// Takes all that comes from the source in pieces of 64 KiB. The switch's or a slice's messages, between
/// the up and the down.
fn read_all<
    R: Host + Net<Listener = TcpListener, Stream = TcpStream>,
    S: Source,
    C: Clock,
    G: Gate,
>(
    rt: &R,
    facts: &ReaderFacts<'_, G>,
    seat: &mut TurnSeat<DeskObject>,
    source: &mut S,
    clock: &mut C,
) -> ReaderEnd
    requires desk { IsSeatOf facts.now.desk.now seat.old }
    ensures desk { SameDesk seat.new seat.old }
    ensures reading { StretchOfMessages facts.now.side (spot seat.old (C.coming clock.old)) (S.left source.old) result (S.left source.new) (spot seat.new (C.coming clock.new)) }
    ensures fault { result ≡ ReadFault → Rose (S.faults source.old) (S.faults source.new) }
    ensures closed { result ≡ Closed → IsUsedUp (S.left source.new) }
{
    let Ok(mut piece) = vec![in facts.alloc; 0; PIECE] else {
        return ReaderEnd::Memory;
    };
    read_on(rt, facts, seat, source, clock, &mut piece)
}

/// The up of a connection, and what its source gives.
fn begin<R: Host + Net<Listener = TcpListener, Stream = TcpStream>, S: Source, C: Clock, G: Gate>(
    rt: &R,
    facts: &ReaderFacts<'_, G>,
    seat: &mut TurnSeat<DeskObject>,
    source: &mut S,
    clock: &mut C,
) -> ReaderEnd
    requires desk { IsSeatOf facts.now.desk.now seat.old }
    ensures desk { SameDesk seat.new seat.old }
    ensures begun { StretchBeforeDown facts.now.side (spot seat.old (C.coming clock.old)) (S.left source.old) result (S.left source.new) (spot seat.new (C.coming clock.new)) }
    ensures fault { result ≡ ReadFault → Rose (S.faults source.old) (S.faults source.new) }
    ensures closed { result ≡ Closed → IsUsedUp (S.left source.new) }
{
    let stepped = ask_alone(rt, facts.desk, seat, clock, facts.bells, up(facts.side));
    facts.bells.came(rt, facts.side);
    let Ok(stepped) = stepped else {
        return ReaderEnd::Spent;
    };
    if let Some(end) = end_by(stepped) {
        return end;
    }
    read_all(rt, facts, seat, source, clock)
}

/// Whether it is reported to the desk that a connection ended so.
fn closes(end: ReaderEnd) -> bool
    ensures { result ≡ has_down end }
{
    match end {
        ReaderEnd::Closed | ReaderEnd::ReadFault | ReaderEnd::Memory => true,
        ReaderEnd::Dismissed | ReaderEnd::DeskEnded | ReaderEnd::Spent => false,
    }
}

/// The down of a connection that ended so, where there is to be one.
pub(crate) fn finish<R: Wait, C: Clock, G: Gate>(
    rt: &R,
    facts: &ReaderFacts<'_, G>,
    seat: &mut TurnSeat<DeskObject>,
    clock: &mut C,
    end: ReaderEnd,
) -> ReaderEnd
    requires desk { IsSeatOf facts.now.desk.now seat.old }
    ensures desk { SameDesk seat.new seat.old }
    ensures finished { Finishes facts.now.side end (spot seat.old (C.coming clock.old)) result (spot seat.new (C.coming clock.new)) }
{
    if !closes(end) {
        return end;
    }
    let event = down(facts.side);
    let Ok(_) = ask_alone(rt, facts.desk, seat, clock, facts.bells, event) else {
        return ReaderEnd::Spent;
    };
    end
}

/// Asks the desk for the down of a connection whose reader has no calls left, by a seat that has one. `Spent` exactly
/// where it has none.
pub fn tell_end<R: Wait, C: Clock>(
    rt: &R,
    desk: &TurnDesk<DeskObject>,
    seat: &mut TurnSeat<DeskObject>,
    side: Side,
    clock: &mut C,
    bells: &Bells,
) -> Result<(), Spent>
    requires desk { IsSeatOf desk.now seat.old }
    ensures desk { SameDesk seat.new seat.old }
    ensures down { OnOk result (GoesDown side (spot seat.old (C.coming clock.old)) (spot seat.new (C.coming clock.new))) }
    ensures spent { OnErr result (seat.old.left ≡ 0) }
    ensures same { OnErr result (spot seat.new (C.coming clock.new) ≡ spot seat.old (C.coming clock.old)) }
{
    match ask_alone(rt, desk, seat, clock, bells, down(side)) {
        Ok(_) => Ok(()),
        Err(spent) => Err(spent),
    }
}

/// Reads one connection: the seat asks the desk for its up, a message for each frame of the bytes taken, in
/// order, and its down, each at the clock's next answer. No down follows a reply that ends the connection, so
/// that what it sent before can still be taken. It wakes the writers for which messages wait after the messages of a
/// turn, which is one where the gate may wait. After an up, a down, an end and at its own end it wakes the side's own
/// writer, too, and that of the switch all of them.
pub fn run_reader<
    R: Host + Net<Listener = TcpListener, Stream = TcpStream>,
    S: Source,
    C: Clock,
    G: Gate,
>(
    rt: &R,
    alloc: Global,
    desk: &TurnDesk<DeskObject>,
    seat: &mut TurnSeat<DeskObject>,
    source: &mut S,
    side: Side,
    clock: &mut C,
    gate: &G,
    bells: &Bells,
) -> ReaderEnd
    requires desk { IsSeatOf desk.now seat.old }
    ensures desk { SameDesk seat.new seat.old }
    ensures stretch { Stretch side (spot seat.old (C.coming clock.old)) (S.left source.old) result (S.left source.new) (spot seat.new (C.coming clock.new)) }
    ensures fault { result ≡ ReadFault → Rose (S.faults source.old) (S.faults source.new) }
    ensures closed { result ≡ Closed → IsUsedUp (S.left source.new) }
{
    let facts = ReaderFacts {
        alloc,
        desk,
        bells,
        gate,
        side,
    };
    let end = begin(rt, &facts, seat, source, clock);
    let end = finish(rt, &facts, seat, clock, end);
    bells.end(side);
    bells.ring_for(rt, side);
    end
}
