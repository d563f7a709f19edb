ghost use Rattle.std.specs.Prelude.{◌≡◌, ◌≤◌, ◌<◌, ◌+◌, ℕ, List, [], Option, Some, IfOk, OnOk, OnErr, IfSome, IfNone, MatchBool, ◌≢◌};
ghost use Rattle.fv_base.specs.Told.{Rose};
ghost use Rattle.fv_live.specs.Live.{count_more};
ghost use Rattle.turn_desk.specs.Seats.{IsSeatOf, SameDesk, view};
ghost use Rattle.live_session.specs.declared.ends.SliceEnd.TheVariants.{GaveUp};
ghost use Rattle.desk_words.specs.declared.taken.Taken.TheVariants as takens;
ghost use Rattle.live_session.specs.declared.side.Side.TheVariants as sides;
ghost use Rattle.live_session.specs.Stretches.{spot, StretchBeforeDown};
ghost use Rattle.live_session.specs.Takings.{TookOne};
ghost use Rattle.live_session.specs.Links.{AreLinks, RoseBy, Opening, OpeningSpent, LinkStretch, Unlinked, Way, Linked, LinksEnd, OverFor, Sliced};

use crate::bells::Bells;
use crate::ends::{ReaderEnd, SliceEnd};
use crate::facts::{ControllerFacts, ReaderFacts};
use crate::gate::Gate;
use crate::half::Half;
use crate::reader::{ask_alone, end_by, finish, run_reader};
use crate::side::{Side, up};
use crate::writer::take;
use fv_live::{Clock, Dialer, Host};
use live_desk::{DeskObject, Dest, Taken, place_of};
use std::alloc::Global;
use std::net::{Net, TcpListener, TcpStream};
use std::sync::Wait;
use turn_desk::{Spent, TurnDesk, TurnSeat};

/// How many attempts in a row fail before a slice's reader gives up.
const ATTEMPTS: u32 = 1000;

/// One take, while nobody else asks the desk.
fn take_alone<R: Wait>(
    rt: &R,
    desk: &TurnDesk<DeskObject>,
    seat: &mut TurnSeat<DeskObject>,
    dest: Dest,
    bells: &Bells,
) -> Result<Taken, Spent>
    requires desk { IsSeatOf desk.now seat.old }
    ensures desk { SameDesk seat.new seat.old }
    ensures took { IfOk result (λ taken. TookOne dest (view seat.old) seat.old.left taken (view seat.new) seat.new.left) }
    ensures spent { OnErr result (seat.old.left ≡ 0) }
    ensures same { OnErr result (seat.new ≡ seat.old) }
{
    let hold = bells.hold(rt);
    let taken = take(rt, desk, seat, dest);
    drop(hold);
    taken
}

/// Takes for the slice until the desk is open.
fn await_open<R: Wait>(
    rt: &R,
    desk: &TurnDesk<DeskObject>,
    seat: &mut TurnSeat<DeskObject>,
    slot: u8,
    bells: &Bells,
) -> Result<(), Spent>
    requires desk { IsSeatOf desk.now seat.old }
    ensures desk { SameDesk seat.new seat.old }
    ensures opening { OnOk result (Opening slot (view seat.old) seat.old.left (view seat.new) seat.new.left) }
    ensures spent { OnErr result (OpeningSpent slot (view seat.old) seat.old.left (view seat.new) seat.new.left) }
{
    let at = place_of(Dest::Slice(slot));
    for _ in rt.forever() {
        let seen = bells.rings(rt, at);
        bells.lie_down(at);
        let taken = take_alone(rt, desk, seat, Dest::Slice(slot), bells)?;
        if !is_early(&taken) {
            return Ok(());
        }
        bells.sleep(rt, at, seen);
    }
    unreachable!()
}

/// Whether the desk isn't open.
fn is_early(taken: &Taken) -> bool
    ensures { MatchBool result (taken.now ≡ takens.NotOpen) (taken.now ≢ takens.NotOpen) }
{
    matches!(taken, Taken::NotOpen)
}

/// One attempt, and where it goes well the link's whole stretch.
fn dial_once<
    R: Host + Net<Listener = TcpListener, Stream = TcpStream>,
    D: Dialer,
    C: Clock,
    G: Gate,
>(
    rt: &R,
    facts: &ReaderFacts<'_, G>,
    controller: &ControllerFacts<'_, D::Out>,
    seat: &mut TurnSeat<DeskObject>,
    dialer: &mut D,
    attempt: u32,
    clock: &mut C,
) -> Option<ReaderEnd>
    requires desk { IsSeatOf facts.now.desk.now seat.old }
    ensures desk { SameDesk seat.new seat.old }
    ensures link { IfSome result (λ end. LinkStretch facts.now.side (spot seat.old (C.coming clock.old)) end (spot seat.new (C.coming clock.new))) }
    ensures told { IfSome result (λ end. D.links dialer.new ≡ count_more (D.links dialer.old) 1) }
    ensures same { IfNone result (spot seat.new (C.coming clock.new) ≡ spot seat.old (C.coming clock.old)) }
    ensures untold { IfNone result (D.links dialer.new ≡ D.links dialer.old) }
    ensures cause { IfNone result (Rose (D.faults dialer.old controller.now.address.now) (D.faults dialer.new controller.now.address.now)) }
    ensures count { D.faults dialer.old controller.now.address.now ≤ D.faults dialer.new controller.now.address.now }
{
    let Ok((mut source, out)) = dialer.dial(rt, controller.address, attempt) else {
        return None;
    };
    controller.half.put(rt, out);
    let end = run_reader(
        rt,
        facts.alloc,
        facts.desk,
        seat,
        &mut source,
        facts.side,
        clock,
        facts.gate,
        facts.bells,
    );
    Some(end)
}

/// The up of a connection that isn't there, whose source gives nothing. No writer begins by it.
fn begin_without_link<R: Wait, C: Clock, G: Gate>(
    rt: &R,
    facts: &ReaderFacts<'_, G>,
    seat: &mut TurnSeat<DeskObject>,
    clock: &mut C,
) -> ReaderEnd
    requires desk { IsSeatOf facts.now.desk.now seat.old }
    ensures desk { SameDesk seat.new seat.old }
    ensures begun { StretchBeforeDown facts.now.side (spot seat.old (C.coming clock.old)) (Some []) result (Some []) (spot seat.new (C.coming clock.new)) }
{
    let event = up(facts.side);
    let Ok(stepped) = ask_alone(rt, facts.desk, seat, clock, facts.bells, event) else {
        return ReaderEnd::Spent;
    };
    if let Some(end) = end_by(stepped) {
        return end;
    }
    ReaderEnd::Closed
}

/// The stretch without a link, by which the desk says whether it has ended.
fn ask_without_link<R: Wait, C: Clock, G: Gate>(
    rt: &R,
    facts: &ReaderFacts<'_, G>,
    seat: &mut TurnSeat<DeskObject>,
    clock: &mut C,
) -> ReaderEnd
    requires desk { IsSeatOf facts.now.desk.now seat.old }
    ensures desk { SameDesk seat.new seat.old }
    ensures unlinked { Unlinked facts.now.side (spot seat.old (C.coming clock.old)) result (spot seat.new (C.coming clock.new)) }
{
    let end = begin_without_link(rt, facts, seat, clock);
    finish(rt, facts, seat, clock, end)
}

/// How a slice's reader ends by the end of a link, if it does.
fn over_by(end: ReaderEnd) -> Option<SliceEnd>
    ensures { OverFor result end }
{
    match end {
        ReaderEnd::DeskEnded => Some(SliceEnd::DeskEnded),
        ReaderEnd::Spent => Some(SliceEnd::Spent),
        ReaderEnd::Closed | ReaderEnd::ReadFault | ReaderEnd::Dismissed | ReaderEnd::Memory => None,
    }
}

/// Dials again and again.
fn dial_on<R: Host + Net<Listener = TcpListener, Stream = TcpStream>, D: Dialer, C: Clock, G: Gate>(
    rt: &R,
    facts: &ReaderFacts<'_, G>,
    controller: &ControllerFacts<'_, D::Out>,
    seat: &mut TurnSeat<DeskObject>,
    dialer: &mut D,
    clock: &mut C,
) -> SliceEnd
    requires desk { IsSeatOf facts.now.desk.now seat.old }
    ensures desk { SameDesk seat.new seat.old }
    ensures links { (ways : List Way) × Linked facts.now.side ways (spot seat.old (C.coming clock.old)) (spot seat.new (C.coming clock.new)) × LinksEnd result ways × AreLinks (D.links dialer.old) ways (D.links dialer.new) }
    ensures gave_up { result ≡ GaveUp → RoseBy 1000 (D.faults dialer.old controller.now.address.now) (D.faults dialer.new controller.now.address.now) }
{
    let mut failed = 0;
    let mut asked = false;
    for _ in rt.forever() {
        if !asked && facts.bells.has_ended() {
            let end = ask_without_link(rt, facts, seat, clock);
            if let Some(over) = over_by(end) {
                return over;
            }
            asked = true;
            continue;
        }
        let Some(end) = dial_once(rt, facts, controller, seat, dialer, failed, clock) else {
            failed += 1;
            if failed >= ATTEMPTS {
                return SliceEnd::GaveUp;
            }
            continue;
        };
        if let Some(over) = over_by(end) {
            return over;
        }
        controller.half.wait_for_end(rt);
        failed = 0;
    }
    unreachable!()
}

/// The body of a slice's reader: waits until the desk is open, and then reads one link after another as
/// `run_reader` does. Each link's writing half goes to `half`; the next dial waits until its writer has ended.
/// Gives up after 1,000 failed dials in a row. Where the switch's connection has ended between two links it asks the desk
/// once by an up without a link, and dials again only where the desk hasn't ended, with the down behind that up.
pub fn run_slice<
    R: Host + Net<Listener = TcpListener, Stream = TcpStream>,
    D: Dialer,
    C: Clock,
    G: Gate,
>(
    rt: &R,
    alloc: Global,
    desk: &TurnDesk<DeskObject>,
    seat: &mut TurnSeat<DeskObject>,
    dialer: &mut D,
    to: &str,
    slot: u8,
    clock: &mut C,
    gate: &G,
    half: &Half<D::Out>,
    bells: &Bells,
) -> SliceEnd
    requires desk { IsSeatOf desk.now seat.old }
    ensures desk { SameDesk seat.new seat.old }
    ensures sliced { Sliced slot (spot seat.old (C.coming clock.old)) (D.links dialer.old) result (D.links dialer.new) (spot seat.new (C.coming clock.new)) }
    ensures gave_up { result ≡ GaveUp → RoseBy 1000 (D.faults dialer.old to.now) (D.faults dialer.new to.now) }
{
    let Ok(()) = await_open(rt, desk, seat, slot, bells) else {
        half.close(rt);
        return SliceEnd::Spent;
    };
    let facts = ReaderFacts {
        alloc,
        desk,
        bells,
        gate,
        side: Side::Slice(slot),
    };
    let controller = ControllerFacts { address: to, half };
    let end = dial_on(rt, &facts, &controller, seat, dialer, clock);
    half.close(rt);
    end
}
