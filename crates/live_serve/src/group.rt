ghost use Rattle.std.specs.Prelude.{◌≡◌, ◌≤◌, [], ◌∷◌, map, length, OnOk, OnErr, IfOk, IfErr};
ghost use Rattle.std.specs.Arc.{arc_value};
ghost use Rattle.fv_base.specs.Told.{Rose};
ghost use Rattle.fv_live.specs.Roles.{started};
ghost use Rattle.turn_desk.specs.Seats.{IsSeatOf, SameDesk};
ghost use Rattle.live_serve.specs.declared.group.StartFault.TheVariants.{Start};
ghost use Rattle.live_serve.specs.Roles.{role_of, controller_of, group, slice_roles, slice_reader, switch_reader, switch_pair, pair, Partly};

use crate::connection::Connection;
use crate::work::{Job, SessionWork, SliceReader};
use flowspace::Slice;
use fv_live::{Clock, Dialer, Host, Spawner, Wires};
use live_session::{DeskObject, Gate};
use std::alloc::{AllocError, Global};
use std::net::{Net, TcpListener, TcpStream};
use std::sync::Arc;
use turn_desk::TurnSeat;

/// How many calls the seat of a thread has.
const CALLS: u64 = 1 << 40;

/// Why not all threads were started.
#[derive(Clone, Copy)]
pub(crate) enum StartFault {
    /// A start failed.
    Start,
    /// Memory ran out, or the seat has too few calls.
    Memory,
}

/// The allocator of the threads, and the clock and the gate of which each reader is given clones.
#[derive(Drop)]
pub(crate) struct WorkFacts<'a, C: Clock, G: Gate> {
    pub(crate) alloc: Global,
    pub(crate) clock: &'a C,
    pub(crate) gate: &'a G,
}

/// A slice by its slot, and where its controller listens.
#[derive(Drop)]
struct SliceAddress<'a> {
    slot: u8,
    address: &'a str,
}

/// Starts one thread with a seat of its own.
fn start_one<
    R: Host + Net<Listener = TcpListener, Stream = TcpStream>,
    N: Wires,
    C: Clock,
    G: Gate,
    P: Spawner<SessionWork<N, C, G>>,
>(
    rt: &R,
    connection: &Arc<Connection<N>, Global>,
    seat: &mut TurnSeat<DeskObject>,
    job: Job<N::Dial, C, G>,
    spawner: &mut P,
) -> Result<(), StartFault>
    requires can { P.can_start spawner.old }
    requires desk { IsSeatOf (arc_value connection.now).desk seat.old }
    ensures can { P.can_start spawner.new }
    ensures desk { SameDesk seat.new seat.old }
    ensures started { OnOk result (P.roles spawner.new ≡ started (P.roles spawner.old) (role_of job ∷ [])) }
    ensures refused { OnErr result (P.roles spawner.new ≡ P.roles spawner.old) }
    ensures cause { IfErr result (λ fault. fault ≡ Start → Rose (P.faults spawner.old) (P.faults spawner.new)) }
    ensures count { P.faults spawner.old ≤ P.faults spawner.new }
{
    if seat.left() < CALLS {
        return Err(StartFault::Memory);
    }
    let Ok(theirs) = Arc::try_clone(connection) else {
        return Err(StartFault::Memory);
    };
    let own = connection.desk.split(seat, CALLS);
    let work = SessionWork {
        connection: theirs,
        seat: own,
        job,
    };
    match spawner.start(rt, work) {
        Ok(()) => Ok(()),
        Err(_) => Err(StartFault::Start),
    }
}

/// What a slice's reader does.
fn slice_reader<D: Dialer, C: Clock + Clone, G: Gate + Clone>(
    facts: &WorkFacts<'_, C, G>,
    slice: &SliceAddress<'_>,
    dialer: D,
) -> Result<Job<D, C, G>, AllocError>
    ensures { IfOk result (λ job. role_of job ≡ slice_reader slice.now.slot slice.now.address.now) }
{
    Ok(Job::ReadSlice(SliceReader {
        slot: slice.slot,
        address: String::from_str(facts.alloc, slice.address)?,
        dialer,
        clock: facts.clock.clone()?,
        gate: facts.gate.clone()?,
    }))
}

/// Starts the reader and the writer of a slice.
fn start_pair<
    R: Host + Net<Listener = TcpListener, Stream = TcpStream>,
    N: Wires,
    C: Clock + Clone,
    G: Gate + Clone,
    P: Spawner<SessionWork<N, C, G>>,
>(
    rt: &R,
    connection: &Arc<Connection<N>, Global>,
    seat: &mut TurnSeat<DeskObject>,
    wires: &N,
    slice: &SliceAddress<'_>,
    facts: &WorkFacts<'_, C, G>,
    spawner: &mut P,
) -> Result<(), StartFault>
    requires can { P.can_start spawner.old }
    requires desk { IsSeatOf (arc_value connection.now).desk seat.old }
    ensures can { P.can_start spawner.new }
    ensures desk { SameDesk seat.new seat.old }
    ensures started { OnOk result (P.roles spawner.new ≡ started (P.roles spawner.old) (pair slice.now.slot slice.now.address.now)) }
    ensures part { OnErr result (Partly (P.roles spawner.old) (pair slice.now.slot slice.now.address.now) (P.roles spawner.new)) }
    ensures cause { IfErr result (λ fault. fault ≡ Start → Rose (P.faults spawner.old) (P.faults spawner.new)) }
    ensures count { P.faults spawner.old ≤ P.faults spawner.new }
{
    let Ok(reader) = slice_reader(facts, slice, wires.dialer()) else {
        return Err(StartFault::Memory);
    };
    start_one(rt, connection, seat, reader, spawner)?;
    start_one(rt, connection, seat, Job::WriteSlice(slice.slot), spawner)
}

/// Starts the readers and the writers of all slices.
fn start_slices<
    R: Host + Net<Listener = TcpListener, Stream = TcpStream>,
    N: Wires,
    C: Clock + Clone,
    G: Gate + Clone,
    P: Spawner<SessionWork<N, C, G>>,
>(
    rt: &R,
    connection: &Arc<Connection<N>, Global>,
    seat: &mut TurnSeat<DeskObject>,
    wires: &N,
    slices: &[Slice],
    facts: &WorkFacts<'_, C, G>,
    spawner: &mut P,
) -> Result<(), StartFault>
    requires few { length slices.now ≤ 32 }
    requires can { P.can_start spawner.old }
    requires desk { IsSeatOf (arc_value connection.now).desk seat.old }
    ensures can { P.can_start spawner.new }
    ensures desk { SameDesk seat.new seat.old }
    ensures started { OnOk result (P.roles spawner.new ≡ started (P.roles spawner.old) (slice_roles 0 (map controller_of slices.now))) }
    ensures part { OnErr result (Partly (P.roles spawner.old) (slice_roles 0 (map controller_of slices.now)) (P.roles spawner.new)) }
    ensures cause { IfErr result (λ fault. fault ≡ Start → Rose (P.faults spawner.old) (P.faults spawner.new)) }
    ensures count { P.faults spawner.old ≤ P.faults spawner.new }
{
    for (i, slice) in slices.iter().enumerate() {
        let slice = SliceAddress {
            slot: i as u8,
            address: slice.controller.as_str(),
        };
        start_pair(rt, connection, seat, wires, &slice, facts, spawner)?;
    }
    Ok(())
}

/// What the switch's reader does.
fn switch_reader<D: Dialer, C: Clock + Clone, G: Gate + Clone>(
    facts: &WorkFacts<'_, C, G>,
) -> Result<Job<D, C, G>, AllocError>
    ensures { IfOk result (λ job. role_of job ≡ switch_reader) }
{
    Ok(Job::ReadSwitch(facts.clock.clone()?, facts.gate.clone()?))
}

/// Starts the reader and the writer of the switch.
fn start_switch<
    R: Host + Net<Listener = TcpListener, Stream = TcpStream>,
    N: Wires,
    C: Clock + Clone,
    G: Gate + Clone,
    P: Spawner<SessionWork<N, C, G>>,
>(
    rt: &R,
    connection: &Arc<Connection<N>, Global>,
    seat: &mut TurnSeat<DeskObject>,
    facts: &WorkFacts<'_, C, G>,
    spawner: &mut P,
) -> Result<(), StartFault>
    requires can { P.can_start spawner.old }
    requires desk { IsSeatOf (arc_value connection.now).desk seat.old }
    ensures can { P.can_start spawner.new }
    ensures desk { SameDesk seat.new seat.old }
    ensures started { OnOk result (P.roles spawner.new ≡ started (P.roles spawner.old) switch_pair) }
    ensures part { OnErr result (Partly (P.roles spawner.old) switch_pair (P.roles spawner.new)) }
    ensures cause { IfErr result (λ fault. fault ≡ Start → Rose (P.faults spawner.old) (P.faults spawner.new)) }
    ensures count { P.faults spawner.old ≤ P.faults spawner.new }
{
    let Ok(reader) = switch_reader(facts) else {
        return Err(StartFault::Memory);
    };
    start_one(rt, connection, seat, reader, spawner)?;
    start_one(rt, connection, seat, Job::WriteSwitch, spawner)
}

/// Starts the threads of one connection.
pub(crate) fn start_group<
    R: Host + Net<Listener = TcpListener, Stream = TcpStream>,
    N: Wires,
    C: Clock + Clone,
    G: Gate + Clone,
    P: Spawner<SessionWork<N, C, G>>,
>(
    rt: &R,
    connection: &Arc<Connection<N>, Global>,
    seat: &mut TurnSeat<DeskObject>,
    wires: &N,
    slices: &[Slice],
    facts: &WorkFacts<'_, C, G>,
    spawner: &mut P,
) -> Result<(), StartFault>
    requires few { length slices.now ≤ 32 }
    requires can { P.can_start spawner.old }
    requires desk { IsSeatOf (arc_value connection.now).desk seat.old }
    ensures can { P.can_start spawner.new }
    ensures desk { SameDesk seat.new seat.old }
    ensures started { OnOk result (P.roles spawner.new ≡ started (P.roles spawner.old) (group (map controller_of slices.now))) }
    ensures part { OnErr result (Partly (P.roles spawner.old) (group (map controller_of slices.now)) (P.roles spawner.new)) }
    ensures cause { IfErr result (λ fault. fault ≡ Start → Rose (P.faults spawner.old) (P.faults spawner.new)) }
    ensures count { P.faults spawner.old ≤ P.faults spawner.new }
{
    start_switch(rt, connection, seat, facts, spawner)?;
    start_slices(rt, connection, seat, wires, slices, facts, spawner)
}
