ghost use Rattle.std.specs.Prelude.{◌≡◌, None, IfOk};

use crate::compared_connections::{Heard, Line, Port, TURNS, link};
use expectations::{expect, expect_eq};
use fv_base::{MemoryFiles, MemorySink};
use fv_live::{Host, Links, MemoryWires};
use live_samples::devices::{
    ALICE, BOB, Device, GREETING, IN, Long, NOTHING, OUT, SWITCH, Stream, TO_22, UNANSWERED,
};
use live_samples::{ClosureSpawner, FEATURES, LANE, POLICY, Still, words};
use live_serve::{Gate, SessionWork, Side};
use serve_samples::{Call, begin, status};
use std::alloc::{AllocError, Global};
use std::collections::VecDeque;
use std::net::{Net, TcpListener, TcpStream};
use std::sync::Arc;
use std::sync::atomic::{AtomicU64, Ordering};
use std::test::Fail;
use std::thread;
use std::time::Duration;

/// What a message is held for.
#[derive(Clone, Copy)]
enum Until {
    /// So many threads have ended.
    Ended(u64),
    /// The switch was sent so many bytes, and no others.
    SwitchSent(u64),
    /// Bob was.
    BobSent(u64),
    /// The switch stands still.
    SwitchStands,
    /// The half of the switch's connection that takes was dropped.
    SwitchIsDropped,
}

/// A message by its place in the stream of its side.
type Place = (Side, u64);

/// Which case it is.
#[derive(Clone, Copy)]
enum Name {
    AliceIsNotThere,
    LaneIsChoked,
}

/// A switch, and the controllers of alice and bob, where they are there. Which messages are held back, and
/// until when; which message lets a switch go on that stands still; whether the switch's own stream ends only
/// with its connection; and how many bytes the switch, alice and bob are sent.
#[derive(Clone, Copy)]
struct Case {
    name: Name,
    switch: Device,
    alice: Option<Device>,
    bob: Device,
    holds: &'static [(Place, &'static [Until])],
    lets_go: Option<Place>,
    ends_by_the_proxy: bool,
    sent: [u64; 3],
}

const ALICES: Side = Side::Slice(0);

const BOBS: Side = Side::Slice(1);

/// How many threads alice has: a reader and a writer. How many all have.
const ALICES_WORKS: u64 = 2;

const WORKS: u64 = 6;

/// All was sent of the case below.
const ALL_IS_SENT: &[Until] = &[Until::SwitchSent(108), Until::BobSent(88)];

/// There is no controller at alice's address. Bob has a question, held until her threads have ended, and is
/// then sent a packet, held until he is answered.
const ALICE_IS_NOT_THERE: Case = Case {
    name: Name::AliceIsNotThere,
    switch: Device {
        says: Stream {
            first: &[FEATURES, IN, TO_22],
            last: UNANSWERED,
            ..NOTHING
        },
        ..SWITCH
    },
    alice: None,
    bob: Device {
        sent: Stream {
            first: GREETING,
            last: &["010300080000000b", IN, TO_22],
            ..NOTHING
        },
        ..BOB
    },
    holds: &[
        ((BOBS, 0), &[Until::Ended(ALICES_WORKS)]),
        ((Side::Switch, 1), &[Until::BobSent(16)]),
        ((BOBS, 1), ALL_IS_SENT),
        ((Side::Switch, 2), ALL_IS_SENT),
    ],
    lets_go: None,
    ends_by_the_proxy: false,
    sent: [108, 0, 88],
};

/// The switch doesn't take the first of 18 long packets that alice sends out, and goes on once all were sent. It has
/// nothing more to say, and its connection ends where the proxy ends it.
const LANE_IS_CHOKED: Case = Case {
    name: Name::LaneIsChoked,
    switch: Device {
        sent: Stream {
            first: &LANE,
            long: Long { count: 17, ..OUT },
            ..NOTHING
        },
        free: 108,
        ..SWITCH
    },
    alice: Some(Device {
        says: Stream {
            long: OUT,
            last: UNANSWERED,
            ..NOTHING
        },
        sent: Stream {
            first: GREETING,
            ..NOTHING
        },
        ..ALICE
    }),
    bob: BOB,
    holds: &[
        ((ALICES, 0), &[Until::SwitchSent(108)]),
        ((ALICES, 1), &[Until::SwitchStands]),
        ((ALICES, 18), &[Until::SwitchIsDropped]),
        ((BOBS, 1), &[Until::BobSent(16), Until::SwitchIsDropped]),
    ],
    lets_go: Some((ALICES, 18)),
    ends_by_the_proxy: true,
    sent: [1_114_203, 8, 16],
};

/// How many threads have ended, what the switch, alice and bob were sent, and how many messages were held for
/// all turns.
#[derive(Drop)]
struct Seen {
    ended: Arc<AtomicU64, Global>,
    switch: Arc<Heard, Global>,
    alice: Arc<Heard, Global>,
    bob: Arc<Heard, Global>,
    held_too_long: AtomicU64,
}

impl Seen {
    fn new(alloc: Global) -> Result<Arc<Seen, Global>, AllocError> {
        let seen = Seen {
            ended: Arc::new(alloc, AtomicU64::new(0))?,
            switch: Heard::new(alloc)?,
            alice: Heard::new(alloc)?,
            bob: Heard::new(alloc)?,
            held_too_long: AtomicU64::new(0),
        };
        Ok(Arc::new(alloc, seen)?)
    }

    fn has(&self, until: Until) -> bool {
        match until {
            Until::Ended(works) => self.ended.load(Ordering::SeqCst) == works,
            Until::SwitchSent(count) => self.switch.has(count),
            Until::BobSent(count) => self.bob.has(count),
            Until::SwitchStands => self.switch.is_standing(),
            Until::SwitchIsDropped => self.switch.is_dropped(),
        }
    }

    fn are_sent(&self, sent: [u64; 3]) -> bool {
        let [switch, alice, bob] = sent;
        self.switch.has(switch) && self.alice.has(alice) && self.bob.has(bob)
    }

    fn is_none_held(&self) -> bool {
        self.held_too_long.load(Ordering::SeqCst) == 0
    }
}

/// Holds the messages of a case, of which it has the name alone, so that no lifetime is named where `serve` is called.
#[derive(Drop)]
struct CaseGate {
    seen: Arc<Seen, Global>,
    name: Name,
}

impl Clone for CaseGate {
    fn clone(&self) -> Result<CaseGate, AllocError> {
        Ok(CaseGate {
            seen: Arc::try_clone(&self.seen)?,
            name: self.name,
        })
    }
}

impl CaseGate {
    fn holds(&self) -> &'static [(Place, &'static [Until])] {
        match self.name {
            Name::AliceIsNotThere => ALICE_IS_NOT_THERE.holds,
            Name::LaneIsChoked => LANE_IS_CHOKED.holds,
        }
    }

    fn lets_go(&self, place: Place) -> bool {
        let by = match self.name {
            Name::AliceIsNotThere => ALICE_IS_NOT_THERE.lets_go,
            Name::LaneIsChoked => LANE_IS_CHOKED.lets_go,
        };
        by == Some(place)
    }

    // Whether the message at this place may pass now.
    fn lets(&self, place: Place) -> bool {
        self.holds()
            .iter()
            .filter(|(held, _)| *held == place)
            .all(|(_, until)| until.iter().all(|it| self.seen.has(*it)))
    }
}

impl Gate for CaseGate {
    fn pass<R: Host + Net<Listener = TcpListener, Stream = TcpStream>>(
        &self,
        rt: &R,
        side: Side,
        count: u64,
    ) {
        if self.lets_go((side, count)) {
            self.seen.switch.let_go();
        }
        for _ in 0..TURNS {
            if self.lets((side, count)) {
                return;
            }
            thread::sleep(rt, Duration::from_millis(1));
        }
        self.seen.held_too_long.fetch_add(1, Ordering::SeqCst);
    }
}

type Ports = MemoryWires<Line, Port>;

type CallWork = SessionWork<Ports, Still, CaseGate>;

// A switch, and the controllers that are there.
fn wires(rt: HostRuntime, alloc: Global, case: &Case, seen: &Seen) -> Result<Ports, AllocError>
    ensures { IfOk result (λ wires. wires.place ≡ None) }
{
    let line = Line::new(rt, alloc, &case.switch)?;
    let line = if case.ends_by_the_proxy {
        line.ends_with(&seen.switch)?
    } else {
        line
    };
    let port = Port::new(rt, alloc, &case.switch, &seen.switch)?;
    let mut connections = VecDeque::new(alloc);
    connections.push_back((line, port))?;
    let mut links = Vec::new(alloc);
    if let Some(alice) = &case.alice {
        links.push(link(rt, alloc, live_samples::ALICE, alice, &seen.alice)?)?;
    }
    links.push(link(rt, alloc, live_samples::BOB, &case.bob, &seen.bob)?)?;
    let links = Arc::new(alloc, Links::new(links, Vec::new(alloc)))?;
    Ok(MemoryWires::new(alloc, connections, Vec::new(alloc), links))
}

type CaseCall = Call<Ports, CaseGate>;

fn prepared(
    rt: HostRuntime,
    alloc: Global,
    case: &Case,
    seen: &Arc<Seen, Global>,
) -> Result<CaseCall, AllocError>
    ensures { IfOk result (λ call. call.wires.place ≡ None) }
{
    let mut files = MemoryFiles::new(alloc);
    files.add("policy", POLICY.as_bytes())?;
    Ok(Call {
        words: words(alloc, &["serve", "policy", "here", "1"])?,
        files,
        wires: wires(rt, alloc, case, seen)?,
        gate: CaseGate {
            seen: Arc::try_clone(seen)?,
            name: case.name,
        },
        err: MemorySink::new(alloc),
    })
}

// Each was sent what it is to be sent, and all works have ended.
fn expect_served(case: &Case, seen: &Seen, call: &CaseCall, status: u8) -> Result<(), Fail> {
    expect_eq!(status, 0);
    expect!(call.err.as_slice().is_empty());
    expect!(seen.is_none_held());
    expect!(seen.are_sent(case.sent));
    expect!(seen.has(Until::Ended(WORKS)));
    Ok(())
}

#[test]
fn controller_that_cannot_be_dialled_stops_no_other(rt: HostRuntime) -> Result<(), Fail> {
    let alloc = rt.alloc();
    let seen = Seen::new(alloc)?;
    let mut call = prepared(rt, alloc, &ALICE_IS_NOT_THERE, &seen)?;
    let mut spawner = ClosureSpawner::new(
        alloc,
        Vec::new(alloc),
        |work: CallWork| begin(rt, &seen.ended, work),
    );
    let status = status(&rt, alloc, &mut call, &mut spawner);
    expect_served(&ALICE_IS_NOT_THERE, &seen, &call, status)
}

#[test]
fn connection_of_a_switch_that_takes_nothing_is_ended(rt: HostRuntime) -> Result<(), Fail> {
    let alloc = rt.alloc();
    let seen = Seen::new(alloc)?;
    let mut call = prepared(rt, alloc, &LANE_IS_CHOKED, &seen)?;
    let mut spawner = ClosureSpawner::new(
        alloc,
        Vec::new(alloc),
        |work: CallWork| begin(rt, &seen.ended, work),
    );
    let status = status(&rt, alloc, &mut call, &mut spawner);
    expect_served(&LANE_IS_CHOKED, &seen, &call, status)
}
