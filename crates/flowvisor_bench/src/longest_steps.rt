//! Messages that cost a desk most time, and how long a step of each takes.

use crate::costly_messages::{
    Entry, OUT, Packets, flow_mod, flows_part, flows_question, longest_echo, longest_packet_in,
    longest_packet_out, outputs, packet_out, rewritten_outputs, turning_outputs,
};
use crate::policies::FIRST_PORT;
use crate::timing::{Brought, SLOTS, TimedDesk};
use of10_ctl::Frame;
use of10_flow::protocol::{ADD, CHECK_OVERLAP, MODIFY};
use of10_port::protocol::ALL;
use proxy_core::Event;
use std::alloc::{AllocError, Global};
use std::io;
use std::rt::Clock;

/// Priorities of entries: those that fill the book, those of the flow-mod that fills it up, and those that
/// are measured.
const FILLING: u16 = 10;

const FULL: u16 = 20;

const MEASURED: u16 = 30;

/// As many entries as a slice may have.
const QUOTA: u16 = 4_096;

/// As many of them as leave place for one of each rule but the first.
const QUOTA_BUT_RULES: u16 = 3_841;

/// The source of packets of which no entry is booked.
const UNBOOKED: u16 = 5_000;

/// So many parts of the most flows are collected; the last part finds no place for all of its own.
const COLLECTED: u8 = 8;

/// Actions of a message, so many as are said.
#[derive(Clone, Copy)]
enum List {
    /// Outputs to a port.
    Outputs(u16, u16),
    /// Outputs, each of which has another image.
    Rewrites(u16),
    /// Outputs of packets that two rules have in turn.
    Turning(u16),
}

/// What is sent in each round: a message of the crowded slice where nothing else is said.
#[derive(Clone, Copy)]
enum Worst {
    /// A flow-mod of everything.
    Add(List),
    /// The same, where each rule of the slice names its port of entry.
    NamedAdd(List),
    /// A MODIFY of everything over a full book, of which the entries of one rule come first.
    Modify,
    /// An ADD with CHECK_OVERLAP over a full book of entries of its priority, none of which it overlaps.
    Overlap,
    LongestPacketOut,
    PacketOut(List),
    Echo,
    /// A packet that one slice writes, and all others read.
    PacketIn,
    /// Flows for a slice in parts, and one part for each other slice.
    Statistics,
    /// What the switch says of itself, with which its desk opens.
    Features,
}

/// All of them. Of a flow-mod with 119 outputs the messages are together as long as they may be. 8,182
/// outputs, and 4,090 rewritten ones, are as many as there is room for; 59 of these are as few as let it be
/// sent.
const KINDS: &[(&str, Worst)] = &[
    (
        "flow-mod in 256 pieces of 1,024 bytes",
        Worst::Add(List::Outputs(OUT, 119)),
    ),
    (
        "flow-mod of 8,182 outputs in 256 pieces",
        Worst::Add(List::Outputs(OUT, 8_182)),
    ),
    (
        "the same by rules that name their ports of entry",
        Worst::NamedAdd(List::Outputs(OUT, 8_182)),
    ),
    (
        "flow-mod of 4,090 rewritten outputs in 256 pieces",
        Worst::Add(List::Rewrites(4_090)),
    ),
    (
        "flow-mod of 59 rewritten outputs in 256 pieces",
        Worst::Add(List::Rewrites(59)),
    ),
    (
        "flow-mod of 4,090 outputs that two rules have in turn, in 256 pieces",
        Worst::Add(List::Turning(4_090)),
    ),
    (
        "flow-mod to all of 1,364 ports, 8,182 times in 256 pieces",
        Worst::Add(List::Outputs(ALL, 8_182)),
    ),
    (
        "flow-mod to all of 1,364 ports, five times in 256 pieces",
        Worst::Add(List::Outputs(ALL, 5)),
    ),
    ("MODIFY in 256 pieces over a full book", Worst::Modify),
    (
        "CHECK_OVERLAP in 256 pieces over a full book",
        Worst::Overlap,
    ),
    ("packet-out of 65,535 bytes", Worst::LongestPacketOut),
    (
        "packet-out of 4,000 rewritten outputs",
        Worst::PacketOut(List::Rewrites(4_000)),
    ),
    (
        "packet-out to all of 1,364 ports, five times",
        Worst::PacketOut(List::Outputs(ALL, 5)),
    ),
    ("echo of 65,535 bytes", Worst::Echo),
    ("packet-in of 65,535 bytes for 32 slices", Worst::PacketIn),
    ("flows for 32 slices, in parts of 744", Worst::Statistics),
    (
        "features with 1,364 ports, under 2,048 rules",
        Worst::Features,
    ),
];

/// A flow-mod of everything that the slice writes, with these actions.
fn of_everything(
    alloc: Global,
    command: u16,
    priority: u16,
    actions: &[u8],
) -> Result<Frame, AllocError> {
    let entry = Entry {
        packets: Packets::All,
        command,
        priority,
        flags: 0,
    };
    flow_mod(alloc, &entry, actions)
}

/// A MODIFY of everything that the slice writes.
fn modify(alloc: Global, priority: u16) -> Result<Frame, AllocError> {
    of_everything(alloc, MODIFY, priority, &outputs(alloc, OUT, 1)?)
}

/// An ADD in as many pieces, which shares no header with the entries that fill the book and asks for just that.
fn checked(alloc: Global) -> Result<Frame, AllocError> {
    let entry = Entry {
        packets: Packets::OfSource(UNBOOKED),
        command: ADD,
        priority: FILLING,
        flags: CHECK_OVERLAP,
    };
    flow_mod(alloc, &entry, &outputs(alloc, OUT, 1)?)
}

/// Books so many entries of the slice's first rule.
fn fill<R: Clock>(rt: &R, desk: &mut TimedDesk, count: u16) -> io::Result<()> {
    let alloc = desk.alloc;
    let actions = outputs(alloc, OUT, 1)?;
    for source in 0..count {
        let entry = Entry {
            packets: Packets::OfPorts(source, FIRST_PORT),
            command: ADD,
            priority: FILLING,
            flags: 0,
        };
        let message = flow_mod(alloc, &entry, &actions)?;
        desk.step(rt, Event::SliceMsg(0, message))?;
    }
    Ok(())
}

/// A slice asks for all flows, and is answered in so many parts and a last one.
fn ask_for_flows<R: Clock>(
    rt: &R,
    desk: &mut TimedDesk,
    slot: u8,
    parts: u8,
) -> io::Result<Brought> {
    let alloc = desk.alloc;
    desk.step(rt, Event::SliceMsg(slot, flows_question(alloc)?))?;
    let xid = desk.last_xid();
    for _ in 0..parts {
        desk.step(rt, Event::SwitchMsg(flows_part(alloc, xid, false)?))?;
    }
    desk.step(rt, Event::SwitchMsg(flows_part(alloc, xid, true)?))
}

/// All slices ask for all flows; the crowded one, which asks last, collects as many as can be.
fn ask_all<R: Clock>(rt: &R, desk: &mut TimedDesk) -> io::Result<Brought> {
    for slot in 1..SLOTS {
        ask_for_flows(rt, desk, slot, 0)?;
    }
    ask_for_flows(rt, desk, 0, COLLECTED)
}

/// The switch connects anew and says what it is.
fn open_anew<R: Clock>(rt: &R, desk: &mut TimedDesk) -> io::Result<Brought> {
    desk.renew()?;
    desk.open(rt)
}

impl List {
    /// The actions, spelled.
    fn spelled(self, alloc: Global) -> Result<Vec<u8>, AllocError> {
        match self {
            List::Outputs(port, count) => outputs(alloc, port, count),
            List::Rewrites(count) => rewritten_outputs(alloc, count),
            List::Turning(count) => turning_outputs(alloc, count),
        }
    }
}

impl Worst {
    /// What the crowded slice sends.
    fn message(self, alloc: Global) -> Result<Frame, AllocError> {
        match self {
            Worst::Add(list) | Worst::NamedAdd(list) => {
                of_everything(alloc, ADD, MEASURED, &list.spelled(alloc)?)
            }
            Worst::Modify => modify(alloc, MEASURED),
            Worst::Overlap => checked(alloc),
            Worst::LongestPacketOut => longest_packet_out(alloc),
            Worst::PacketOut(list) => packet_out(alloc, &list.spelled(alloc)?),
            _ => longest_echo(alloc),
        }
    }

    /// What comes before the rounds: the book is filled where that is to be full.
    fn prepare<R: Clock>(self, rt: &R, desk: &mut TimedDesk) -> io::Result<()> {
        match self {
            Worst::Modify => {
                fill(rt, desk, QUOTA_BUT_RULES)?;
                let message = modify(desk.alloc, FULL)?;
                desk.step(rt, Event::SliceMsg(0, message))?;
                Ok(())
            }
            Worst::Overlap => fill(rt, desk, QUOTA),
            _ => Ok(()),
        }
    }

    /// One round.
    fn play<R: Clock>(self, rt: &R, desk: &mut TimedDesk) -> io::Result<Brought> {
        let alloc = desk.alloc;
        match self {
            Worst::Features => open_anew(rt, desk),
            Worst::Statistics => ask_all(rt, desk),
            Worst::PacketIn => desk.step(rt, Event::SwitchMsg(longest_packet_in(alloc)?)),
            _ => desk.step(rt, Event::SliceMsg(0, self.message(alloc)?)),
        }
    }
}

/// Plays so many rounds, and prints how many messages the last step brought and how long the longest took.
fn measure<R: Clock + Print>(
    rt: &R,
    alloc: Global,
    name: &str,
    worst: Worst,
    count: u64,
) -> io::Result<()> {
    let mut desk = TimedDesk::new(alloc, matches!(worst, Worst::NamedAdd(_)))?;
    desk.open(rt)?;
    desk.come(rt)?;
    worst.prepare(rt, &mut desk)?;
    desk.forget();
    let mut brought = Brought::NOTHING;
    for _ in 0..count {
        brought = worst.play(rt, &mut desk)?;
    }
    let micros = desk.longest();
    println!(rt;
        "{name}: {} messages for the switch and {} for slices, longest step {micros} us",
        brought.to_switch, brought.to_slices
    )
}

/// Measures them all.
pub fn measure_worst<R: Clock + Print>(rt: &R, alloc: Global, count: u64) -> io::Result<()> {
    for (name, worst) in KINDS {
        measure(rt, alloc, name, *worst, count)?;
    }
    Ok(())
}
