//! A session of a switch, as the records of a trace show it.

ghost use Rattle.std.specs.Prelude.{ℕ, ◌≡◌, ◌+◌, ◌≤◌, List, [], ◌∷◌, length, IfOk, IfSome, OnOk};
ghost use Rattle.std.specs.Ordering.{nat_cmp};
ghost use Rattle.std.specs.BTreeMap.{get};
ghost use Rattle.desk_words.specs.declared.event.Event.TheVariants.{SwitchUp, SwitchMsg, SwitchDown};
ghost use Rattle.desk_words.specs.declared.event.Timed.{Timed};
ghost use Rattle.desk_words.specs.Openings.{phase_after};
ghost use Rattle.desk_words.specs.Arrivals.{buffer_header};
ghost use Rattle.desk_words.specs.Recorded.{timed_at};
ghost use Rattle.trace_audit.specs.Standing.{first_told, bytes_at, IsFrameAt, SessionStands, HasNoted};

use crate::heard::{Heard, header_heard, heard_from};
use desk_words::{Phase, carried};
use of10_ctl::Frame;
use of10_match::Header12;
use recording::item_at;
use std::alloc::{AllocError, Global};
use std::collections::BTreeMap;

/// What is known of a switch since it last connected.
#[derive(Drop)]
pub struct Session {
    phase: Phase,
    /// The datapath id that it said first.
    pub datapath: Option<u64>,
    /// For each number under which it keeps a packet, the place of the record of the last packet-in that gave it.
    packets: BTreeMap<u32, u32>,
}

/// The datapath id that counts: the first one.
fn first_told(known: Option<u64>, datapath: u64) -> Option<u64>
    ensures { result ≡ first_told known datapath }
{
    match known {
        Some(_) => known,
        None => Some(datapath),
    }
}

/// How far the connection is once it ends.
fn ended(phase: Phase) -> Phase
    ensures { result ≡ phase_after phase SwitchDown }
{
    match phase {
        Phase::Fresh => Phase::Fresh,
        Phase::Begun | Phase::Opened | Phase::Gone => Phase::Gone,
    }
}

impl Session {
    /// The switch hasn't connected.
    pub fn new(alloc: Global) -> Session
        ensures { (file : List ℕ) → SessionStands file [] result }
    {
        Session {
            phase: Phase::Fresh,
            datapath: None,
            packets: BTreeMap::new(alloc),
        }
    }

    /// It connects.
    pub fn connected(alloc: Global) -> Session
        ensures { (file : List ℕ) (moment : ℕ) → SessionStands file (timed_at moment SwitchUp ∷ []) result }
    {
        Session {
            phase: Phase::Begun,
            datapath: None,
            packets: BTreeMap::new(alloc),
        }
    }

    /// Its connection ends.
    pub fn disconnect(&mut self)
        ensures { (file : List ℕ) (h : List Timed) (moment : ℕ) → SessionStands file h self.old → SessionStands file (timed_at moment SwitchDown ∷ h) self.new }
    {
        self.phase = ended(self.phase);
    }

    /// Notes what counts of a message, which stands in the record at a place.
    fn note(&mut self, at: u32, heard: Heard) -> Result<(), AllocError>
        ensures { OnOk result (HasNoted at heard self.old self.new) }
    {
        match (self.phase, heard) {
            (Phase::Begun | Phase::Opened, Heard::Ended) => self.phase = Phase::Gone,
            (Phase::Begun, Heard::Features(datapath)) => {
                self.phase = Phase::Opened;
                self.datapath = first_told(self.datapath, datapath);
            }
            (Phase::Opened, Heard::Packet(Some(number))) => {
                self.packets.insert(number, at)?;
            }
            _ => {}
        }
        Ok(())
    }

    /// It sends a message, which stands in the record at a place of a file.
    pub fn hear(&mut self, at: u32, frame: &Frame) -> Result<(), AllocError>
        ensures { (file : List ℕ) (h : List Timed) (moment : ℕ) → bytes_at file at ≡ frame.now → at + 16 ≤ length file → SessionStands file h self.old → OnOk result (SessionStands file (timed_at moment (SwitchMsg frame.now) ∷ h) self.new) }
    {
        let _bytes = frame.as_slice();
        self.note(at, heard_from(frame))
    }

    /// The header of the packet that the switch keeps under a number.
    pub fn header_under(
        &self,
        alloc: Global,
        file: &[u8],
        number: u32,
    ) -> Result<Option<Header12>, AllocError>
        requires { IfSome (get nat_cmp self.now.packets number) (IsFrameAt file.now) }
        ensures { (h : List Timed) → SessionStands file.now h self.now → IfOk result (λ header. header ≡ buffer_header h number) }
    {
        let Some(at) = self.packets.get(&number) else {
            return Ok(None);
        };
        let item = item_at(file, *at as usize);
        let frame = Frame::of(Vec::from_slice(alloc, carried(file, &item))?);
        Ok(header_heard(&frame))
    }
}
