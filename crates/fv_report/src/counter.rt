//! The messages that are reported are counted.

ghost use Rattle.std.specs.Prelude.{ℕ, ◌≡◌, List, [], Ok, OnOk, IfOk, IfErr};
ghost use Rattle.desk_words.specs.Reports.{To};
ghost use Rattle.fv_report.specs.Counting.{CountsMore, HasCounted, CountsLine};

use event_player::{Desk, Event, LinePlace, ReportFault, Said, Teller};
use std::alloc::{AllocError, Global};

/// How many messages there were, and how many bytes they had together.
#[derive(Clone, Copy)]
pub(crate) struct Count {
    pub(crate) messages: u64,
    pub(crate) bytes: u64,
}

impl Count {
    const NONE: Count = Count {
        messages: 0,
        bytes: 0,
    };

    /// Counts a message more. A recording has far fewer than 2^64 bytes of messages.
    fn add(&mut self, message: &[u8]) -> Result<(), ReportFault>
        ensures added { OnOk result (CountsMore message.now self.old self.new) }
        ensures memory { IfErr result (λ f. f ≡ ReportFault.Memory) }
    {
        let messages = self.messages.checked_add(1);
        let bytes = self.bytes.checked_add(message.len() as u64);
        let (Some(messages), Some(bytes)) = (messages, bytes) else {
            return Err(ReportFault::Memory);
        };
        *self = Count { messages, bytes };
        Ok(())
    }
}

/// Counts what is reported of messages for the switch and for the slice at each slot.
#[derive(Drop)]
pub(crate) struct Counter {
    pub(crate) lane: Count,
    pub(crate) slices: Vec<Count>,
}

impl Counter {
    /// Nothing was reported yet.
    pub(crate) fn new(alloc: Global, slices: u8) -> Result<Counter, AllocError>
        ensures { IfOk result (HasCounted slices [] (λ slot. [])) }
    {
        let mut counts = Vec::new(alloc);
        counts.resize(usize::from(slices), Count::NONE)?;
        Ok(Counter {
            lane: Count::NONE,
            slices: counts,
        })
    }

    /// Counts a message for the slice at a slot.
    fn add_at(&mut self, slot: u8, message: &[u8]) -> Result<(), ReportFault>
        ensures added { OnOk result ((name : List ℕ) → CountsLine (To slot name message.now) (Ok tt) self.old self.new) }
        ensures memory { IfErr result (λ f. f ≡ ReportFault.Memory) }
    {
        match self.slices.get_mut(usize::from(slot)) {
            Some(count) => count.add(message),
            None => Ok(()),
        }
    }
}

impl Teller for Counter {
    ghost use Rattle.fv_report.specs.Counting.{Counts};
    ghost use Rattle.event_player.specs.Telling.{ByLine};

    ghost Tells = { λ old cue outcome new. ByLine Counts old cue outcome new };

    fn come(&mut self, _: LinePlace, _: u64, _: &Event, _: &Desk) -> Result<(), ReportFault> {
        Ok(())
    }

    fn tell(&mut self, _: LinePlace, said: Said<'_>) -> Result<(), ReportFault> {
        match said {
            Said::Lane(message) => self.lane.add(message),
            Said::To(slot, _, message) => self.add_at(slot, message),
            Said::Close(_) | Said::Down => Ok(()),
        }
    }
}
