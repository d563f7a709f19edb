//! Recordings that are made of steps: `switch up`, `alice up`, what the switch or a slice's controller says, as
//! digits, `bob down`; `at 3`, from which on the steps are of switch 3; `moment 1000`, from which on they come at that
//! timestamp, in milliseconds; `raw` and `file`, with the bytes of records, and of a file from its first byte
//! on.

use crate::fault::Fault;
use std::alloc::Global;

/// How the bytes of a connection stand in records.
#[derive(Clone, Copy)]
pub(crate) enum Cut {
    /// As the steps say.
    Whole,
    /// Each byte in a record of its own.
    Bytes,
}

const MAGIC: &str = "4656524543000001";

/// The bytes that digits spell.
pub(crate) fn bytes_of(alloc: Global, digits: &str) -> Result<Vec<u8>, Fault> {
    match hex::decode(alloc, digits) {
        Ok(bytes) => Ok(bytes),
        Err(_) => Err(Fault::Bad("the digits spell no bytes")),
    }
}

/// A recording that is made, the switch that is spoken of, and the timestamp. It begins at switch 0 and
/// timestamp 0.
#[derive(Drop)]
struct Maker {
    alloc: Global,
    bytes: Vec<u8>,
    switch: u8,
    moment: u64,
    cut: Cut,
}

impl Maker {
    /// A record of this kind and slot.
    fn put_record(&mut self, kind: u8, slot: u8, carried: &[u8]) -> Result<(), Fault> {
        let size = carried.len().min(u32::MAX as usize) as u32;
        self.bytes.extend_from_slice(&[kind, self.switch, slot, 0])?;
        self.bytes.extend_from_slice(&size.to_be_bytes())?;
        self.bytes.extend_from_slice(&self.moment.to_be_bytes())?;
        self.bytes.extend_from_slice(carried)?;
        Ok(())
    }

    /// Bytes of a connection, in one record or in many.
    fn put_bytes(&mut self, kind: u8, slot: u8, carried: &[u8]) -> Result<(), Fault> {
        match self.cut {
            Cut::Whole => self.put_record(kind, slot, carried)?,
            Cut::Bytes => {
                for byte in carried {
                    self.put_record(kind, slot, &[*byte])?;
                }
            }
        }
        Ok(())
    }

    /// A connection begins, says something, or ends. The kinds of its records follow each other from the
    /// first on.
    fn put_event(&mut self, first: u8, slot: u8, event: &str) -> Result<(), Fault> {
        match event {
            "up" => self.put_record(first, slot, &[]),
            "down" => self.put_record(first.wrapping_add(2), slot, &[]),
            digits => {
                let said = bytes_of(self.alloc, digits)?;
                self.put_bytes(first.wrapping_add(1), slot, &said)
            }
        }
    }

    fn put_step(&mut self, step: &str) -> Result<(), Fault> {
        let step = step.split_once(" ");
        let (who, event) = step.ok_or(Fault::Bad("a step has two words"))?;
        match who {
            "switch" => self.put_event(0, 0, event)?,
            "alice" => self.put_event(3, 0, event)?,
            "bob" => self.put_event(3, 1, event)?,
            "at" => self.switch = event.parse().ok().ok_or(Fault::Bad("no switch"))?,
            "moment" => self.moment = event.parse().ok().ok_or(Fault::Bad("no moment"))?,
            "raw" => {
                let bytes = bytes_of(self.alloc, event)?;
                self.bytes.extend_from_slice(&bytes)?;
            }
            "file" => self.bytes = bytes_of(self.alloc, event)?,
            _ => return Err(Fault::Bad("nobody has this name")),
        }
        Ok(())
    }
}

/// The recording of these steps, of which each has a line.
pub(crate) fn recording(alloc: Global, steps: &str, cut: Cut) -> Result<Vec<u8>, Fault> {
    let mut maker = Maker {
        alloc,
        bytes: bytes_of(alloc, MAGIC)?,
        switch: 0,
        moment: 0,
        cut,
    };
    for step in steps.lines() {
        maker.put_step(step)?;
    }
    Ok(maker.bytes)
}
