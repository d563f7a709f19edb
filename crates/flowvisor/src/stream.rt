//! Standard output and standard error as sinks. Nothing is said of what they hold.

ghost use Rattle.std.specs.Prelude.{◌≡◌, None, OnErr, OnOk};
ghost use Rattle.fv_base.specs.Told.{Rose};

use fv_cli::base::{Failed, Sink, one_more};
use std::io::Write;

/// A sink over a writer.
#[derive(Drop)]
pub struct Stream<W: Write + Drop> {
    writer: W,
    faults: u64,
}

impl<W: Write + Drop> Stream<W> {
    /// A sink that has no faults yet.
    pub fn new(writer: W) -> Stream<W> {
        Stream { writer, faults: 0 }
    }

    /// Writes what was gathered.
    pub fn finish(&mut self) -> Result<(), Failed>
        ensures calm { OnOk result (self.new.faults ≡ self.old.faults) }
        ensures cause { OnErr result (Rose self.old.faults self.new.faults) }
    {
        match self.writer.flush() {
            Ok(()) => Ok(()),
            Err(_) => {
                self.faults = one_more(self.faults);
                Err(Failed)
            }
        }
    }
}

impl<W: Write + Drop> Sink for Stream<W> {
    ghost contents = { λ _. None };

    ghost faults = { λ stream. stream.faults };

    #[inline(always)]
    fn put(&mut self, bytes: &[u8]) -> Result<usize, Failed> {
        match self.writer.write(bytes) {
            Ok(count) if count > 0 => Ok(count),
            _ => {
                self.faults = one_more(self.faults);
                Err(Failed)
            }
        }
    }
}
