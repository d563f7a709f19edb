//! The files of the system. Nothing is said of their contents.

ghost use Rattle.std.specs.Prelude.{◌≡◌, ◌≤◌, length, None, IfOk};

use fv_cli::base::{Failed, Files, one_more};
use std::fs::File;
use std::io::{self, Read, Seek, SeekFrom};

/// A file that is open, and where its next read begins.
#[derive(Drop)]
struct Opened {
    path: String,
    file: File,
    at: u64,
}

/// The system's files. The file that was read last stays open, so that one read after the other goes on
/// where it ended.
#[derive(Drop)]
pub struct Disk<'r> {
    rt: &'r HostRuntime,
    opened: Option<Opened>,
    faults: u64,
}

impl<'r> Disk<'r> {
    /// No file is open.
    pub fn new(rt: &'r HostRuntime) -> Disk<'r> {
        Disk {
            rt,
            opened: None,
            faults: 0,
        }
    }

    fn open(&self, path: &str, from: u64) -> io::Result<File> {
        let mut file = File::open(self.rt, path)?;
        if from > 0 {
            file.seek(SeekFrom::Start(from))?;
        }
        Ok(file)
    }

    // Where there is no memory for the path, the next read opens the file again.
    fn keep(&mut self, path: &str, file: File, at: u64)
        ensures { self.new.faults ≡ self.old.faults }
    {
        self.opened = match String::from_str(self.rt.alloc(), path) {
            Ok(path) => Some(Opened { path, file, at }),
            Err(_) => None,
        };
    }

    fn open_and_read(&mut self, path: &str, from: u64, into: &mut [u8]) -> io::Result<usize>
        ensures within { IfOk result (λ n. n ≤ length into.old) }
        ensures count { self.new.faults ≡ self.old.faults }
    {
        let mut file = self.open(path, from)?;
        let count = file.read(into)?;
        self.keep(path, file, from.saturating_add(count as u64));
        Ok(count)
    }

    fn read_from(&mut self, path: &str, from: u64, into: &mut [u8]) -> io::Result<usize>
        ensures within { IfOk result (λ n. n ≤ length into.old) }
        ensures count { self.new.faults ≡ self.old.faults }
    {
        let mut opened = match self.opened.take() {
            Some(opened) if opened.path.as_str() == path && opened.at == from => opened,
            _ => return self.open_and_read(path, from, into),
        };
        let count = opened.file.read(into)?;
        opened.at = from.saturating_add(count as u64);
        self.opened = Some(opened);
        Ok(count)
    }
}

impl Files for Disk<'_> {
    ghost contents = { λ _ _. None };

    ghost faults = { λ disk _. disk.faults };

    fn read(&mut self, path: &str, from: u64, into: &mut [u8]) -> Result<usize, Failed> {
        match self.read_from(path, from, into) {
            Ok(count) => Ok(count),
            Err(_) => {
                self.faults = one_more(self.faults);
                Err(Failed)
            }
        }
    }
}
