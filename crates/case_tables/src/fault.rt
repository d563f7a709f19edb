//! Why tables can't be played.

use std::alloc::{AllocError, AllocFailed};
use std::io;

/// Why tables can't be played.
#[derive(Clone, Copy)]
pub(crate) enum Fault {
    Memory,
    /// A file can't be read, or what is said can't be written.
    Outside,
    /// A line has no form.
    Bad(&'static str),
}

impl Fault {
    pub(crate) fn text(self) -> &'static str {
        match self {
            Fault::Memory => "no memory",
            Fault::Outside => "a file can't be read, or the output not written",
            Fault::Bad(text) => text,
        }
    }
}

impl From<AllocError> for Fault {
    fn from(_e: AllocError) -> Fault {
        Fault::Memory
    }
}

impl<T: Drop> From<AllocFailed<T>> for Fault {
    fn from(_e: AllocFailed<T>) -> Fault {
        Fault::Memory
    }
}

impl From<io::Error> for Fault {
    fn from(_e: io::Error) -> Fault {
        Fault::Outside
    }
}
