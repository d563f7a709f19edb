//! The outside as traits, with counts of faults; files and output in memory; the whole of a file; and
//! the program's words.
#![tactic(auto)]

mod counts;
mod memory;
mod outside;
mod transfer;
mod words;

pub use counts::Counts;
pub use memory::{MemoryFiles, MemorySink, NeverSink, Plan};
pub use outside::{Failed, Files, Sink, one_more};
pub use transfer::{LoadFault, load_file, put_all};
pub use words::{Form, Words, WordsFault, is_serve, read_words};
