//! The threads of a live session: what reads and writes its connections, over one desk under a turn lock.
#![tactic(auto)]

mod bells;
mod ends;
mod facts;
mod gate;
mod half;
mod joined;
mod reader;
mod side;
mod slice;
mod turns;
mod writer;

pub use bells::Bells;
pub use ends::{ReaderEnd, SliceEnd, WriterEnd};
pub use gate::{Gate, OpenGate};
pub use half::Half;
pub use live_desk::{Desk, DeskObject, DeskOp, DeskReply, Dest, Event, Taken, Timed, Verdict};
pub use reader::{run_reader, tell_end};
pub use side::Side;
pub use slice::run_slice;
pub use writer::run_writer;
