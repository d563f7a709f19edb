//! How a call of the program ends.

ghost use Rattle.std.specs.Prelude.{◌≡◌};
ghost use Rattle.fv_cli.specs.Endings.{ending_status, ending_line, IsPut};
ghost use Rattle.fv_cli.specs.Lines.{whole_text};

use crate::base::Sink;
use crate::lines::{Line, nest_line, plain_line, policy_line, put_pieces, recording_line};
use nested_slices::NestFault;
use policy_text::ReadFault;
use recording::RecordingFault;

/// How a call of the program ends.
#[derive(Drop)]
pub enum Ending {
    /// All was done.
    Done,
    /// The words have no form.
    Usage,
    /// A file wasn't read.
    ReadFault,
    /// The output wasn't written.
    WriteFault,
    /// Memory ran out before the run.
    NoMemory,
    /// Memory ran out in the run.
    NoMemoryToRun,
    /// A file passes its limit.
    TooLarge,
    /// The policy's text gives no policy. The fault is never that memory ran out.
    PolicyRefused(ReadFault),
    /// The recording has no form. The fault is never that memory ran out.
    RecordingRefused(RecordingFault),
    /// The policy has no slice of the name.
    NoSlice,
    /// The slice can't be divided so. The fault is never that memory ran out.
    NestRefused(NestFault),
}

impl Ending {
    /// The exit status.
    pub fn status(&self) -> u8
        ensures { result ≡ ending_status self.now }
    {
        match self {
            Ending::Done => 0,
            Ending::Usage => 1,
            Ending::PolicyRefused(_) | Ending::NoSlice | Ending::NestRefused(_) => 2,
            Ending::RecordingRefused(_) => 3,
            Ending::ReadFault => 4,
            Ending::WriteFault => 5,
            Ending::NoMemory | Ending::NoMemoryToRun => 6,
            Ending::TooLarge => 7,
        }
    }

    fn line(&self) -> Line<'_>
        ensures { whole_text result ≡ ending_line self.now }
    {
        match self {
            Ending::Done => plain_line(""),
            Ending::Usage => plain_line(
                "usage: flowvisor check POLICY / replay POLICY RECORDING / gen SEED COUNT / serve POLICY LISTEN COUNT / flatten OUTER NAME INNER\n",
            ),
            Ending::ReadFault => plain_line("read fault\n"),
            Ending::WriteFault => plain_line("write fault\n"),
            Ending::NoMemory | Ending::NoMemoryToRun => plain_line("no memory\n"),
            Ending::TooLarge => plain_line("too large\n"),
            Ending::PolicyRefused(fault) => policy_line(fault),
            Ending::RecordingRefused(fault) => recording_line(*fault),
            Ending::NoSlice => plain_line("nest: no slice\n"),
            Ending::NestRefused(fault) => nest_line(*fault),
        }
    }

    /// Puts the line of the ending with its line feed, or as much of it as the sink takes; nothing where
    /// all was done. It takes no memory.
    pub fn say<E: Sink>(&self, err: &mut E)
        ensures { IsPut (ending_line self.now) (E.contents err.old) (E.contents err.new) (E.faults err.old) (E.faults err.new) }
    {
        let _ = put_pieces(err, &self.line());
    }
}
