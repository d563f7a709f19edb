//! How a call of `serve` ends.

ghost use Rattle.std.specs.Prelude.{◌≡◌};
ghost use Rattle.fv_cli.specs.Endings.{IsPut};
ghost use Rattle.live_serve.specs.Serving.{finish_status, finish_line, run_line};

use crate::accept::RunEnd;
use fv_base::{Sink, put_all};
use fv_cli::Ending;

/// How a call of `serve` ends.
#[derive(Drop)]
pub(crate) enum Finish {
    /// Before the run: the words have another form, or the policy isn't had.
    Early(Ending),
    Ran(RunEnd),
}

impl Finish {
    /// The exit status.
    pub(crate) fn status(&self) -> u8
        ensures { result ≡ finish_status self.now }
    {
        match self {
            Finish::Early(ending) => ending.status(),
            Finish::Ran(RunEnd::Done) => 0,
            Finish::Ran(RunEnd::NoMemory) => 6,
            Finish::Ran(RunEnd::WireFault) => 9,
            Finish::Ran(RunEnd::NoThread) => 10,
        }
    }

    /// Puts the line of the finish with its line feed, or as much of it as the sink takes; nothing where all was
    /// done. It takes no memory.
    pub(crate) fn say<E: Sink>(&self, err: &mut E)
        ensures { IsPut (finish_line self.now) (E.contents err.old) (E.contents err.new) (E.faults err.old) (E.faults err.new) }
    {
        match self {
            Finish::Early(ending) => ending.say(err),
            Finish::Ran(end) => say_text(err, run_line(*end)),
        }
    }
}

fn run_line(end: RunEnd) -> &'static str
    ensures { result.now ≡ run_line end }
{
    match end {
        RunEnd::Done => "",
        RunEnd::NoMemory => "no memory\n",
        RunEnd::WireFault => "wire fault\n",
        RunEnd::NoThread => "no thread started\n",
    }
}

fn say_text<E: Sink>(err: &mut E, text: &str)
    ensures { IsPut text.now (E.contents err.old) (E.contents err.new) (E.faults err.old) (E.faults err.new) }
{
    let _ = put_all(err, text.as_bytes());
}
