//! The texts that a lone word asks for.

ghost use Rattle.std.specs.Prelude.{◌≡◌, map, option_map, string_bytes};
ghost use Rattle.flowvisor.specs.Asked.{text_in, text_asked};

/// What `--help` prints, and `-h`.
pub const HELP: &str = "\
FlowVisor for OpenFlow 1.0: several controllers share one set of switches.

usage: flowvisor check POLICY
       flowvisor replay POLICY RECORDING
       flowvisor gen SEED COUNT
       flowvisor serve POLICY LISTEN COUNT
       flowvisor flatten OUTER NAME INNER

check says whether the policy is accepted, and how many slices and rules it has.

replay runs the recorded connections under the policy and writes the report: a line for each message that
the switches and the slices would get.

gen makes a recording of COUNT messages, at most 1,000,000, drawn from SEED, runs it under a policy of two
slices, and writes how many events there were, and how many messages and bytes the switch and each slice
would get.

serve listens at LISTEN, as 0.0.0.0:6633, and stands between each switch that connects there and the
controllers of the slices, for 16 switches at once; one more is turned away. It ends when COUNT switches have
connected, at most 1,000,000,000, and all connections have ended.

flatten prints the policy OUTER in which the holder of the slice NAME has divided it by the policy INNER: the
slices of INNER stand in the place of NAME, and have of its packets what INNER gives them.

The exit status is 0, or 1 for other words, 2 where a policy is refused or a slice can't be divided so, 3 where
the recording is refused, 4 where a file can't be read, 5 where the output can't be written, 6 where memory runs
out, 7 where a file is too large, 9 where it can't listen or accept a connection, and 10 where a thread can't be
started. Each status but 0 has a line on standard error.
";

/// What `--version` prints.
pub const VERSION: &str = "flowvisor 0.1.0 (OpenFlow 1.0, wire version 0x01)\n";

fn text_of(word: &str) -> Option<&'static str>
    ensures { option_map (λ t. t.now) result ≡ text_asked word.now }
{
    match word {
        "--help" => Some(HELP),
        "-h" => Some(HELP),
        "--version" => Some(VERSION),
        _ => None,
    }
}

/// The text that these words ask for: one word alone.
pub fn text_for(words: &[String]) -> Option<&'static str>
    ensures { option_map (λ t. t.now) result ≡ text_in (map string_bytes words.now) }
{
    match words {
        [word] => text_of(word.as_str()),
        _ => None,
    }
}
