ghost use Rattle.std.specs.Prelude.{◌≡◌, None, IfOk};

use crate::threads::begin;
use expectations::expect_eq;
use fv_base::{Failed, MemoryFiles, MemorySink};
use fv_live::{Links, MemoryWires, Source};
use live_samples::{ClosureSpawner, POLICY, Still, words};
use live_serve::{OpenGate, SessionWork};
use serve_samples::{Call, status};
use std::alloc::{AllocError, Global};
use std::collections::VecDeque;
use std::sync::Arc;
use std::sync::atomic::{AtomicBool, AtomicU64, Ordering};
use std::test::Fail;

const USAGE: &str = "usage: flowvisor check POLICY / replay POLICY RECORDING / gen SEED COUNT / \
serve POLICY LISTEN COUNT / flatten OUTER NAME INNER\n";

/// A call of `serve`: its words; which reads of files, which calls of `listen` and `accept`, and which starts of
/// threads fail, by their numbers from 0. And what comes of it: the status and its line, how many threads had
/// run to their ends when it answered, how many switches were listened to, and how many calls for the place
/// had failed.
#[derive(Clone, Copy)]
struct Case {
    words: &'static [&'static str],
    reads: &'static [u64],
    calls: &'static [u64],
    starts: &'static [u64],
    status: u8,
    line: &'static str,
    works: u64,
    switches: usize,
    faults: u64,
}

/// The words aren't of the form.
const REFUSED: Case = Case {
    words: &[],
    reads: &[],
    calls: &[],
    starts: &[],
    status: 1,
    line: USAGE,
    works: 0,
    switches: 0,
    faults: 0,
};

/// One switch is served: a reader and a writer for it and for each of two slices.
const SERVED: Case = Case {
    words: &["serve", "good", "here", "1"],
    status: 0,
    line: "",
    works: 6,
    switches: 1,
    ..REFUSED
};

/// Nothing is served, and nothing is listened at the place.
const NOT_SERVED: Case = Case {
    works: 0,
    switches: 0,
    ..SERVED
};

/// It can't listen, or accept a switch.
const WIRE_FAULT: Case = Case {
    status: 9,
    line: "wire fault\n",
    faults: 1,
    ..SERVED
};

/// A thread isn't started.
const NO_THREAD: Case = Case {
    status: 10,
    line: "no thread started\n",
    ..SERVED
};

const CASES: [Case; 16] = [
    SERVED,
    Case {
        words: &["serve", "good", "here", "2"],
        works: 12,
        switches: 2,
        ..SERVED
    },
    Case {
        words: &["serve", "good", "here"],
        ..REFUSED
    },
    Case {
        words: &["serve", "good", "here", "0"],
        ..REFUSED
    },
    Case {
        words: &["serve", "good", "-here", "1"],
        ..REFUSED
    },
    Case {
        words: &["check", "good"],
        ..REFUSED
    },
    Case {
        words: &["serve", "bad", "here", "1"],
        status: 2,
        line: "policy: missing version\n",
        ..NOT_SERVED
    },
    Case {
        words: &["serve", "none", "here", "1"],
        status: 4,
        line: "read fault\n",
        ..NOT_SERVED
    },
    // A call of `listen` would fail as well.
    Case {
        reads: &[0],
        calls: &[0],
        status: 4,
        line: "read fault\n",
        ..NOT_SERVED
    },
    Case {
        words: &["serve", "large", "here", "1"],
        status: 7,
        line: "too large\n",
        ..NOT_SERVED
    },
    Case {
        calls: &[0],
        works: 0,
        switches: 0,
        ..WIRE_FAULT
    },
    // The second accept fails, and a third one, for which no switch is left.
    Case {
        words: &["serve", "good", "here", "2"],
        calls: &[2],
        ..WIRE_FAULT
    },
    Case {
        words: &["serve", "good", "here", "3"],
        works: 12,
        switches: 2,
        ..WIRE_FAULT
    },
    // No thread of a connection has a half of it before all were started.
    Case {
        starts: &[0],
        works: 0,
        switches: 0,
        ..NO_THREAD
    },
    Case {
        starts: &[2],
        works: 2,
        switches: 0,
        ..NO_THREAD
    },
    Case {
        words: &["serve", "good", "here", "2"],
        starts: &[9],
        works: 9,
        ..NO_THREAD
    },
];

/// A switch that says nothing, and whether it was listened to.
#[derive(Drop)]
struct Silent {
    is_heard: Arc<AtomicBool, Global>,
}

impl Source for Silent {
    ghost left = { λ silent. None };

    ghost faults = { λ silent. 0 };

    fn take(&mut self, _into: &mut [u8]) -> Result<usize, Failed> {
        self.is_heard.store(true, Ordering::SeqCst);
        Ok(0)
    }
}

type Heard = Arc<AtomicBool, Global>;

type Ports = MemoryWires<Silent, MemorySink>;

type CallWork = SessionWork<Ports, Still, OpenGate>;

fn files(alloc: Global, failing: &[u64]) -> Result<MemoryFiles, AllocError> {
    let failing = Vec::from_slice(alloc, failing)?;
    let mut files = MemoryFiles::with_plan(alloc, usize::MAX, failing);
    files.add("good", POLICY.as_bytes())?;
    files.add("bad", b"")?;
    files.add("large", &vec![in alloc; 0; 1_048_577]?)?;
    Ok(files)
}

// These switches, no controllers, and which calls fail.
fn wires(alloc: Global, heard: &[Heard], failing: &[u64]) -> Result<Ports, AllocError>
    ensures { IfOk result (λ wires. wires.place ≡ None) }
{
    let mut connections = VecDeque::new(alloc);
    for switch in heard {
        let is_heard = Arc::try_clone(switch)?;
        connections.push_back((Silent { is_heard }, MemorySink::new(alloc)))?;
    }
    let links = Arc::new(alloc, Links::new(Vec::new(alloc), Vec::new(alloc)))?;
    let failing = Vec::from_slice(alloc, failing)?;
    Ok(MemoryWires::new(alloc, connections, failing, links))
}

/// A call, and which of two switches are listened to.
#[derive(Drop)]
struct CaseCall {
    call: Call<Ports, OpenGate>,
    heard: Vec<Heard>,
}

impl CaseCall {
    fn new(alloc: Global, case: &Case) -> Result<CaseCall, AllocError>
        ensures { IfOk result (λ call. call.call.wires.place ≡ None) }
    {
        let mut heard = Vec::new(alloc);
        for _ in 0..2 {
            heard.push(Arc::new(alloc, AtomicBool::new(false))?)?;
        }
        let call = Call {
            words: words(alloc, case.words)?,
            files: files(alloc, case.reads)?,
            wires: wires(alloc, &heard, case.calls)?,
            gate: OpenGate,
            err: MemorySink::new(alloc),
        };
        Ok(CaseCall { call, heard })
    }

    // It ended so, by when so many threads had run to their ends.
    fn expect(&self, case: &Case, status: u8, works: u64) -> Result<(), Fail> {
        let words = case.words;
        expect_eq!(status, case.status, ("status", words));
        expect_eq!(
            self.call.err.as_slice(),
            case.line.as_bytes(),
            ("line", words)
        );
        expect_eq!(works, case.works, ("works", words));
        expect_eq!(
            self.call.wires.faults("here"),
            case.faults,
            ("faults", words)
        );
        for (place, heard) in self.heard.iter().enumerate() {
            let is_heard = heard.load(Ordering::SeqCst);
            expect_eq!(is_heard, place < case.switches, ("switch", place, words));
        }
        Ok(())
    }
}

#[test]
fn calls_end_with_their_statuses_and_lines(rt: HostRuntime) -> Result<(), Fail> {
    let alloc = rt.alloc();
    for case in CASES {
        let ended = Arc::new(alloc, AtomicU64::new(0))?;
        let starts = Vec::from_slice(alloc, case.starts)?;
        let mut spawner = ClosureSpawner::new(
            alloc,
            starts,
            |work: CallWork| begin(rt, &ended, work),
        );
        let mut call = CaseCall::new(alloc, &case)?;
        let status = status(&rt, alloc, &mut call.call, &mut spawner);
        call.expect(&case, status, ended.load(Ordering::SeqCst))?;
    }
    Ok(())
}
