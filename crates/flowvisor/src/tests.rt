ghost use Rattle.std.specs.Prelude.{true, []};
ghost use Rattle.fv_live.specs.Roles.{TheSwitch};

use crate::clock::SystemClock;
use crate::disk::Disk;
use crate::help_and_version::{HELP, VERSION};
use crate::run::{LiveWork, answer};
use crate::sockets::Sockets;
use crate::start;
use crate::stream::Stream;
use crate::threads::{Done, ThreadSpawner};
use expectations::expect_eq;
use fv_base::{Files, LoadFault, MemorySink, Sink, load_file, put_all};
use fv_live::{Clock, Dialer, Host, Source, Spawner, Wires, Work};
use std::alloc::Global;
use std::io::{self, BufWriter, Write};
use std::net::{Net, TcpListener, TcpStream};
use std::process::ExitCode;
use std::sync::Arc;
use std::sync::atomic::{AtomicU64, Ordering};
use std::test::Fail;
use std::thread::JoinHandle;
use std::time::Duration;
use std::{env, fs, process, rt, thread};

const TEXT: &[u8] = b"one\ntwo\n";

const OTHER: &[u8] = b"1st\n2nd\n";

pub const POLICY: &[u8] =
    b"version = 1\n[[slice]]\nname = \"alice\"\ncontroller = \"127.0.0.1:6633\"\n";

/// A path for a file of this process in the folder of files that don't last.
pub fn scratch_path(rt: &HostRuntime, name: &str) -> Result<String, Fail> {
    let id = process::id(rt.process());
    let folder = env::temp_dir(rt)?;
    Ok(format!(in rt.alloc(); "{}/flowvisor-test-{id}-{name}", folder.as_path().as_str())?)
}

#[test]
fn disk_loads_whole_files(rt: HostRuntime) -> Result<(), Fail> {
    let alloc = rt.alloc();
    let path = scratch_path(&rt, "whole")?;
    fs::create(&rt, path.as_str())?.write_all(TEXT)?;

    let mut disk = Disk::new(&rt);
    let bytes = load_file(alloc, &mut disk, path.as_str(), 8)
        .ok()
        .ok_or("the file is read")?;
    expect_eq!(bytes.as_slice(), TEXT);
    expect_eq!(
        load_file(alloc, &mut disk, path.as_str(), 7).err(),
        Some(LoadFault::TooLarge)
    );

    fs::remove_file(&rt, path.as_str())?;
    for nothing in [path.as_str(), "/"] {
        expect_eq!(
            load_file(alloc, &mut disk, nothing, 8).err(),
            Some(LoadFault::ReadFault)
        );
    }
    Ok(())
}

/// Parts of two bytes that are read one after the other of a file with `TEXT`: from where, and how many come. One
/// right behind the one before is read from the file that is open, any other from a file that is opened anew.
const PARTS: [(u64, usize); 11] = [
    (4, 2),
    (6, 2),
    (0, 2),
    (0, 2),
    (1, 2),
    (3, 2),
    (3, 2),
    (4, 2),
    (7, 1),
    (8, 0),
    (0, 2),
];

#[test]
fn disk_reads_parts_in_any_order(rt: HostRuntime) -> Result<(), Fail> {
    let path = scratch_path(&rt, "read")?;
    let other = scratch_path(&rt, "other")?;
    fs::create(&rt, path.as_str())?.write_all(TEXT)?;
    fs::create(&rt, other.as_str())?.write_all(OTHER)?;

    let mut disk = Disk::new(&rt);
    let mut part = [0u8; 2];
    for (from, count) in PARTS {
        expect_eq!(
            disk.read(path.as_str(), from, &mut part).ok(),
            Some(count),
            from
        );
        let there = TEXT.get(from as usize..).unwrap_or(b"");
        let came = part.get(..count).unwrap_or(b"");
        assert!(rt; there.starts_with(came), "from {from}");
    }
    // The other file is read first from where the one before was read to.
    for (from, bytes) in [(2, b"t\n"), (4, b"2n"), (0, b"1s")] {
        expect_eq!(disk.read(other.as_str(), from, &mut part).ok(), Some(2));
        expect_eq!(&part, bytes);
    }

    // A file stays open for a read that goes on, though its name is gone.
    fs::remove_file(&rt, other.as_str())?;
    expect_eq!(disk.read(other.as_str(), 2, &mut part).ok(), Some(2));
    expect_eq!(&part, b"t\n");
    fs::remove_file(&rt, path.as_str())?;
    Ok(())
}

#[test]
fn streams_write_what_is_put(rt: HostRuntime) -> Result<(), Fail> {
    let path = scratch_path(&rt, "written")?;
    let mut out = Stream::new(BufWriter::new(rt.alloc(), fs::create(&rt, path.as_str())?)?);
    assert!(rt; put_all(&mut out, TEXT).is_ok());
    assert!(rt; out.finish().is_ok());
    expect_eq!(fs::read(&rt, path.as_str())?.as_slice(), TEXT);
    fs::remove_file(&rt, path.as_str())?;

    let mut room = [0u8; 5];
    let mut narrow = Stream::new(room.as_mut_slice());
    expect_eq!(narrow.put(TEXT).ok(), Some(5));
    assert!(rt; narrow.put(&TEXT[5..]).is_err());

    let mut room = [0u8; 5];
    let mut late = Stream::new(BufWriter::new(rt.alloc(), room.as_mut_slice())?);
    assert!(rt; put_all(&mut late, TEXT).is_ok());
    assert!(rt; late.finish().is_err());
    Ok(())
}

/// An address of the loopback at which nothing listens.
pub fn free_address(rt: &HostRuntime) -> Result<String, Fail> {
    let address = TcpListener::bind(rt, "127.0.0.1:0")?.local_addr()?;
    Ok(format!(in rt.alloc(); "{address}")?)
}

#[test]
fn bytes_cross_a_connection_until_its_sink_is_dropped(rt: HostRuntime) -> Result<(), Fail> {
    let at = free_address(&rt)?;
    let mut wires = Sockets::new(rt.alloc());
    assert!(rt; wires.listen(&rt, &at).is_ok());
    let (mut there, there_sink) = wires.dialer().dial(&rt, &at, 0).ok().ok_or("dialled")?;
    let (mut here, mut here_sink) = wires.accept(&rt).ok().ok_or("accepted")?;

    let mut piece = [0; 8];
    expect_eq!(here_sink.put(b"abc"), Ok(3));
    expect_eq!(there.take(&mut piece), Ok(3));
    expect_eq!(piece.starts_with(b"abc"), true);

    drop(here_sink);
    expect_eq!(there.take(&mut piece), Ok(0));
    expect_eq!(here.take(&mut piece), Ok(0));
    drop(there_sink);
    Ok(())
}

#[test]
fn what_cannot_be_reached_is_a_fault(rt: HostRuntime) -> Result<(), Fail> {
    let mut dialer = Sockets::new(rt.alloc()).dialer();
    for to in ["127.0.0.1:1", "127.0.0.1", "127.0.0.1:port"] {
        assert!(rt; dialer.dial(&rt, to, 0).is_err(), "{to}");
    }
    assert!(rt; Sockets::new(rt.alloc()).listen(&rt, "127.0.0.1").is_err());
    Ok(())
}

/// A clock that can't be read.
#[derive(Clone, Copy)]
struct Broken;

impl rt::Clock for Broken {
    fn monotonic(&self) -> io::Result<Duration> {
        Err(io::Error::from(io::ErrorKind::Unsupported))
    }

    fn since_1970(&self) -> io::Result<Duration> {
        Err(io::Error::from(io::ErrorKind::Unsupported))
    }
}

/// The timestamp at which 2024 begins.
const YEAR_2024: u64 = 1_704_067_200_000;

#[test]
fn clock_tells_milliseconds_since_1970(rt: HostRuntime) -> Result<(), Fail> {
    let mut clock = SystemClock::new(&rt);
    let moment = clock.now();
    assert!(rt; moment > YEAR_2024 && moment < 2 * YEAR_2024);
    expect_eq!(SystemClock::new(Broken).now(), 0);
    Ok(())
}

#[derive(Drop)]
struct AddOne(Arc<AtomicU64, Global>);

impl Work for AddOne {
    ghost role = { λ work. record { served = TheSwitch; reads = true; address = [] } };

    fn run<R: Host + Net<Listener = TcpListener, Stream = TcpStream>>(self, _rt: &R) {
        self.0.fetch_add(1, Ordering::SeqCst);
    }
}

#[test]
fn each_work_runs_on_a_thread(rt: HostRuntime) -> Result<(), Fail> {
    let sum = Arc::new(rt.alloc(), AtomicU64::new(0))?;
    let mut spawner = ThreadSpawner::new(rt.alloc(), |work: AddOne, done: Arc<Done, Global>| {
        let run = move || {
            work.run(&rt);
            done.say();
        };
        thread::Builder::new()
            .stack_size(1 << 19)
            .spawn(&rt, run)
            .ok()
    });
    for _ in 0..20 {
        assert!(rt; spawner.start(&rt, AddOne(sum.clone()?)).is_ok());
    }
    spawner.finish(&rt);
    expect_eq!(sum.load(Ordering::SeqCst), 20);
    Ok(())
}

const USAGE: &str =
    "usage: flowvisor check POLICY / replay POLICY RECORDING / gen SEED COUNT / serve POLICY LISTEN COUNT / flatten OUTER NAME INNER\n";

/// The words; one that begins with `@` is the path of the scratch file of that name.
pub fn words(rt: &HostRuntime, said: &str) -> Result<Vec<String>, Fail> {
    let mut words = Vec::new(rt.alloc());
    for word in said.split_ascii_whitespace() {
        let word = match word.strip_prefix('@') {
            Some(name) => scratch_path(rt, name)?,
            None => String::from_str(rt.alloc(), word)?,
        };
        words.push(word)?;
    }
    Ok(words)
}

/// Starts no thread.
fn no_thread<R: Host>(_work: LiveWork<R>, _done: Arc<Done, Global>) -> Option<JoinHandle<()>> {
    None
}

/// What is said, how many bytes of output there is room for, and what is answered: the status, the output, and
/// the line on the error stream.
const ANSWERS: [(&str, usize, u8, &str, &str); 17] = [
    ("replay @policy @recording", 2048, 0, "end 0\n", ""),
    ("replay @policy @recording", 5, 5, "end 0", "write fault\n"),
    ("check @policy", 2048, 0, "ok 1 0\n", ""),
    ("replay @policy @missing", 2048, 4, "", "read fault\n"),
    ("replay @missing @recording", 2048, 4, "", "read fault\n"),
    ("replay / @recording", 2048, 4, "", "read fault\n"),
    ("replay @policy", 2048, 1, "", USAGE),
    ("", 2048, 1, "", USAGE),
    ("--help", 2048, 0, HELP, ""),
    ("-h", 2048, 0, HELP, ""),
    ("--version", 2048, 0, VERSION, ""),
    ("--version", 9, 5, "flowvisor", "write fault\n"),
    ("--helps", 2048, 1, "", USAGE),
    ("--help --help", 2048, 1, "", USAGE),
    ("serve @policy nowhere 1", 2048, 9, "", "wire fault\n"),
    ("serve @missing nowhere 1", 2048, 4, "", "read fault\n"),
    ("serve @policy nowhere 0", 2048, 1, "", USAGE),
];

// What the program answers without threads. Its own function, so that the test knows nothing of its contract.
fn answered<R: Host + Net<Listener = TcpListener, Stream = TcpStream>>(
    rt: &R,
    alloc: Global,
    words: &[String],
    disk: &mut Disk<'_>,
    room: &mut [u8],
    err: &mut MemorySink,
) -> u8 {
    let mut spawner = ThreadSpawner::new(alloc, no_thread);
    answer(rt, alloc, words, disk, &mut spawner, room, err)
}

/// What no output is written to.
const NOTHING: [u8; 2048] = [0; 2048];

/// Whether these bytes begin with the output, and nothing was written behind it.
fn is_output(room: &[u8], output: &[u8]) -> bool {
    room.starts_with(output) && NOTHING.ends_with(room.get(output.len()..).unwrap_or(b""))
}

fn expect_answer<R: Host + Net<Listener = TcpListener, Stream = TcpStream>>(
    rt: &R,
    disk: &mut Disk<'_>,
    words: &[String],
    row: &(&str, usize, u8, &str, &str),
    alloc: Global,
) -> Result<(), Fail> {
    let (said, size, status, output, line) = *row;
    let mut room = [0u8; 2048];
    let mut err = MemorySink::new(alloc);
    let answered = answered(
        rt,
        alloc,
        words,
        disk,
        &mut room[..size.min(2048)],
        &mut err,
    );
    expect_eq!(answered, status, said);
    expect_eq!(is_output(&room, output.as_bytes()), true, said);
    expect_eq!(err.as_slice(), line.as_bytes(), said);
    Ok(())
}

#[test]
fn words_are_answered_with_their_status(rt: HostRuntime) -> Result<(), Fail> {
    let policy = scratch_path(&rt, "policy")?;
    let recording = scratch_path(&rt, "recording")?;
    fs::create(&rt, policy.as_str())?.write_all(POLICY)?;
    fs::create(&rt, recording.as_str())?.write_all(b"FVREC\0\0\x01")?;
    for row in &ANSWERS {
        let words = words(&rt, row.0)?;
        let mut disk = Disk::new(&rt);
        expect_answer(&rt, &mut disk, &words, row, rt.alloc())?;
    }
    fs::remove_file(&rt, policy.as_str())?;
    fs::remove_file(&rt, recording.as_str())?;
    Ok(())
}

const STATUSES: &str = "\
The exit status is 0, or 1 for other words, 2 where a policy is refused or a slice can't be divided so, 3 where
the recording is refused, 4 where a file can't be read, 5 where the output can't be written, 6 where memory runs
out, 7 where a file is too large, 9 where it can't listen or accept a connection, and 10 where a thread can't be
started. Each status but 0 has a line on standard error.
";

#[test]
fn texts_say_what_each_status_means(rt: HostRuntime) -> Result<(), Fail> {
    assert!(rt; HELP.starts_with("FlowVisor for OpenFlow 1.0:"));
    assert!(rt; HELP.ends_with(STATUSES));
    assert!(rt; VERSION.starts_with("flowvisor 0."));
    Ok(())
}

#[test]
fn the_exit_status_is_that_of_the_words(rt: HostRuntime) -> Result<(), Fail> {
    // The run of the tests has no words of a form.
    let mut spawner = ThreadSpawner::new(rt.alloc(), no_thread);
    expect_eq!(start(&rt, &rt, &mut spawner), ExitCode::from(1));
    Ok(())
}
