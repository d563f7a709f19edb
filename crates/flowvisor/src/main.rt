//! The program: its words, the real files and streams, and the exit status.
#![tactic(auto)]

ghost use Rattle.std.specs.Prelude.{◌≡◌, ◌≢◌};
ghost use Rattle.std.specs.IoError.{error_kind};

mod clock;
#[cfg(test)]
mod dialling_tests;
mod disk;
mod help_and_version;
mod pace;
mod run;
mod sockets;
#[cfg(test)]
mod sockets_tests;
mod stream;
#[cfg(test)]
mod tests;
mod threads;

use disk::Disk;
use fv_cli::Ending;
use fv_live::{Host, Spawner, Work};
use run::{LiveWork, answer, end};
use std::alloc::{AllocFailed, Global};
use std::env;
use std::io::{self, ErrorKind};
use std::net::{Net, TcpListener, TcpStream};
use std::process::ExitCode;
use std::sync::Arc;
use std::thread::Builder;
use stream::Stream;
use threads::{Done, ThreadSpawner};

/// The stack of a thread of a session, in bytes.
const STACK: usize = 1 << 20;

/// Why the words weren't taken.
#[derive(Drop)]
enum WordsRefused {
    /// One isn't UTF-8.
    NotText,
    /// Memory ran out.
    Memory,
}

impl From<io::Error> for WordsRefused {
    fn from(error: io::Error) -> WordsRefused
        ensures memory { error_kind error ≡ ErrorKind.OutOfMemory → result ≡ WordsRefused.Memory }
        ensures other { error_kind error ≢ ErrorKind.OutOfMemory → result ≡ WordsRefused.NotText }
    {
        match error.kind() {
            ErrorKind::OutOfMemory => WordsRefused::Memory,
            _ => WordsRefused::NotText,
        }
    }
}

impl From<AllocFailed<String>> for WordsRefused {
    fn from(_refused: AllocFailed<String>) -> WordsRefused
        ensures { result ≡ WordsRefused.Memory }
    {
        WordsRefused::Memory
    }
}

/// The words behind the program's name.
fn words(rt: &HostRuntime) -> Result<Vec<String>, WordsRefused> {
    let mut words = Vec::new(rt.alloc());
    for word in env::args(rt)?.skip(1) {
        words.push(word)?;
    }
    Ok(words)
}

/// What is said of words that weren't taken.
fn ending_of(refused: &WordsRefused) -> Ending
    ensures text { refused.now ≡ WordsRefused.NotText → result ≡ Ending.Usage }
    ensures memory { refused.now ≡ WordsRefused.Memory → result ≡ Ending.NoMemory }
{
    match refused {
        WordsRefused::NotText => Ending::Usage,
        WordsRefused::Memory => Ending::NoMemory,
    }
}

/// Runs with the words of the program, over its own streams. What it serves runs on `host`, on threads that
/// `spawner` starts.
fn start<R: Host + Net<Listener = TcpListener, Stream = TcpStream>, P: Spawner<LiveWork<R>>>(
    rt: &HostRuntime,
    host: &R,
    spawner: &mut P,
) -> ExitCode
    requires can { P.can_start spawner.old }
{
    let mut err = Stream::new(rt.stderr());
    ExitCode::from(match words(rt) {
        Ok(words) => answer(
            host,
            rt.alloc(),
            &words,
            &mut Disk::new(rt),
            spawner,
            rt.stdout(),
            &mut err,
        ),
        Err(refused) => end(&mut err, &ending_of(&refused)),
    })
}

fn main(rt: HostRuntime) -> ExitCode {
    let mut spawner = ThreadSpawner::new(
        rt.alloc(),
        |work: LiveWork<HostRuntime>, done: Arc<Done, Global>| {
            let run = move || {
                work.run(&rt);
                done.say();
            };
            Builder::new().stack_size(STACK).spawn(&rt, run).ok()
        },
    );
    start(&rt, &rt, &mut spawner)
}
