//! Connections over TCP. Nothing is said of what they carry.

ghost use Rattle.std.specs.Prelude.{◌≡◌, ◌≤◌, length, List, ℕ, None, true, false, is_some, IfOk, OnOk, OnErr};
ghost use Rattle.fv_base.specs.Told.{Rose};
ghost use Rattle.fv_live.specs.Wires.{place_bytes};

use crate::pace::{Pace, tries_of};
use fv_base::{Failed, Sink, one_more};
use fv_live::{Dialer, Host, Source, Wires};
use std::alloc::{AllocError, Global};
use std::io::{self, ErrorKind, Read, Write};
use std::net::{Net, Shutdown, TcpListener, TcpStream, ToSocketAddrs};
use std::rt::Clock;
use std::sync::Arc;
use std::thread;
use std::time::Duration;

/// How long a controller may take to answer a dial, in seconds.
const LONGEST_DIAL: u64 = 5;

/// The wait before another accept where there were no descriptors, or no memory of the system, in seconds.
const WAIT_FOR_ROOM: u64 = 1;

// Linux's numbers of errors that report such a lack: ENOMEM, ENFILE, EMFILE, ENOBUFS; and of one that passes,
// EPERM, by which a firewall's rules forbid a connection.
const OUT_OF_MEMORY: i32 = 12;

const FILE_TABLE_FULL: i32 = 23;

const TOO_MANY_OPEN_FILES: i32 = 24;

const NO_BUFFER_SPACE: i32 = 105;

const FORBIDDEN: i32 = 1;

// Linux's numbers of errors that an accept reports of the connection it would give: ENONET, EPROTO,
// ENOPROTOOPT, EOPNOTSUPP, EHOSTDOWN.
const NOT_ON_THE_NETWORK: i32 = 64;

const PROTOCOL_ERROR: i32 = 71;

const NO_SUCH_OPTION: i32 = 92;

const NOT_SUPPORTED: i32 = 95;

const HOST_IS_DOWN: i32 = 112;

/// How long a peer may take nothing of what it is sent, in seconds, before that is a fault.
const LONGEST_STAND: u64 = 30;

/// How long a switch may send nothing, in seconds, before it has said what it is. Longer is a fault.
const LONGEST_SILENCE: u64 = 30;

/// How many bytes a greeting and the features of a switch have at least.
const FIRST_WORDS: usize = 40;

/// The half of a connection that gives what the peer sends. Where it is dropped after the end or a fault the connection
/// ends in both directions, so that nothing waits at the other half for a peer that has disconnected.
pub struct SocketSource {
    stream: Arc<TcpStream, Global>,
    faults: u64,
    is_over: bool,
    /// How many bytes are to come yet before the peer may be silent for long.
    awaited: usize,
}

impl Drop for SocketSource {
    fn drop(self) {
        let SocketSource {
            stream,
            faults: _,
            is_over,
            awaited: _,
        } = self;
        if is_over {
            let _ = stream.shutdown(Shutdown::Both);
        }
    }
}

impl SocketSource {
    // So many bytes came.
    fn came(&mut self, count: usize)
        ensures { self.new.faults ≡ self.old.faults }
    {
        self.is_over = count == 0;
        if self.awaited == 0 {
            return;
        }
        self.awaited = self.awaited.saturating_sub(count);
        if self.awaited == 0 {
            let _ = self.stream.set_read_timeout(None);
        }
    }
}

/// The half of a connection that takes what the peer is sent. Where it is dropped the connection ends in both
/// directions, so that what waits at the other half goes on.
pub struct SocketSink {
    stream: Arc<TcpStream, Global>,
    faults: u64,
}

impl Drop for SocketSink {
    fn drop(self) {
        let SocketSink { stream, faults: _ } = self;
        let _ = stream.shutdown(Shutdown::Both);
    }
}

/// Both halves of a connection. What is put is sent at once. A peer that takes nothing for long is a fault, so that
/// one which never reads doesn't keep its session, and so is one that is silent for this time before it has
/// said what it is.
pub fn halves(
    alloc: Global,
    stream: TcpStream,
    silence: Option<Duration>,
) -> io::Result<(SocketSource, SocketSink)> {
    let _ = stream.set_nodelay(true);
    stream.set_write_timeout(Some(Duration::from_secs(LONGEST_STAND)))?;
    stream.set_read_timeout(silence)?;
    let (stream, theirs) = shared(alloc, stream).map_err(|_| io::Error::from(
        ErrorKind::OutOfMemory,
    ))?;
    let source = SocketSource {
        stream,
        faults: 0,
        is_over: false,
        awaited: if silence.is_some() { FIRST_WORDS } else { 0 },
    };
    let sink = SocketSink {
        stream: theirs,
        faults: 0,
    };
    Ok((source, sink))
}

// The one descriptor, for both halves.
fn shared(
    alloc: Global,
    stream: TcpStream,
) -> Result<(Arc<TcpStream, Global>, Arc<TcpStream, Global>), AllocError> {
    let stream = Arc::new(alloc, stream)?;
    let theirs = Arc::try_clone(&stream)?;
    Ok((stream, theirs))
}

// Reads once, and again where a signal cut that short.
fn read(mut stream: &TcpStream, into: &mut [u8]) -> io::Result<usize>
    ensures { IfOk result (λ n. n ≤ length into.old) }
{
    for _ in 0..u64::MAX {
        match stream.read(into) {
            Err(error) if error.kind() == ErrorKind::Interrupted => {}
            answer => return answer,
        }
    }
    Err(io::Error::from(ErrorKind::Interrupted))
}

// Writes once, and again where a signal cut that short.
fn write(mut stream: &TcpStream, bytes: &[u8]) -> io::Result<usize>
    ensures { IfOk result (λ n. n ≤ length bytes.now) }
{
    for _ in 0..u64::MAX {
        match stream.write(bytes) {
            Err(error) if error.kind() == ErrorKind::Interrupted => {}
            answer => return answer,
        }
    }
    Err(io::Error::from(ErrorKind::Interrupted))
}

impl Source for SocketSource {
    ghost left = { λ source. None };

    ghost faults = { λ source. source.faults };

    fn take(&mut self, into: &mut [u8]) -> Result<usize, Failed> {
        match read(&self.stream, into) {
            Ok(count) => {
                self.came(count);
                Ok(count)
            }
            Err(_) => {
                self.is_over = true;
                self.faults = one_more(self.faults);
                Err(Failed)
            }
        }
    }
}

impl Sink for SocketSink {
    ghost contents = { λ sink. None };

    ghost faults = { λ sink. sink.faults };

    fn put(&mut self, bytes: &[u8]) -> Result<usize, Failed> {
        match write(&self.stream, bytes) {
            Ok(count) if count > 0 => Ok(count),
            _ => {
                self.faults = one_more(self.faults);
                Err(Failed)
            }
        }
    }
}

/// What dials over TCP.
#[derive(Drop)]
pub struct SocketDialer {
    alloc: Global,
    faults: u64,
    pace: Pace,
}

fn connect<R: Net<Listener = TcpListener, Stream = TcpStream>>(
    rt: &R,
    alloc: Global,
    to: &str,
) -> io::Result<(SocketSource, SocketSink)> {
    for at in to.to_socket_addrs(rt)? {
        if let Ok(stream) = TcpStream::connect_timeout(rt, &at, Duration::from_secs(LONGEST_DIAL)) {
            return halves(alloc, stream, None);
        }
    }
    Err(io::Error::from(ErrorKind::NotConnected))
}

impl Dialer for SocketDialer {
    type In = SocketSource;

    type Out = SocketSink;

    ghost links = { λ dialer. None };

    ghost faults = { λ dialer _. dialer.faults };

    fn dial<R: Host + Net<Listener = TcpListener, Stream = TcpStream>>(
        &mut self,
        rt: &R,
        to: &str,
        attempt: u32,
    ) -> Result<(SocketSource, SocketSink), Failed> {
        for _ in 0..tries_of(attempt) {
            self.pace.wait(rt, attempt);
            if let Ok(halves) = connect(rt, self.alloc, to) {
                self.pace.link_came(rt);
                return Ok(halves);
            }
        }
        self.faults = one_more(self.faults);
        Err(Failed)
    }
}

/// Where switches connect to over TCP.
#[derive(Drop)]
pub struct Sockets {
    alloc: Global,
    place: Option<String>,
    listener: Option<TcpListener>,
    faults: u64,
}

impl Sockets {
    /// It doesn't listen yet.
    pub fn new(alloc: Global) -> Sockets
        ensures silent { is_some result.listener ≡ false }
    {
        Sockets {
            alloc,
            place: None,
            listener: None,
            faults: 0,
        }
    }
}

// Whether an accept failed for one connection alone, which ended before it was accepted.
fn is_of_one(error: &io::Error) -> bool {
    let is_by_kind = matches!(
        error.kind(),
        ErrorKind::Interrupted
            | ErrorKind::ConnectionAborted
            | ErrorKind::ConnectionReset
            | ErrorKind::HostUnreachable
            | ErrorKind::NetworkUnreachable
            | ErrorKind::NetworkDown
    );
    is_by_kind
        || matches!(
            error.raw_os_error(),
            Some(
                NOT_ON_THE_NETWORK | PROTOCOL_ERROR | NO_SUCH_OPTION | NOT_SUPPORTED | HOST_IS_DOWN
            )
        )
}

// Whether an accept failed since there is no more of what a connection takes: memory of the system, or descriptors.
// That passes when another connection ends. What forbids connections may pass, too.
fn is_of_want(error: &io::Error) -> bool {
    error.kind() == ErrorKind::OutOfMemory
        || matches!(
            error.raw_os_error(),
            Some(
                FORBIDDEN | OUT_OF_MEMORY | FILE_TABLE_FULL | TOO_MANY_OPEN_FILES | NO_BUFFER_SPACE
            )
        )
}

// The halves of the next connection of a switch.
fn accept_once(alloc: Global, listener: &TcpListener) -> io::Result<(SocketSource, SocketSink)> {
    let (stream, _) = listener.accept()?;
    halves(alloc, stream, Some(Duration::from_secs(LONGEST_SILENCE)))
}

fn accept<R: Clock>(
    rt: &R,
    alloc: Global,
    listener: &TcpListener,
) -> io::Result<(SocketSource, SocketSink)> {
    for _ in 0..u64::MAX {
        match accept_once(alloc, listener) {
            Ok(halves) => return Ok(halves),
            Err(error) if is_of_one(&error) => {}
            Err(error) if is_of_want(&error) => {
                thread::sleep(rt, Duration::from_secs(WAIT_FOR_ROOM));
            }
            Err(error) => return Err(error),
        }
    }
    Err(io::Error::from(ErrorKind::Interrupted))
}

impl Wires for Sockets {
    type In = SocketSource;

    type Out = SocketSink;

    type Dial = SocketDialer;

    ghost listens = { λ wires. is_some wires.listener };

    ghost place = { λ wires. place_bytes wires.place };

    ghost accepted = { λ wires. None };

    ghost faults = { λ wires _. wires.faults };

    fn listen<R: Host + Net<Listener = TcpListener, Stream = TcpStream>>(
        &mut self,
        rt: &R,
        at: &str,
    ) -> Result<(), Failed> {
        if let (Ok(place), Ok(listener)) = (
            String::from_str(self.alloc, at),
            TcpListener::bind(rt, at),
        ) {
            self.place = Some(place);
            self.listener = Some(listener);
            return Ok(());
        }
        self.faults = one_more(self.faults);
        Err(Failed)
    }

    fn accept<R: Host + Net<Listener = TcpListener, Stream = TcpStream>>(
        &mut self,
        rt: &R,
    ) -> Result<(SocketSource, SocketSink), Failed> {
        let Some(listener) = &self.listener else {
            unreachable!()
        };
        match accept(rt, self.alloc, listener) {
            Ok(halves) => Ok(halves),
            Err(_) => {
                self.faults = one_more(self.faults);
                Err(Failed)
            }
        }
    }

    fn close(&mut self) {
        self.listener = None;
    }

    fn dialer(&self) -> SocketDialer {
        SocketDialer {
            alloc: self.alloc,
            faults: 0,
            pace: Pace::new(),
        }
    }
}
