use crate::sockets::{SocketSink, SocketSource, halves};
use fv_base::Sink;
use fv_live::Source;
use std::io::Write;
use std::net::{Shutdown, TcpListener, TcpStream};
use std::test::Fail;
use std::thread;
use std::time::Duration;

/// A peer, and the halves of the connection to it, which may be silent for this time at its begin.
fn connected(
    rt: &HostRuntime,
    silence: Option<Duration>,
) -> Result<(TcpStream, SocketSource, SocketSink), Fail> {
    let listener = TcpListener::bind(rt, "127.0.0.1:0")?;
    let peer = TcpStream::connect(rt, listener.local_addr()?)?;
    let (stream, _) = listener.accept()?;
    let (source, sink) = halves(rt.alloc(), stream, silence)?;
    Ok((peer, source, sink))
}

#[test]
fn nothing_is_sent_to_a_peer_whose_end_was_seen(rt: HostRuntime) -> Result<(), Fail> {
    let (peer, mut source, mut sink) = connected(&rt, None)?;
    let mut piece = [0; 8];
    peer.shutdown(Shutdown::Write)?;
    assert_eq!(rt; source.take(&mut piece), Ok(0));
    assert_eq!(rt; sink.put(b"abc"), Ok(3));
    drop(source);
    assert!(rt; sink.put(b"abc").is_err());
    Ok(())
}

#[test]
fn half_that_is_dropped_before_the_end_leaves_the_other(rt: HostRuntime) -> Result<(), Fail> {
    let (mut peer, mut source, mut sink) = connected(&rt, None)?;
    let mut piece = [0; 8];
    peer.write_all(b"abc")?;
    assert_eq!(rt; source.take(&mut piece), Ok(3));
    drop(source);
    assert_eq!(rt; sink.put(b"abc"), Ok(3));
    Ok(())
}

/// How long a switch may be silent in tests.
fn silence() -> Duration {
    Duration::from_millis(50)
}

#[test]
fn switch_that_is_silent_is_a_fault(rt: HostRuntime) -> Result<(), Fail> {
    let (mut peer, mut source, _sink) = connected(&rt, Some(silence()))?;
    let mut piece = [0; 64];
    peer.write_all(&[1; 39])?;
    assert_eq!(rt; source.take(&mut piece), Ok(39));
    assert!(rt; source.take(&mut piece).is_err());
    Ok(())
}

#[test]
fn switch_that_has_told_what_it_is_may_be_silent(rt: HostRuntime) -> Result<(), Fail> {
    let (mut peer, mut source, _sink) = connected(&rt, Some(silence()))?;
    let mut piece = [0; 64];
    peer.write_all(&[1; 8])?;
    assert_eq!(rt; source.take(&mut piece), Ok(8));
    peer.write_all(&[1; 32])?;
    assert_eq!(rt; source.take(&mut piece), Ok(32));
    let (came, said) = thread::join(
        &rt,
        || source.take(&mut piece),
        || {
            thread::sleep(&rt, silence().saturating_mul(4));
            peer.write_all(b"abc")
        },
    );
    said?;
    assert_eq!(rt; came, Ok(3));
    Ok(())
}
