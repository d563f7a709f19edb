use crate::side::Side;
use fv_live::Host;
use std::net::{Net, TcpListener, TcpStream};

/// What a message passes before its reader asks the desk. Tests hold messages back by it.
pub trait Gate: Drop {
    /// Is called before each submit of a message. `count` is the message's place among those of this call of
    /// `run_reader`, from 0.
    fn pass<R: Host + Net<Listener = TcpListener, Stream = TcpStream>>(
        &self,
        rt: &R,
        side: Side,
        count: u64,
    );

    /// Whether `pass` may wait for other threads. Where it doesn't, the messages that came at once are asked
    /// one after another without a pause.
    fn may_wait(&self) -> bool {
        true
    }
}

/// Lets every message pass at once.
#[derive(Clone, Copy)]
pub struct OpenGate;

impl Gate for OpenGate {
    fn pass<R: Host + Net<Listener = TcpListener, Stream = TcpStream>>(
        &self,
        _rt: &R,
        _side: Side,
        _count: u64,
    ) {}

    fn may_wait(&self) -> bool {
        false
    }
}
