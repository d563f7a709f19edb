ghost use Rattle.std.specs.Prelude.{false, []};
ghost use Rattle.fv_live.specs.Roles.{Role, TheSwitch};

use fv_base::Sink;
use fv_live::{Host, SharedBytes, SharedSink, Work};
use std::alloc::Global;
use std::net::{Net, TcpListener, TcpStream};
use std::sync::Arc;

// The work of a thread, which puts one byte where others see it.
#[derive(Drop)]
pub struct Note {
    pub bytes: Arc<SharedBytes, Global>,
    pub byte: u8,
}

impl Work for Note {
    ghost role = { λ note. record { served = TheSwitch; reads = false; address = [] } };

    fn run<R: Host + Net<Listener = TcpListener, Stream = TcpStream>>(self, rt: &R) {
        let mut sink = SharedSink::new(rt, self.bytes);
        let _put = sink.put(&[self.byte]);
    }
}
