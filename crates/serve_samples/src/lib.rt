//! Calls of `serve` whose contract says nothing, and threads: what a test proves of its own call stays small.
#![tactic(auto)]

ghost use Rattle.std.specs.Prelude.{◌≡◌, false};

use fv_base::{MemoryFiles, MemorySink, Words};
use fv_live::{Host, Spawner, Wires, Work};
use live_samples::Still;
use live_serve::{Gate, SessionWork, serve};
use std::alloc::Global;
use std::net::{Net, TcpListener, TcpStream};
use std::sync::Arc;
use std::sync::atomic::{AtomicU64, Ordering};
use std::thread::{self, JoinHandle};

/// What a call is made with beside its spawner, and what it puts.
#[derive(Drop)]
pub struct Call<N, G> {
    /// The words that it is given.
    pub words: Words,
    /// The files that it reads.
    pub files: MemoryFiles,
    /// Its connections.
    pub wires: N,
    /// What holds messages back.
    pub gate: G,
    /// The stream for errors.
    pub err: MemorySink,
}

/// What the call answers, with files and a stream for errors in memory and a clock that stands.
pub fn status<
    R: Host + Net<Listener = TcpListener, Stream = TcpStream>,
    N: Wires,
    G: Gate + Clone,
    P: Spawner<SessionWork<N, Still, G>>,
>(rt: &R, alloc: Global, call: &mut Call<N, G>, spawner: &mut P) -> u8
    requires silent { N.listens call.old.wires ≡ false }
    requires can { P.can_start spawner.old }
{
    serve(
        rt,
        alloc,
        &call.words,
        &mut call.files,
        &mut call.wires,
        &Still,
        &call.gate,
        spawner,
        &mut call.err,
    )
}

/// The thread that runs the work, and then counts itself.
pub fn begin<
    R: Host + Net<Listener = TcpListener, Stream = TcpStream> + Send + 'static,
    W: Work + Send + 'static,
>(rt: R, ended: &Arc<AtomicU64, Global>, work: W) -> Option<JoinHandle<()>> {
    let ended = Arc::try_clone(ended).ok()?;
    thread::spawn(&rt, move || {
        work.run(&rt);
        ended.fetch_add(1, Ordering::SeqCst);
    })
    .ok()
}
