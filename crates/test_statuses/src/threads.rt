//! Threads, of which those that have ended are counted.

use fv_live::{Host, Work};
use std::alloc::Global;
use std::net::{Net, TcpListener, TcpStream};
use std::sync::Arc;
use std::sync::atomic::{AtomicU64, Ordering};
use std::thread::{self, JoinHandle};
use std::time::Duration;

/// How long a thread goes on behind its work, in milliseconds, before it counts itself: who doesn't wait for
/// the thread has gone on by then.
const BEHIND: u64 = 20;

/// The thread that runs the work, and then counts itself.
pub fn begin<
    R: Host + Net<Listener = TcpListener, Stream = TcpStream> + Send + 'static,
    W: Work + Send + 'static,
>(rt: R, ended: &Arc<AtomicU64, Global>, work: W) -> Option<JoinHandle<()>> {
    let ended = Arc::try_clone(ended).ok()?;
    thread::spawn(&rt, move || {
        work.run(&rt);
        thread::sleep(&rt, Duration::from_millis(BEHIND));
        ended.fetch_add(1, Ordering::SeqCst);
    })
    .ok()
}
