//! What the threads of one connection share. None of the waiting has a clause.

ghost use Rattle.std.specs.Prelude.{◌≡◌, ◌^◌, IfOk};
ghost use Rattle.std.specs.Arc.{arc_value};
ghost use Rattle.turn_desk.specs.Seats.{IsSeatOf};

use flowspace::Policy;
use fv_live::{Dialer, Wires};
use live_session::{Bells, Desk, DeskObject, Half};
use std::alloc::{AllocError, Global};
use std::sync::{Arc, Condvar, Mutex, Wait};
use turn_desk::{TurnDesk, TurnSeat};

/// How many sessions run at once.
pub(crate) const SESSIONS: u32 = 16;

/// Of how many connections threads may run at once, those included whose switch has disconnected while
/// threads of slices still dial or write.
const CONNECTIONS: u32 = 48;

// How many sessions run, and of how many connections threads do.
#[derive(Drop)]
struct Running {
    sessions: u32,
    connections: u32,
}

/// What runs.
#[derive(Drop)]
pub(crate) struct Sessions {
    running: Mutex<Running>,
}

impl Sessions {
    /// None.
    pub(crate) fn new() -> Sessions {
        Sessions {
            running: Mutex::new(Running {
                sessions: 0,
                connections: 0,
            }),
        }
    }

    /// Whether no other may run beside these.
    pub(crate) fn are_full<R: Wait>(&self, rt: &R) -> bool {
        let running = self.running.lock(rt);
        running.sessions >= SESSIONS || running.connections >= CONNECTIONS
    }

    /// One more.
    pub(crate) fn begin<R: Wait>(&self, rt: &R) {
        let mut running = self.running.lock(rt);
        running.sessions = running.sessions.saturating_add(1);
        running.connections = running.connections.saturating_add(1);
    }

    fn end_session<R: Wait>(&self, rt: &R) {
        let mut running = self.running.lock(rt);
        running.sessions = running.sessions.saturating_sub(1);
    }

    fn end_connection<R: Wait>(&self, rt: &R) {
        let mut running = self.running.lock(rt);
        running.connections = running.connections.saturating_sub(1);
    }
}

// Whether all threads of the connection were started, none before that is known; then the switch's halves
// until they are taken; and how many threads of the switch, and how many of all, haven't ended.
#[derive(Drop)]
struct Word<N: Wires> {
    started: Option<bool>,
    source: Option<N::In>,
    sink: Option<N::Out>,
    works_of_switch: u32,
    works: u32,
}

/// What the threads of one connection share.
#[derive(Drop)]
pub(crate) struct Connection<N: Wires> {
    pub(crate) alloc: Global,
    pub(crate) desk: TurnDesk<DeskObject>,
    pub(crate) bells: Bells,
    pub(crate) links: Vec<Half<<N::Dial as Dialer>::Out>>,
    word: Mutex<Word<N>>,
    given: Condvar,
    sessions: Arc<Sessions, Global>,
}

// A place for the writing half of each slice's links.
fn links<K: Drop>(alloc: Global, slices: u8) -> Result<Vec<Half<K>>, AllocError> {
    let mut links = Vec::with_capacity(alloc, usize::from(slices))?;
    for _ in 0..slices {
        links.push(Half::new(alloc)?)?;
    }
    Ok(links)
}

impl<N: Wires> Connection<N> {
    /// A connection under the policy, and the first seat of its desk.
    pub(crate) fn new(
        alloc: Global,
        policy: &Policy,
        sessions: Arc<Sessions, Global>,
    ) -> Result<(Arc<Connection<N>, Global>, TurnSeat<DeskObject>), AllocError>
        ensures seat { IfOk result (λ made. IsSeatOf (arc_value made.0).desk made.1) }
        ensures calls { IfOk result (λ made. made.1.left ≡ 2 ^ 63) }
    {
        let slices = policy.slice_count();
        let bells = Bells::new(alloc, slices)?;
        let object = DeskObject {
            alloc,
            desk: Desk::new(alloc, policy.copy(alloc)?),
            waiting: bells.waiting()?,
        };
        let (desk, seat) = TurnDesk::new(alloc, object)?;
        let connection = Connection {
            alloc,
            desk,
            bells,
            links: links(alloc, slices)?,
            word: Mutex::new(Word {
                started: None,
                source: None,
                sink: None,
                works_of_switch: 2,
                works: 2 * u32::from(slices) + 2,
            }),
            given: Condvar::new(),
            sessions,
        };
        Ok((Arc::new(alloc, connection)?, seat))
    }

    /// Gives the word that all threads were started, and with it the switch's halves.
    pub(crate) fn begin<R: Wait>(&self, rt: &R, source: N::In, sink: N::Out) {
        let mut word = self.word.lock(rt);
        word.started = Some(true);
        word.source = Some(source);
        word.sink = Some(sink);
        drop(word);
        self.given.notify_all();
    }

    /// Gives the word that a thread wasn't started.
    pub(crate) fn cancel<R: Wait>(&self, rt: &R) {
        let mut word = self.word.lock(rt);
        word.started = Some(false);
        drop(word);
        self.given.notify_all();
    }

    /// Waits for the word, and answers whether all threads were started.
    pub(crate) fn is_started<R: Wait>(&self, rt: &R) -> bool {
        let word = self
            .given
            .wait_while(rt, self.word.lock(rt), |word| word.started.is_none());
        word.started == Some(true)
    }

    /// The half that gives what the switch sends, once.
    pub(crate) fn take_source<R: Wait>(&self, rt: &R) -> Option<N::In> {
        let mut word = self.word.lock(rt);
        word.source.take()
    }

    /// The half that takes what the switch is sent, once.
    pub(crate) fn take_sink<R: Wait>(&self, rt: &R) -> Option<N::Out> {
        let mut word = self.word.lock(rt);
        word.sink.take()
    }

    /// A thread of the switch has ended. Once both have, another session may take the place of this one,
    /// though threads of its slices may still dial or write for a while.
    pub(crate) fn end_of_switch<R: Wait>(&self, rt: &R) {
        let mut word = self.word.lock(rt);
        word.works_of_switch = word.works_of_switch.saturating_sub(1);
        let is_last = word.works_of_switch == 0;
        drop(word);
        if is_last {
            self.sessions.end_session(rt);
        }
    }

    /// A thread has ended.
    pub(crate) fn end_work<R: Wait>(&self, rt: &R) {
        let mut word = self.word.lock(rt);
        word.works = word.works.saturating_sub(1);
        let is_last = word.works == 0;
        drop(word);
        if is_last {
            self.sessions.end_connection(rt);
        }
    }
}
