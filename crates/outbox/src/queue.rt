//! The messages that wait for one connection.

ghost use Rattle.std.specs.Prelude.{ℕ, ◌≡◌, ◌≤◌, ◌<◌, ◌+◌, ◌==◌, length, slice_get, OnOk, IfSome, OnErr};
ghost use Rattle.outbox.specs.Queues.{Queue, no_messages, push, size, without_first, QueueStands};

use of10_ctl::Frame;
use std::alloc::{AllocError, Global};
use std::collections::VecDeque;
use std::marker::Model;

/// The messages that wait for one connection, the oldest first. Where one would pass the limit of bytes,
/// it and all later ones are dropped, and the outbox is choked, until it is cleared. Only `reserve` takes
/// memory.
#[derive(Drop)]
pub struct Outbox {
    frames: VecDeque<Frame>,
    /// The bytes of all frames.
    bytes: u64,
    limit: u64,
    choked: bool,
}

impl Model for Outbox {
    ghost use Rattle.std.specs.Prelude.{◌-◌};
    ghost use Rattle.std.specs.VecDeque.{deque_len, deque_capacity};
    ghost use Rattle.outbox.specs.Queues.{OutboxState};

    ghost Value = { OutboxState };

    ghost view = { λ o. record { pending = o.frames.items; choked = o.choked; bytes = o.bytes; limit = o.limit; room = deque_capacity o.frames - deque_len o.frames } };
}

impl Outbox {
    /// An empty outbox, with its limit in bytes.
    pub fn new(alloc: Global, limit: u64) -> Outbox
        ensures { QueueStands limit no_messages result }
    {
        Outbox {
            frames: VecDeque::new(alloc),
            bytes: 0,
            limit,
            choked: false,
        }
    }

    /// Takes memory for so many more messages.
    pub fn reserve(&mut self, n: u32) -> Result<(), AllocError>
        ensures room { OnOk result (n ≤ self.new.room) }
        ensures full { OnErr result (self.old.room < n) }
        ensures stands { (limit : ℕ) (q : Queue) → QueueStands limit q self.old → QueueStands limit q self.new }
        ensures kept { self.old.room ≤ self.new.room }
    {
        self.frames.reserve(n as usize)
    }

    /// For how many more messages there is memory.
    pub fn room(&self) -> usize
        ensures { result ≡ self.now.room }
    {
        self.frames.capacity() - self.frames.len()
    }

    /// Adds a message behind the others, or drops it where it would pass the limit or the outbox is choked;
    /// then the outbox is choked.
    pub fn push(&mut self, frame: Frame)
        requires { 1 ≤ self.old.room }
        ensures stands { (limit : ℕ) (q : Queue) → QueueStands limit q self.old → QueueStands limit (push limit q frame) self.new }
        ensures room { self.old.room ≤ self.new.room + 1 }
    {
        let size = frame.as_slice().len() as u64;
        if self.choked || size > self.limit.saturating_sub(self.bytes) {
            self.choked = true;
            return;
        }
        self.bytes += size;
        self.frames.push_back_reserved(frame);
    }

    /// Takes the oldest message.
    pub fn take(&mut self) -> Option<Frame>
        ensures value { (limit : ℕ) (q : Queue) → QueueStands limit q self.old → result ≡ slice_get q.pending 0 }
        ensures stands { (limit : ℕ) (q : Queue) → QueueStands limit q self.old → QueueStands limit (without_first q) self.new }
        ensures fewer { IfSome result (λ _. length self.new.pending < length self.old.pending) }
        ensures room { self.old.room ≤ self.new.room }
    {
        let frame = self.frames.pop_front()?;
        self.bytes = self.bytes.saturating_sub(frame.as_slice().len() as u64);
        Some(frame)
    }

    /// Whether no message waits.
    pub fn is_empty(&self) -> bool
        ensures value { (limit : ℕ) (q : Queue) → QueueStands limit q self.now → result ≡ (length q.pending == 0) }
        ensures kept { result ≡ (length self.now.pending == 0) }
    {
        self.frames.is_empty()
    }

    /// How many bytes wait.
    pub fn bytes(&self) -> u64
        ensures { (limit : ℕ) (q : Queue) → QueueStands limit q self.now → result ≡ size q.pending }
    {
        self.bytes
    }

    /// Whether a message was dropped since the outbox was last cleared.
    pub fn choked(&self) -> bool
        ensures value { (limit : ℕ) (q : Queue) → QueueStands limit q self.now → result ≡ q.choked }
        ensures kept { result ≡ self.now.choked }
    {
        self.choked
    }

    /// Drops all messages; the outbox is not choked any more. The memory stays.
    pub fn clear(&mut self)
        ensures stands { (limit : ℕ) (q : Queue) → QueueStands limit q self.old → QueueStands limit no_messages self.new }
        ensures room { self.old.room ≤ self.new.room }
    {
        self.frames.clear();
        self.bytes = 0;
        self.choked = false;
    }
}
