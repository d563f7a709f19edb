//! Memory for messages that are to wait, and how they are put behind those that do.

ghost use Rattle.std.specs.Prelude.{ℕ, ◌≡◌, ◌≤◌, ◌<◌, [], length, OnOk, OnErr};
ghost use Rattle.outbox.specs.Queues.{Queue, QueueStands, waiting};
ghost use Rattle.proxy_core.specs.Slots.{HasMore};

use of10_ctl::Frame;
use outbox::Outbox;
use std::alloc::{AllocError, Global};
use std::mem;

/// Takes memory for so many more messages.
pub(crate) fn make_room(waiting: &mut Outbox, count: usize) -> Result<(), AllocError>
    ensures room { OnOk result (count ≤ waiting.new.room) }
    ensures full { OnErr result (waiting.old.room < count) }
    ensures stands { (limit : ℕ) (q : Queue) → QueueStands limit q waiting.old → QueueStands limit q waiting.new }
    ensures kept { waiting.old.room ≤ waiting.new.room }
{
    if count <= waiting.room() {
        return Ok(());
    }
    match u32::try_from(count) {
        Ok(n) => waiting.reserve(n),
        Err(_) => Err(AllocError),
    }
}

/// Adds messages, in order, for which there is room.
pub(crate) fn push_all(waiting: &mut Outbox, messages: Vec<Frame>)
    requires { length messages.items ≤ waiting.old.room }
    ensures { HasMore messages.items waiting.old waiting.new }
{
    for message in messages {
        waiting.push(message);
    }
}

/// Adds the messages of a list likewise, which is empty after it.
pub(crate) fn push_more(alloc: Global, waiting: &mut Outbox, messages: &mut Vec<Frame>)
    requires { length messages.old.items ≤ waiting.old.room }
    ensures more { HasMore messages.old.items waiting.old waiting.new }
    ensures none { messages.new.items ≡ [] }
{
    // Most messages of a switch bring none.
    if messages.is_empty() {
        return;
    }
    push_all(waiting, mem::replace(messages, Vec::new(alloc)));
}
