//! What waits for the slices' controllers: memory for messages, and messages put into the queues of their slots.

ghost use Rattle.std.specs.Prelude.{ℕ, ◌≡◌, List, [], ◌∷◌, OnOk, OnErr};
ghost use Rattle.proxy_core.specs.Handing.{HasRoomAt, HasRoomForAll, HaveRoom, AreSame, AreHanded};

use crate::waiting::make_room;
use of10_ctl::Frame;
use outbox::Outbox;
use std::alloc::AllocError;

/// Takes memory for so many more messages in the queue of a slot, if there is one.
fn make_room_at(queues: &mut Vec<Outbox>, slot: u8, count: usize) -> Result<(), AllocError>
    ensures room { OnOk result (HasRoomAt slot count queues.new.items) }
    ensures more { (slot n : ℕ) → HasRoomAt slot n queues.old.items → HasRoomAt slot n queues.new.items }
    ensures same { AreSame queues.old.items queues.new.items }
    ensures full { OnErr result (¬ HasRoomAt slot count queues.old.items) }
{
    let at = usize::from(slot);
    if at < queues.len() {
        make_room(&mut queues[at], count)?;
    }
    Ok(())
}

/// Takes memory for messages in the queues of their slots.
pub(crate) fn make_rooms(
    queues: &mut Vec<Outbox>,
    messages: &[(u8, Frame)],
) -> Result<(), AllocError>
    ensures room { OnOk result (HaveRoom messages.now queues.new.items) }
    ensures same { AreSame queues.old.items queues.new.items }
    ensures full { OnErr result (¬ HasRoomForAll messages.now queues.old.items) }
{
    for at in 0..messages.len() {
        make_room_at(queues, messages[at].0, messages.len())?;
    }
    Ok(())
}

/// Puts a message into the queue of a slot, if there is one.
fn put(queues: &mut Vec<Outbox>, slot: u8, message: Frame)
    requires { HasRoomAt slot 1 queues.old.items }
    ensures handed { AreHanded ((slot, message) ∷ []) queues.old.items queues.new.items }
    ensures room { (later : List (ℕ × List ℕ)) → HaveRoom ((slot, message) ∷ later) queues.old.items → HaveRoom later queues.new.items }
{
    let at = usize::from(slot);
    if at < queues.len() {
        queues[at].push(message);
    }
}

/// Puts messages into the queues of their slots, for which there is room, after which the list is empty. One for a
/// slot that isn't there is dropped.
#[inline(always)]
pub(crate) fn hand_out(queues: &mut Vec<Outbox>, messages: &mut Vec<(u8, Frame)>)
    requires { HaveRoom messages.old.items queues.old.items }
    ensures handed { AreHanded messages.old.items queues.old.items queues.new.items }
    ensures none { messages.new.items ≡ [] }
{
    messages.reverse();
    while let Some((slot, message)) = messages.pop() {
        put(queues, slot, message);
    }
}
