//! What events make of one slice: its state, and the messages that wait for its controller.

ghost use Rattle.std.specs.Prelude.{ℕ, OnOk, OnErr, IfOk};
ghost use Rattle.outbox.specs.Queues.{Queue, no_messages, QueueStands, waiting};
ghost use Rattle.slice_words.specs.Items.{Down};
ghost use Rattle.proxy_core.specs.Slots.{Comes, Hears, IsSeen, Keeps, SameQueue};

use crate::waiting::{make_room, push_all};
use flow_book::SliceState;
use flowspace::SwitchPolicy;
use of10_ctl::kind::HELLO;
use of10_ctl::{Frame, message};
use of10_port::Features;
use outbox::Outbox;
use port_view::PortView;
use slice_side::{apply, come_up, go_down, react, reserve};
use std::alloc::{AllocError, Global};

/// The slice's controller connected: what waited is dropped, and it is greeted (OpenFlow 1.0.0, section 5.5).
pub(crate) fn come(
    alloc: Global,
    state: &mut SliceState,
    queue: &mut Outbox,
) -> Result<(), AllocError>
    ensures ok { OnOk result (Comes state.old queue.old state.new queue.new) }
    ensures err { OnErr result (Keeps state.old queue.old state.new queue.new) }
{
    let hello = message(alloc, HELLO, 0, &[])?;
    queue.reserve(1)?;
    queue.clear();
    come_up(state);
    queue.push(hello);
    Ok(())
}

/// The connection of the slice's controller ended: what waited is dropped.
pub(crate) fn go(state: &mut SliceState, waiting: &mut Outbox)
    ensures state { IsSeen Down state.old state.new }
    ensures waiting { (limit : ℕ) (q : Queue) → QueueStands limit q waiting.old → QueueStands limit no_messages waiting.new }
{
    go_down(state);
    waiting.clear();
}

/// What is known of a switch: the policy's rules there, its ports, and what it said of itself first.
#[derive(Clone, Copy)]
pub(crate) struct SwitchFacts<'a> {
    pub(crate) policy: &'a SwitchPolicy,
    pub(crate) ports: &'a PortView,
    pub(crate) features: &'a Features,
}

/// A message of a slice's controller, and the timestamp at which it came.
#[derive(Clone, Copy)]
pub(crate) struct SliceMessage<'a> {
    pub(crate) slot: u8,
    pub(crate) frame: &'a Frame,
    /// Milliseconds.
    pub(crate) moment: u64,
}

/// A message of the slice's controller, which is up. Whether its connection goes on.
pub(crate) fn hear(
    alloc: Global,
    switch: &SwitchFacts<'_>,
    message: &SliceMessage<'_>,
    state: &mut SliceState,
    queue: &mut Outbox,
    lane: &mut Outbox,
) -> Result<bool, AllocError>
    ensures ok { IfOk result (λ on. Hears switch.now.policy.now switch.now.ports.now switch.now.features.now message.now.slot message.now.frame.now message.now.moment on state.old queue.old lane.old state.new queue.new lane.new) }
    ensures err { OnErr result (Keeps state.old queue.old state.new queue.new) }
    ensures lane { OnErr result (SameQueue lane.old lane.new) }
{
    let SwitchFacts {
        policy,
        ports,
        features,
    } = *switch;
    let SliceMessage {
        slot,
        frame,
        moment,
    } = *message;
    let reaction = react(alloc, policy, ports, features, state, slot, frame, moment)?;
    make_room(queue, reaction.to_slice.len())?;
    make_room(lane, reaction.to_switch.len())?;
    reserve(state, &reaction.change)?;
    apply(state, reaction.change);
    push_all(queue, reaction.to_slice);
    push_all(lane, reaction.to_switch);
    Ok(!reaction.close)
}
