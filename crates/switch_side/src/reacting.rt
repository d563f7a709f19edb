ghost use Rattle.std.specs.Prelude.{ℕ, ◌≡◌, ◌≤◌, List, ◌∷◌, [], length, Ok, Err, IfOk, OnOk};
ghost use Rattle.of10_ctl.specs.Frames.{echo_reply_to};
ghost use Rattle.of10_message.specs.Switch.{read_switch};
ghost use Rattle.of10_message.specs.SwitchViews.{said_by};
ghost use Rattle.of10_message.specs.SwitchRanges.{IsSaid};
ghost use Rattle.flowspace.specs.Policies.{PolicyView};
ghost use Rattle.desk_words.specs.Openings.{KnownSwitch};
ghost use Rattle.desk_words.specs.Histories.{SliceSide};
ghost use Rattle.switch_side.specs.Dispatches.{Surrounds, AllStand, AllNumbered, IsDispatch};
ghost use Rattle.flow_book.specs.declared.state.SliceState.{SliceState};
ghost use Rattle.flowspace.specs.declared.rules.Rule.{Rule};
ghost use Rattle.switch_side.specs.Carrying.{IsOther, carried, telling, CallsOf, AllCalled, carried_with, carried_for};

use crate::around::Around;
use crate::dispatch::Dispatch;
use crate::errors::error;
use crate::packets::packet_in;
use crate::ports::port_status;
use crate::removals::flow_removed;
use crate::replies::{barrier, queues};
use crate::spare::Spare;
use crate::statistics::statistics;
use flow_book::SliceState;
use flowspace::SwitchPolicy;
use of10_ctl::{BodyView, Frame, echo_reply};
use of10_message::{SwitchMessageView, Unread, read_switch};
use port_view::PortView;
use rule_index::RuleIndex;
use std::alloc::{AllocError, Global};

/// The reply to an ECHO_REQUEST (OpenFlow 1.0.0, section 5.5).
fn echo(alloc: Global, xid: u32, body: &BodyView<'_>) -> Result<Dispatch, AllocError>
    ensures { IfOk result (λ d. carried d ≡ record (telling [] None) { replies = echo_reply_to xid body.now ∷ [] }) }
{
    Dispatch::replying(alloc, echo_reply(alloc, xid, body)?)
}

/// What follows from a message under a transaction id that is no PACKET_IN, by its type. Types that say nothing
/// to anybody are dropped.
#[inline(never)]
fn follow_other(
    alloc: Global,
    around: &Around<'_>,
    xid: u32,
    said: &SwitchMessageView<'_>,
) -> Result<Dispatch, AllocError>
    requires few { length around.now.states.now ≤ 32 }
    requires index { around.now.index.now ≡ around.now.policy.now.rules }
    requires said { IsSaid (said_by said.now) }
    requires other { IsOther (said_by said.now) }
    ensures { (called : ℕ → CallsOf) → AllCalled called around.now.states.now → IfOk result (λ d. carried d ≡ carried_with called around.now.policy.now.rules around.now.ports.now around.now.states.now xid (Ok (said_by said.now))) }
{
    let Around {
        policy,
        index,
        ports,
        states,
    } = *around;
    match said {
        SwitchMessageView::EchoRequest(body) => echo(alloc, xid, body),
        SwitchMessageView::FlowRemoved(removal) => flow_removed(
            alloc,
            index,
            states,
            &removal.entry(),
        ),
        SwitchMessageView::PortStatus(told) => port_status(
            alloc,
            policy,
            ports,
            states,
            &told.status(),
        ),
        SwitchMessageView::Error(fault) => error(alloc, states, xid, fault),
        SwitchMessageView::BarrierReply => barrier(alloc, states, xid),
        SwitchMessageView::QueueGetConfigReply(told) => queues(alloc, policy, states, xid, told),
        SwitchMessageView::StatsReply(part, body) => statistics(
            alloc, policy, states, xid, part, body,
        ),
        SwitchMessageView::PacketIn(_) => unreachable!(),
        SwitchMessageView::Hello
        | SwitchMessageView::EchoReply
        | SwitchMessageView::Vendor
        | SwitchMessageView::FeaturesReply(_)
        | SwitchMessageView::GetConfigReply(_) => Ok(Dispatch::nothing(alloc)),
    }
}

/// What follows from a message under a transaction id. The messages of a PACKET_IN are put into the list that is
/// there.
fn follow(
    alloc: Global,
    spare: &mut Spare,
    around: &Around<'_>,
    xid: u32,
    said: &SwitchMessageView<'_>,
) -> Result<(), AllocError>
    requires few { length around.now.states.now ≤ 32 }
    requires index { around.now.index.now ≡ around.now.policy.now.rules }
    requires said { IsSaid (said_by said.now) }
    ensures { (called : ℕ → CallsOf) → AllCalled called around.now.states.now → OnOk result (carried spare.new.dispatch ≡ carried_with called around.now.policy.now.rules around.now.ports.now around.now.states.now xid (Ok (said_by said.now))) }
{
    match said {
        SwitchMessageView::PacketIn(packet) => packet_in(
            alloc,
            spare,
            around.policy,
            around.index,
            around.states,
            packet,
        ),
        _ => {
            spare.dispatch = follow_other(alloc, around, xid, said)?;
            Ok(())
        }
    }
}

/// What follows from a message that can't be read. It is dropped, but for one whose length doesn't count its header:
/// that ends the connection.
fn unread(alloc: Global, fault: &Unread) -> Dispatch
    ensures { (called : ℕ → CallsOf) (policy : List Rule) (ports : List (List ℕ)) (states : List SliceState) (xid : ℕ) → carried result ≡ carried_with called policy ports states xid (Err fault.now) }
{
    match fault {
        Unread::BadLength => Dispatch::closing(alloc),
        _ => Dispatch::nothing(alloc),
    }
}

/// What follows from a message, which is read once.
fn dispatch(
    alloc: Global,
    spare: &mut Spare,
    around: &Around<'_>,
    frame: &Frame,
) -> Result<(), AllocError>
    requires few { length around.now.states.now ≤ 32 }
    requires index { around.now.index.now ≡ around.now.policy.now.rules }
    ensures value { (called : ℕ → CallsOf) → AllCalled called around.now.states.now → OnOk result (carried spare.new.dispatch ≡ carried_for called around.now.policy.now.rules around.now.ports.now around.now.states.now frame.now) }
    ensures right { IfOk (read_switch frame.now) IsSaid }
{
    let read = read_switch(frame);
    match &read {
        Ok(said) => follow(alloc, spare, around, frame.head().xid, said),
        Err(fault) => {
            spare.dispatch = unread(alloc, fault);
            Ok(())
        }
    }
}

/// What follows from one message of a switch that has said what it is, with the index of the policy's rules
/// and one state for each of its slices. Nothing is changed here: `changes` are for `reserve` and
/// `apply_all`, and `port` is for the known ports. A message whose length doesn't count its header ends the
/// connection; one that isn't of version 1, isn't well formed, or says nothing to anybody is dropped.
pub fn react(
    alloc: Global,
    policy: &SwitchPolicy,
    index: &RuleIndex,
    ports: &PortView,
    states: &[SliceState],
    frame: &Frame,
) -> Result<Dispatch, AllocError>
    requires count { length states.now ≡ length policy.now.slices }
    requires index { index.now ≡ policy.now.rules }
    ensures dispatch { (p : PolicyView) (switch : KnownSwitch) (sides : ℕ → SliceSide) (moment : ℕ) → Surrounds p switch policy.now ports.now → AllStand p switch sides states.now → AllNumbered p switch sides → IfOk result (IsDispatch p switch sides moment frame.now) }
{
    let mut spare = Spare::none(alloc);
    react_in(alloc, &mut spare, policy, index, ports, states, frame)?;
    let Spare { dispatch, .. } = spare;
    Ok(dispatch)
}

/// The same, where what follows stands in `spare.dispatch`: of a PACKET_IN the messages are put into the list that is
/// there, and the first of them is made in `spare.message`.
pub fn react_in(
    alloc: Global,
    spare: &mut Spare,
    policy: &SwitchPolicy,
    index: &RuleIndex,
    ports: &PortView,
    states: &[SliceState],
    frame: &Frame,
) -> Result<(), AllocError>
    requires count { length states.now ≡ length policy.now.slices }
    requires index { index.now ≡ policy.now.rules }
    ensures dispatch { (p : PolicyView) (switch : KnownSwitch) (sides : ℕ → SliceSide) (moment : ℕ) → Surrounds p switch policy.now ports.now → AllStand p switch sides states.now → AllNumbered p switch sides → OnOk result (IsDispatch p switch sides moment frame.now spare.new.dispatch) }
{
    // A policy has at most 32 slices.
    let _slices = policy.slices();
    let around = Around {
        policy,
        index,
        ports,
        states,
    };
    dispatch(alloc, spare, &around, frame)?;
    spare.dispatch.show(alloc, policy)
}
