//! How a session begins.

ghost use Rattle.std.specs.Prelude.{◌≤◌, length, IfOk, All};
ghost use Rattle.flowspace.specs.Slices.{IsPlainSlice};
ghost use Rattle.proxy_core.specs.Opening.{AreFresh, AreEmpty, Begins};

use crate::desk::Session;
use crate::indexed_policy::IndexedPolicy;
use flow_book::SliceState;
use flowspace::{Policy, Slice};
use of10_port::Features;
use outbox::Outbox;
use port_view::PortView;
use std::alloc::{AllocError, Global};
use switch_side::Spare;

/// How many bytes may wait for a slice's controller.
const SLICE_LIMIT: u64 = 4_194_304;

/// The states of slices that have seen nothing.
fn fresh_states(alloc: Global, slices: &[Slice]) -> Result<Vec<SliceState>, AllocError>
    requires plain { All IsPlainSlice slices.now }
    requires few { length slices.now ≤ 32 }
    ensures { IfOk result (λ v. AreFresh slices.now v.items) }
{
    let mut states = Vec::with_capacity(alloc, slices.len())?;
    for (place, slice) in slices.iter().enumerate() {
        states.push(SliceState::new(alloc, place as u8, slice)?)?;
    }
    Ok(states)
}

/// So many queues in which nothing waits.
fn empty_queues(alloc: Global, count: usize) -> Result<Vec<Outbox>, AllocError>
    ensures { IfOk result (λ v. AreEmpty count v.items) }
{
    let mut queues = Vec::with_capacity(alloc, count)?;
    while queues.len() < count {
        queues.push(Outbox::new(alloc, SLICE_LIMIT))?;
    }
    Ok(queues)
}

impl Session {
    /// The session that begins with what the switch said of itself.
    pub(crate) fn new(
        alloc: Global,
        policy: &Policy,
        features: Features,
    ) -> Result<Session, AllocError>
        requires { length features.ports ≤ 1364 }
        ensures { IfOk result (λ s. Begins policy.now features s) }
    {
        let slices = policy.slices();
        let own = policy.of_switch(alloc, features.datapath)?;
        Ok(Session {
            policy: IndexedPolicy::of(alloc, own)?,
            ports: PortView::new(alloc, &features)?,
            states: fresh_states(alloc, slices)?,
            queues: empty_queues(alloc, slices.len())?,
            features,
            spare: Spare::none(alloc),
        })
    }
}
