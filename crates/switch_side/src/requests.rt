//! Requests of slices, as the switch sees them.

ghost use Rattle.std.specs.Prelude.{ℕ, ◌≡◌, ◌/◌, ◌^◌, slice_get, Some, option_map, IfSome};
ghost use Rattle.switch_side.specs.Carrying.{CallsOf, AllCalled, request_seen};

use flow_book::SliceState;
use xid_map::Issued;

/// A request of the slice at a slot, with the slice's state.
#[derive(Clone, Copy)]
pub(crate) struct SeenRequest<'a> {
    pub(crate) slot: u8,
    pub(crate) state: &'a SliceState,
    pub(crate) request: Issued,
}

/// The slot of the slice whose requests have such transaction ids: the id's top byte.
pub(crate) fn slot_of(xid: u32) -> u8
    ensures { result ≡ xid / 2 ^ 24 }
{
    (xid >> 24) as u8
}

/// The request of a slice that the switch sees under a transaction id: the slice whose slot is the id's top byte is
/// asked for it.
pub(crate) fn request_seen(states: &[SliceState], xid: u32) -> Option<SeenRequest<'_>>
    ensures request { (called : ℕ → CallsOf) → AllCalled called states.now → option_map (λ seen. seen.request) result ≡ request_seen called states.now xid }
    ensures slot { IfSome result (λ seen. seen.slot ≡ xid / 2 ^ 24) }
    ensures state { IfSome result (λ seen. slice_get states.now seen.slot ≡ Some seen.state.now) }
{
    let slot = slot_of(xid);
    let Some(state) = states.get(usize::from(slot)) else {
        return None;
    };
    match state.xids.find(xid) {
        None => None,
        Some(request) => Some(SeenRequest {
            slot,
            state,
            request,
        }),
    }
}
