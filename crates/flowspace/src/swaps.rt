//! Port numbers that are exchanged for a slice.

ghost use Rattle.std.specs.Prelude.{◌≡◌, [], IfOk, IsTrue};
ghost use Rattle.std.specs.List.{list_any};
ghost use Rattle.flowspace.specs.Loading.{fault_of_swaps, first_along, swap_slot_fault, twice_fault};
ghost use Rattle.flowspace.specs.Swaps.{IsPlainSwap, holds_swap, is_swap_of, names_number, share_number, swaps_on};

use crate::fault::{PolicyFault, What};
use crate::limits::SWAPS;
use crate::loading::excess;
use crate::refusal::have_switch;
use of10_port::protocol::MAX;
use std::alloc::{AllocError, Global};

/// Two port numbers that are exchanged for a slice: it is shown the physical port under the number
/// `shown`, and the port of that number under the physical one.
#[derive(Clone, Copy, Debug, PartialEq, Eq)]
pub struct Swap {
    /// The slot of the slice.
    pub slice: u8,
    /// The datapath id of the switch on which the swap holds; without one it holds on each.
    pub switch: Option<u64>,
    /// At most 65,280.
    pub shown: u16,
    /// At most 65,280.
    pub physical: u16,
}

impl Swap {
    /// Whether both numbers are those of physical ports (OpenFlow 1.0.0, section 5.2.1), at most 65,280.
    /// `Policy::load_ports` takes such swaps alone.
    pub fn is_plain(&self) -> bool
        ensures plain { IsTrue result → IsPlainSwap self.now }
        ensures only { IsPlainSwap self.now → IsTrue result }
    {
        self.shown <= MAX && self.physical <= MAX
    }

    fn names(&self, number: u16) -> bool
        ensures { result ≡ names_number number self.now }
    {
        self.shown == number || self.physical == number
    }

    /// Whether the swap is one of the slice at a slot.
    pub(crate) fn is_of(&self, slot: usize) -> bool
        ensures { result ≡ is_swap_of slot self.now }
    {
        usize::from(self.slice) == slot
    }

    fn is_held(&self, datapath: u64) -> bool
        ensures { result ≡ holds_swap datapath self.now }
    {
        self.switch.is_none_or(|switch| switch == datapath)
    }
}

/// The swaps that hold on a switch, as they stand.
pub(crate) fn held_swaps(
    alloc: Global,
    swaps: &[Swap],
    datapath: u64,
) -> Result<Vec<Swap>, AllocError>
    ensures { IfOk result (λ v. v.items ≡ swaps_on datapath swaps.now) }
{
    swaps
        .iter()
        .filter(|swap| swap.is_held(datapath))
        .copied()
        .collect(alloc)
}

fn share_number(earlier: &Swap, later: &Swap) -> bool
    ensures { result ≡ share_number earlier.now later.now }
{
    (earlier.slice == later.slice && have_switch(earlier.switch, later.switch))
        && (earlier.names(later.shown) || earlier.names(later.physical))
}

fn slot_fault(slots: usize, before: &[Swap], swap: &Swap) -> Option<PolicyFault>
    ensures { result ≡ swap_slot_fault slots before.now swap.now }
{
    if usize::from(swap.slice) < slots {
        None
    } else {
        Some(PolicyFault::UnknownPortSlice(before.len() as u64))
    }
}

fn is_shared(before: &[Swap], swap: &Swap) -> bool
    ensures { result ≡ list_any (λ earlier. share_number earlier swap.now) before.now }
{
    before.iter().any(|earlier| share_number(earlier, swap))
}

fn twice_fault(before: &[Swap], swap: &Swap) -> Option<PolicyFault>
    ensures { result ≡ twice_fault before.now swap.now }
{
    let place = before.len() as u64;
    is_shared(before, swap).then_some(PolicyFault::PortTwice(place))
}

fn first_unknown(slots: usize, swaps: &[Swap]) -> Option<PolicyFault>
    ensures { result ≡ first_along (swap_slot_fault slots) [] swaps.now }
{
    for (place, swap) in swaps.iter().enumerate() {
        let fault = slot_fault(slots, &swaps[..place], swap);
        if fault.is_some() {
            return fault;
        }
    }
    None
}

fn first_twice(swaps: &[Swap]) -> Option<PolicyFault>
    ensures { result ≡ first_along twice_fault [] swaps.now }
{
    for (place, swap) in swaps.iter().enumerate() {
        let fault = twice_fault(&swaps[..place], swap);
        if fault.is_some() {
            return fault;
        }
    }
    None
}

/// The first fault of swaps where there are so many slots.
#[tactic(auto, unfolding(crate::specs::Loading::fault_of_swaps))]
pub(crate) fn fault_of_swaps(slots: usize, swaps: &[Swap]) -> Option<PolicyFault>
    ensures { result ≡ fault_of_swaps slots swaps.now }
{
    first_unknown(slots, swaps)
        .or_else(|| excess(What::Swaps, SWAPS, swaps.len()))
        .or_else(|| first_twice(swaps))
}
