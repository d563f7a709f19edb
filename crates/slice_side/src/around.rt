//! What the answers to a slice's message are made of.

ghost use Rattle.std.specs.Prelude.{ℕ, ◌≡◌, slice_get, option_map, Some};

use flow_book::SliceState;
use flowspace::SwitchPolicy;
use of10_port::Features;
use port_view::PortView;

/// What a slice is sent of its switch, and what is kept of the slice.
#[derive(Clone, Copy)]
pub(crate) struct Around<'a> {
    pub(crate) policy: &'a SwitchPolicy,
    pub(crate) ports: &'a PortView,
    pub(crate) features: &'a Features,
    pub(crate) slot: u8,
    pub(crate) state: &'a SliceState,
}

impl Around<'_> {
    /// How many entries the slice may have.
    pub(crate) fn quota(&self) -> u32
        ensures { (quota : ℕ) → option_map (λ slice. slice.quota) (slice_get self.now.policy.now.slices self.now.slot) ≡ Some quota → result ≡ quota }
    {
        match self.policy.slices().get(usize::from(self.slot)) {
            Some(slice) => slice.quota,
            None => 0,
        }
    }
}
