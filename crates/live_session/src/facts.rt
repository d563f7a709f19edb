//! What the functions of a reader are lent together.

use crate::bells::Bells;
use crate::gate::Gate;
use crate::half::Half;
use crate::side::Side;
use live_desk::DeskObject;
use std::alloc::Global;
use turn_desk::TurnDesk;

/// Whose connection a reader reads, the gate that its messages pass, and what it shares with the session's other
/// threads.
#[derive(Drop)]
pub(crate) struct ReaderFacts<'a, G: Gate> {
    pub(crate) alloc: Global,
    pub(crate) desk: &'a TurnDesk<DeskObject>,
    pub(crate) bells: &'a Bells,
    pub(crate) gate: &'a G,
    pub(crate) side: Side,
}

/// Where a slice's controller listens, and where the writing half of a link to it goes.
#[derive(Drop)]
pub(crate) struct ControllerFacts<'a, K: Drop> {
    pub(crate) address: &'a str,
    pub(crate) half: &'a Half<K>,
}
