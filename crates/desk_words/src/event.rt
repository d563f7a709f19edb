use of10_ctl::Frame;

/// What happens at a desk: connections come and go, and messages come in on them. A slice is named by its
/// slot, its place in the policy from 0.
#[derive(Drop)]
pub enum Event {
    /// The switch connected.
    SwitchUp,
    /// A message of the switch.
    SwitchMsg(Frame),
    /// The switch's connection ended.
    SwitchDown,
    /// A slice's controller connected.
    SliceUp(u8),
    /// A message of a slice's controller.
    SliceMsg(u8, Frame),
    /// The connection of a slice's controller ended.
    SliceDown(u8),
}

/// An event and when it came.
#[derive(Drop)]
pub struct Timed {
    /// What happened.
    pub event: Event,
    /// Milliseconds, since whatever the clock counts from.
    pub moment: u64,
}
