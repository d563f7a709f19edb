/// Where messages of a desk go.
#[derive(Clone, Copy, Debug, PartialEq, Eq)]
pub enum Dest {
    /// To the switch.
    Switch,
    /// To the controller of the slice at a slot.
    Slice(u8),
}
