/// How far the switch's connection is.
#[derive(Clone, Copy, PartialEq, Eq)]
pub enum Phase {
    /// The switch hasn't connected.
    Fresh,
    /// It has connected.
    Begun,
    /// It has said what it is.
    Opened,
    /// Its connection has ended.
    Gone,
}
