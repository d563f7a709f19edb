/// What becomes of the connection that an event came from.
#[derive(Clone, Copy, Debug, PartialEq, Eq)]
pub enum Verdict {
    /// It goes on.
    Go,
    /// It is to be closed.
    Close,
    /// The switch's connection has ended, and with it the desk; or there were 2^60 events.
    Ended,
}
