use of10_ctl::Frame;

/// What is there to be sent.
#[derive(Drop)]
pub enum Taken {
    /// The oldest message.
    Message(Frame),
    /// Nothing now.
    Nothing,
    /// Nothing, and messages were dropped since too much was pending.
    Choked,
    /// Nothing, and nothing will come: the switch's connection has ended, there is no such slot, or the
    /// slice isn't up though the switch has said what it is.
    Ended,
    /// Nothing, since the switch hasn't connected; for a slice, since it hasn't said yet what it is.
    NotOpen,
}
