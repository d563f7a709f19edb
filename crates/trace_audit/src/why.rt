/// Why a message that was sent for a slice isn't one that the slice may have sent, in the order in which the causes
/// are looked for.
#[derive(Clone, Copy, Debug, PartialEq, Eq)]
pub enum Why {
    /// The switch hasn't said what it is, or the message is neither a well-formed flow-mod, of a command of
    /// the standard and without the flag EMERG, nor a well-formed packet-out (OpenFlow 1.0.0, sections 5.3.3
    /// and 5.3.6).
    Kind,
    /// No single rule lets the slice write the flow-mod's match, or the packet that the packet-out carries; or the
    /// packet counts as received by a port that isn't the slice's.
    Space,
    /// It names a packet that the switch doesn't keep under this number, that the slice doesn't write, or that isn't
    /// in the flow-mod's match.
    Buffer,
    /// An action is forbidden: the code of an error of type 2 (section 5.4.4: OFPET_BAD_ACTION).
    Action(u16),
}
