/// What a request asks the switch for.
#[derive(Clone, Copy, PartialEq, Eq)]
pub enum AskKind {
    /// A change of the flow table (OpenFlow 1.0.0, section 5.3.3).
    FlowMod,
    /// A packet to be sent (OpenFlow 1.0.0, section 5.3.6).
    PacketOut,
    /// A barrier (OpenFlow 1.0.0, section 5.3.7).
    Barrier,
    /// The queues of a port (OpenFlow 1.0.0, section 5.3.4).
    QueueConfig,
    /// What the switch is (OpenFlow 1.0.0, section 5.3.5).
    Desc,
    /// Statistics of single flows (OpenFlow 1.0.0, section 5.3.5).
    Flow,
    /// The sum of the statistics of flows (OpenFlow 1.0.0, section 5.3.5).
    Aggregate,
    /// Statistics of ports (OpenFlow 1.0.0, section 5.3.5).
    Port,
    /// Statistics of queues (OpenFlow 1.0.0, section 5.3.5).
    Queue,
}

/// A message of the slice that is sent on to the switch.
#[derive(Clone, Copy, PartialEq, Eq)]
pub struct Asked {
    /// The slice's own transaction id.
    pub xid: u32,
    /// The first bytes of the message, as an error carries them (OpenFlow 1.0.0, section 5.4.4).
    pub first: [u8; 64],
    /// How many of `first` the message has.
    pub first_len: u8,
    pub kind: AskKind,
    /// The port that is asked for, where the kind has one.
    pub port: u16,
}

/// A request that was issued.
#[derive(Clone, Copy, PartialEq, Eq)]
pub struct Issued {
    /// How many requests were issued before it.
    pub number: u64,
    pub asked: Asked,
    /// The switch answered it with an error.
    pub failed: bool,
    /// The switch's reply came.
    pub done: bool,
}
