use of10_match::Match;
use xid_map::Asked;

/// A flow-mod that is sent on to the switch (OpenFlow 1.0.0, section 5.3.3).
#[derive(Drop)]
pub struct Modification {
    /// When it came, in milliseconds.
    pub moment: u64,
    /// The request as it is remembered.
    pub asked: Asked,
    pub command: u16,
    /// What the slice may write of its match, one for each message that is sent.
    pub pieces: Vec<Match>,
    pub priority: u16,
    /// Whether the controller wants a report when the entry is removed (SEND_FLOW_REM).
    pub asks: bool,
    /// The slice's number of the packet that it uses up, where it uses one.
    pub used: Option<u32>,
}

/// What a message of a slice changes in the slice's state. Timestamps are milliseconds.
#[derive(Drop)]
pub enum Change {
    /// A message came.
    Heard {
        moment: u64,
    },
    /// A message came that sets how many bytes of a packet the controller wants (OpenFlow 1.0.0, section
    /// 5.3.2).
    Set {
        moment: u64,
        miss_send_len: u16,
    },
    /// A message came that ends its connection.
    Dismissed {
        moment: u64,
    },
    /// A message came that is to be sent on, and asked the rate for its share; nothing is sent on for it.
    Rated {
        moment: u64,
    },
    /// A flow-mod came that is sent on.
    Modified(Modification),
    /// A packet-out came that is sent on (OpenFlow 1.0.0, section 5.3.6): the request as it is remembered,
    /// and the slice's number of the packet that it uses up, where it uses one.
    SentOut {
        moment: u64,
        asked: Asked,
        used: Option<u32>,
    },
    /// A barrier, a question for queues or a request for statistics came that is sent on (OpenFlow 1.0.0,
    /// sections 5.3.7, 5.3.4 and 5.3.5): the request as it is remembered. Statistics begin to collect.
    Inquired {
        moment: u64,
        asked: Asked,
    },
}
