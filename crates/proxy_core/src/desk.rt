use crate::indexed_policy::IndexedPolicy;
use desk_words::Phase;
use flow_book::SliceState;
use flowspace::Policy;
use of10_port::Features;
use outbox::Outbox;
use port_view::PortView;
use switch_side::Spare;

/// What there is once the switch has said what it is: its part of the policy with the index of its rules, what
/// it said of itself first, and its known ports. For each slice of the policy there are a state and the
/// messages that wait for its controller.
#[derive(Drop)]
pub(crate) struct Session {
    pub(crate) policy: IndexedPolicy,
    pub(crate) features: Features,
    pub(crate) ports: PortView,
    pub(crate) states: Vec<SliceState>,
    pub(crate) queues: Vec<Outbox>,
    /// Memory of the last message of the switch, and of the list of messages that one brought.
    pub(crate) spare: Spare,
}

/// The desk of one switch. Events are stepped in one after another; the messages that they make wait until
/// they are taken.
#[derive(Drop)]
pub struct Desk {
    pub(crate) policy: Policy,
    pub(crate) phase: Phase,
    /// How many events were taken in.
    pub(crate) events: u64,
    /// The messages that wait for the switch.
    pub(crate) lane: Outbox,
    pub(crate) session: Option<Session>,
}
