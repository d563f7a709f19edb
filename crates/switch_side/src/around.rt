use flow_book::SliceState;
use flowspace::SwitchPolicy;
use port_view::PortView;
use rule_index::RuleIndex;

/// What is known where a message of the switch comes: the policy with the index of its rules, the ports, and what is
/// kept of each slice.
#[derive(Clone, Copy)]
pub(crate) struct Around<'a> {
    pub(crate) policy: &'a SwitchPolicy,
    pub(crate) index: &'a RuleIndex,
    pub(crate) ports: &'a PortView,
    pub(crate) states: &'a [SliceState],
}
