//! An entry of a flow table.

use of10_action::Actions;
use of10_match::Match;

/// An entry of a flow table: which packets it is for, and what is done with them (OpenFlow 1.0.0,
/// sections 3.3 and 3.4). Cookies, counters and timeouts are left out (this proxy's own rule).
#[derive(Drop)]
pub struct FlowEntry {
    pub pattern: Match,
    /// The higher one is looked at first, behind all-exact matches.
    pub priority: u16,
    pub actions: Actions,
}
