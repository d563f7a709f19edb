//! Which entries are a slice's.

ghost use Rattle.std.specs.Prelude.{◌≡◌};
ghost use Rattle.of10_stats.specs.declared.protocol.TheConstants.{FLOW};
ghost use Rattle.of10_stats.specs.Replies.{IsEntry, IsPortEntry, entry_port, flow_of};
ghost use Rattle.flowspace.specs.Owners.{has_port};
ghost use Rattle.stats_filter.specs.Keeping.{lies_within, is_kept_entry, MayCome};

use flowspace::SwitchPolicy;
use match_meet::includes;
use of10_match::Match;
use of10_stats::{entry_port, flow_entry};
use xid_map::AskKind;

/// Whether the match lies in one of the rules that the slice writes.
fn lies_within(policy: &SwitchPolicy, slot: u8, m: &Match) -> bool
    ensures { result ≡ lies_within policy.now.rules slot m.now }
{
    let rules = policy.rules();
    for place in policy.write_places(slot) {
        if includes(&rules[usize::from(*place)].pattern, m) {
            return true;
        }
    }
    false
}

fn keeps_flow(policy: &SwitchPolicy, slot: u8, entry: &[u8]) -> bool
    requires { IsEntry FLOW entry.now }
    ensures { result ≡ lies_within policy.now.rules slot (flow_of entry.now).0 }
{
    let (pattern, _, _) = flow_entry(entry);
    lies_within(policy, slot, &pattern)
}

fn keeps_port(policy: &SwitchPolicy, slot: u8, entry: &[u8]) -> bool
    requires { IsPortEntry entry.now }
    ensures { result ≡ has_port policy.now.rules slot (entry_port entry.now) }
{
    policy.has_port(slot, entry_port(entry))
}

/// Whether a well-formed entry that came for a request of the kind is the slice's. A flow is where its match
/// lies in one of the slice's write rules. A port or a queue is where its port is the slice's. Each
/// description of the switch is. Takes no memory.
#[tactic(auto, unfolding(crate::specs::Keeping::is_own_entry))]
pub fn keep(policy: &SwitchPolicy, slot: u8, kind: AskKind, entry: &[u8]) -> bool
    requires { MayCome kind entry.now }
    ensures { result ≡ is_kept_entry policy.now.rules slot kind entry.now }
{
    match kind {
        AskKind::Flow | AskKind::Aggregate => keeps_flow(policy, slot, entry),
        AskKind::Port | AskKind::Queue => keeps_port(policy, slot, entry),
        _ => true,
    }
}
