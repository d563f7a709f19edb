//! Which entries a flow-mod touches, and which overlap it (OpenFlow 1.0.0, section 4.6).

ghost use Rattle.std.specs.Prelude.{◌≡◌, count_by};
ghost use Rattle.std.specs.List.{list_any};
ghost use Rattle.of10_flow.specs.Tables.{describes, names_entry, outputs_to, outputs_as_asked, touches, overlaps, refuses};

use match_meet::{disjoint, includes};
use of10_action::Action;
use of10_flow::protocol::{ADD, DELETE, DELETE_STRICT, MODIFY, MODIFY_STRICT};
use of10_flow::{FlowEntry, FlowMod};
use of10_port::protocol::NONE;

fn describes(m: &FlowMod, entry: &FlowEntry) -> bool
    ensures { result ≡ describes m.now entry.now }
{
    includes(&m.pattern, &entry.pattern)
}

fn names(m: &FlowMod, entry: &FlowEntry) -> bool
    ensures { result ≡ names_entry m.now entry.now }
{
    entry.priority == m.priority && entry.pattern.is_same(&m.pattern)
}

fn outputs_to(port: u16, action: &Action) -> bool
    ensures { result ≡ outputs_to port action.now }
{
    match *action {
        Action::Output { port: to, .. } | Action::Enqueue { port: to, .. } => to == port,
        _ => false,
    }
}

fn any_outputs_to(port: u16, actions: &[Action]) -> bool
    ensures { result ≡ list_any (outputs_to port) actions.now }
{
    actions.iter().any(|action| outputs_to(port, action))
}

/// Whether the entry outputs to the flow-mod's out_port, or that is NONE, so that it doesn't count.
pub fn outputs_as_asked(m: &FlowMod, entry: &FlowEntry) -> bool
    ensures { result ≡ outputs_as_asked m.now entry.now }
{
    m.out_port == NONE || any_outputs_to(m.out_port, entry.actions.as_slice())
}

/// Whether the flow-mod changes or takes away the entry.
pub fn touches(m: &FlowMod, entry: &FlowEntry) -> bool
    ensures { result ≡ touches m.now entry.now }
{
    match m.command {
        ADD | MODIFY_STRICT => names(m, entry),
        MODIFY => describes(m, entry),
        DELETE => describes(m, entry) && outputs_as_asked(m, entry),
        DELETE_STRICT => names(m, entry) && outputs_as_asked(m, entry),
        _ => false,
    }
}

/// How many entries the flow-mod touches.
pub(crate) fn touched(m: &FlowMod, entries: &[FlowEntry]) -> usize
    ensures { result ≡ count_by (touches m.now) entries.now }
{
    entries.iter().filter(|entry| touches(m, entry)).count()
}

fn overlaps(m: &FlowMod, entry: &FlowEntry) -> bool
    ensures { result ≡ overlaps m.now entry.now }
{
    entry.priority == m.priority && !disjoint(&entry.pattern, &m.pattern)
}

fn any_overlaps(m: &FlowMod, entries: &[FlowEntry]) -> bool
    ensures { result ≡ list_any (overlaps m.now) entries.now }
{
    entries.iter().any(|entry| overlaps(m, entry))
}

/// Whether a table with these entries refuses the flow-mod.
pub(crate) fn refuses(entries: &[FlowEntry], m: &FlowMod) -> bool
    ensures { result ≡ refuses entries.now m.now }
{
    m.command == ADD && m.checks_overlap() && any_overlaps(m, entries)
}
