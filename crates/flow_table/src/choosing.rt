//! Which entries may be chosen for a header (OpenFlow 1.0.0, section 3.4).

ghost use Rattle.std.specs.Prelude.{ℕ, ◌≡◌, ◌&&◌, leb, true, if◌then◌else◌, filter, map, IfOk};
ghost use Rattle.std.specs.List.{list_any, list_all};
ghost use Rattle.of10_model.specs.Pattern.{has};
ghost use Rattle.of10_flow.specs.Tables.{is_exact_entry, having, Treatment};
ghost use Rattle.flow_table.specs.Choosing.{is_chosen};

use of10_action::Actions;
use of10_flow::FlowEntry;
use of10_match::Header12;
use std::alloc::{AllocError, Global};

fn is_exact_for(entry: &FlowEntry, h: &Header12) -> bool
    ensures { result ≡ (has entry.now.pattern h.now && is_exact_entry entry.now) }
{
    entry.pattern.matches(h) && entry.pattern.is_exact()
}

/// Whether an all-exact entry has the header.
fn has_exact(entries: &[FlowEntry], h: &Header12) -> bool
    ensures { result ≡ list_any (λ e. has e.pattern h.now && is_exact_entry e) entries.now }
{
    entries.iter().any(|entry| is_exact_for(entry, h))
}

/// The priority of the entry where it has the header and a higher one, else the other.
fn higher(highest: u16, entry: &FlowEntry, h: &Header12) -> u16
    ensures { (p : ℕ) → leb result p ≡ (leb highest p && (if has entry.now.pattern h.now then leb entry.now.priority p else true)) }
{
    if entry.pattern.matches(h) && entry.priority > highest {
        entry.priority
    } else {
        highest
    }
}

/// The highest priority of the entries that have the header; 0 where there is none.
fn highest(entries: &[FlowEntry], h: &Header12) -> u16
    ensures { (p : ℕ) → leb result p ≡ list_all (λ e. leb e.priority p) (having h.now entries.now) }
{
    let mut highest = 0;
    for entry in entries {
        highest = higher(highest, entry, h);
    }
    highest
}

fn is_chosen(entry: &FlowEntry, h: &Header12, exact: bool, highest: u16) -> bool
    ensures { result ≡ is_chosen h.now exact highest entry.now }
{
    entry.pattern.matches(h)
        && if exact {
            entry.pattern.is_exact()
        } else {
            highest <= entry.priority
        }
}

/// The action lists of the entries that are chosen.
fn chosen_lists(
    alloc: Global,
    entries: &[FlowEntry],
    h: &Header12,
    exact: bool,
    highest: u16,
) -> Result<Vec<Actions>, AllocError>
    ensures { IfOk result (λ lists. lists.items ≡ map (λ e. e.actions) (filter (is_chosen h.now exact highest) entries.now)) }
{
    let mut lists = Vec::new(alloc);
    for entry in entries {
        if is_chosen(entry, h, exact, highest) {
            lists.push(Actions::of(alloc, entry.actions.as_slice())?)?;
        }
    }
    Ok(lists)
}

/// The action lists of the entries that may be chosen for the header.
pub(crate) fn treatment(
    alloc: Global,
    entries: &[FlowEntry],
    h: &Header12,
) -> Result<Vec<Actions>, AllocError>
    ensures { IfOk result (λ lists. lists.items ≡ Treatment entries.now h.now) }
{
    let exact = has_exact(entries, h);
    let highest = highest(entries, h);
    chosen_lists(alloc, entries, h, exact, highest)
}
