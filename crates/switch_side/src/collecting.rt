//! How entries of statistics come to what a request collects (OpenFlow 1.0.0, section 5.3.5).

ghost use Rattle.std.specs.Prelude.{ℕ, ◌≡◌, ◌+◌, ◌∷◌, List, length};
ghost use Rattle.xid_map.specs.Collections.{CollectionCall, HasRoomToCollect, CollectionsStand};
ghost use Rattle.stats_filter.specs.Keeping.{MayCome};
ghost use Rattle.slice_words.specs.Statistics.{entry_call};
ghost use Rattle.switch_side.specs.Collecting.{calls_with};

use of10_stats::{entry_size, flow_entry};
use stats_filter::type_sent;
use xid_map::{AskKind, Collections};

/// An entry comes to what the request of a kind collects; of a flow, where flows are summed, its packets and
/// bytes do.
fn add(collections: &mut Collections, number: u64, kind: AskKind, entry: &[u8])
    requires entry { MayCome kind entry.now }
    requires room { HasRoomToCollect number (length entry.now) collections.old }
    ensures stands { (calls : List CollectionCall) → CollectionsStand calls collections.old → CollectionsStand (entry_call kind number entry.now ∷ calls) collections.new }
    ensures room { (more : ℕ) → HasRoomToCollect number (length entry.now + more) collections.old → HasRoomToCollect number more collections.new }
{
    match kind {
        AskKind::Aggregate => {
            let (_, packets, bytes) = flow_entry(entry);
            collections.sum(number, packets, bytes);
        }
        _ => collections.add(number, entry),
    }
}

/// Entries come, which stand one behind another, to what the request of a kind collects. Takes no memory.
pub(crate) fn add_all(collections: &mut Collections, number: u64, kind: AskKind, entries: &[u8])
    requires { HasRoomToCollect number (length entries.now) collections.old }
    ensures { (calls : List CollectionCall) → CollectionsStand calls collections.old → CollectionsStand (calls_with kind number entries.now calls) collections.new }
{
    let Some(sent) = type_sent(kind) else {
        return;
    };
    let mut rest = entries;
    while let Some(size) = entry_size(sent, rest) {
        let (entry, later) = rest.split_at(size);
        add(collections, number, kind, entry);
        rest = later;
    }
}
