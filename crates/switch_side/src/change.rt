use of10_action::Bytes;
use of10_match::{Header12, Match};
use xid_map::AskKind;

/// What a message of a switch changes in the state of a slice.
#[derive(Drop)]
pub enum Change {
    /// An entry was removed: its pair leaves the book.
    Released {
        pattern: Match,
        priority: u16,
    },
    /// An error came for the request of this number: what it collected is dropped. Where the error carries a
    /// pair that this request booked first, the pair leaves the book.
    Failed {
        number: u64,
        pair: Option<(Match, u16)>,
    },
    /// The slice was sent the reply to the request of this number.
    Replied {
        number: u64,
    },
    /// Of a part of statistics, after which more come, these entries are the slice's, one behind another: the
    /// request of this number and kind collects them, or sums them.
    Collected {
        number: u64,
        kind: AskKind,
        entries: Bytes,
    },
    /// The slice was sent what the request of this number collected.
    Finished {
        number: u64,
    },
    /// The switch keeps another packet under this number: what the slice held under it is lost.
    Lost {
        physical: u32,
    },
    /// The same, and the slice is given the packet that the switch keeps now.
    Given {
        physical: u32,
        header: Header12,
    },
}
