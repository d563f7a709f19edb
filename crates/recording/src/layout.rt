//! In what recordings and traces differ: how they begin, and which records they have.

ghost use Rattle.std.specs.Prelude.{◌≡◌, ◌+◌, ◌≤◌, length, OnOk, OnErr, if◌then◌else◌};
ghost use Rattle.recording.specs.Recordings.{byte_limit, carries_bytes, has_form, has_kind, is_frame_at, is_whole, magic_of};

use crate::item::{
    BYTE_LIMIT, Item, MAGIC, SENT_BYTES, SLICE_BYTES, SLICE_DOWN, SLICE_UP, SWITCH_BYTES,
    SWITCH_DOWN, SWITCHES, TRACE_MAGIC,
};
use of10_model::wire::u16_at;

/// What the records of a file say.
#[derive(Clone, Copy, Debug, PartialEq, Eq)]
pub enum Layout {
    /// What came from switches and slices: the kinds 0 to 5, whose bytes may end anywhere in a frame.
    Recording,
    /// What came from switches, frame by frame, and the frames that were sent to them for slices: the kinds
    /// 0 to 2 and 6.
    Trace,
}

/// Whether the records of the kind carry bytes.
fn carries_bytes(kind: u8) -> bool
    ensures { result ≡ carries_bytes kind }
{
    kind == SWITCH_BYTES || kind == SLICE_BYTES || kind == SENT_BYTES
}

/// How many bytes a record of the kind may carry.
fn byte_limit(kind: u8) -> usize
    ensures { result ≡ byte_limit kind }
{
    if carries_bytes(kind) {
        BYTE_LIMIT as usize
    } else {
        0
    }
}

/// Whether a record's bytes are one whole frame.
fn is_frame_at(bytes: &[u8], item: &Item) -> bool
    requires { item.now.from + item.now.size ≤ length bytes.now }
    ensures { result ≡ is_frame_at bytes.now item.now }
{
    8 <= item.size && usize::from(u16_at(bytes, item.from + 2)) == item.size
}

impl Layout {
    /// The bytes that begin a file.
    pub(crate) fn magic(self) -> [u8; 8]
        ensures { result ≡ magic_of self }
    {
        match self {
            Layout::Recording => MAGIC,
            Layout::Trace => TRACE_MAGIC,
        }
    }

    /// Whether a file has records of the kind.
    fn has_kind(self, kind: u8) -> bool
        ensures { result ≡ has_kind self kind }
    {
        match self {
            Layout::Recording => kind <= SLICE_DOWN,
            Layout::Trace => kind <= SWITCH_DOWN || kind == SENT_BYTES,
        }
    }

    /// Whether a head is of the form, under a policy of so many slices.
    pub(crate) fn has_form(self, slices: u8, reserved: u8, item: &Item) -> bool
        ensures { result ≡ has_form self slices reserved item.now }
    {
        let slot_fits = if item.kind < SLICE_UP {
            item.slot == 0
        } else {
            item.slot < slices
        };
        self.has_kind(item.kind)
            && usize::from(item.switch) < SWITCHES
            && slot_fits
            && reserved == 0
            && item.size <= byte_limit(item.kind)
    }

    /// Whether the bytes of a record are such as its kind carries.
    pub(crate) fn is_whole(self, bytes: &[u8], item: &Item) -> bool
        requires { item.now.from + item.now.size ≤ length bytes.now }
        ensures { result ≡ is_whole self bytes.now item.now }
    {
        match self {
            Layout::Recording => true,
            Layout::Trace => !carries_bytes(item.kind) || is_frame_at(bytes, item),
        }
    }
}
