//! The link layer: Ethernet II, one 802.1Q tag, and 802.3 with and without SNAP.

ghost use Rattle.std.specs.Prelude.{◌≡◌, ◌/◌, ◌%◌, ◌<◌, ◌≤◌, ◌^◌};
ghost use Rattle.frame_header.specs.Links.{field_at, typed, unread, untagged, tagged_link, link_of};

use of10_model::protocol::UNTAGGED;
use of10_model::vlan_number;
use of10_model::wire::{u16_at, u48_at};

/// The type of a packet without one, in 802.3 without SNAP.
const NO_TYPE: u16 = 0x05ff;
/// The least type; a smaller number is the length of an 802.3 frame.
const LEAST_TYPE: u16 = 0x0600;

const VLAN_TAG: u16 = 0x8100;

const SNAP: u64 = 0xaaaa_0300_0000;

#[derive(Clone, Copy)]
struct TypedPayload<'a> {
    kind: u16,
    payload: &'a [u8],
}

/// The link layer without its addresses.
#[derive(Clone, Copy)]
pub struct LinkLayer<'a> {
    /// The VLAN id, 0xffff where there is no tag.
    pub vlan: u16,
    pub pcp: u8,
    pub kind: u16,
    /// What is behind the type: nothing where no later field is to be read.
    pub payload: &'a [u8],
}

/// The address in the six bytes from `at`, 0 where they aren't all there.
pub fn address_at(bytes: &[u8], at: usize) -> u64
    requires { at ≤ 6 }
    ensures value { result ≡ field_at bytes.now at 6 }
    ensures below { result < 2 ^ 48 }
{
    if at + 6 <= bytes.len() {
        u48_at(bytes, at)
    } else {
        0
    }
}

fn high_three(tag: u16) -> u8
    ensures value { result ≡ tag / 0x2000 }
    ensures below { result < 8 }
{
    (tag >> 13) as u8
}

#[tactic(auto, unfolding(crate::specs::Links::typed))]
fn typed(word: u16, rest: &[u8]) -> TypedPayload<'_>
    ensures { typed word rest.now ≡ record { kind = result.kind; payload = result.payload.now } }
{
    if word >= LEAST_TYPE {
        TypedPayload {
            kind: word,
            payload: rest,
        }
    } else if rest.len() >= 8 && u48_at(rest, 0) == SNAP {
        TypedPayload {
            kind: u16_at(rest, 6),
            payload: &rest[8..],
        }
    } else {
        TypedPayload {
            kind: NO_TYPE,
            payload: &[],
        }
    }
}

#[tactic(auto, unfolding(crate::specs::Links::tagged_link))]
fn tagged_link(rest: &[u8]) -> LinkLayer<'_>
    ensures link { tagged_link rest.now ≡ record { vlan = result.vlan; pcp = result.pcp; kind = result.kind; payload = result.payload.now } }
    ensures below { result.pcp < 8 }
{
    if rest.len() < 4 {
        return without_type();
    }
    let tag = u16_at(rest, 0);
    let TypedPayload { kind, payload } = typed(u16_at(rest, 2), &rest[4..]);
    LinkLayer {
        vlan: vlan_number(tag),
        pcp: high_three(tag),
        kind,
        payload,
    }
}

fn without_type<'a>() -> LinkLayer<'a>
    ensures { untagged (unread 0) ≡ record { vlan = result.vlan; pcp = result.pcp; kind = result.kind; payload = result.payload.now } }
{
    LinkLayer {
        vlan: UNTAGGED,
        pcp: 0,
        kind: 0,
        payload: &[],
    }
}

/// What the bytes behind the two addresses say, and the payload.
#[tactic(auto, unfolding(crate::specs::Links::link_of))]
pub fn link_of(bytes: &[u8]) -> LinkLayer<'_>
    ensures link { link_of bytes.now ≡ record { vlan = result.vlan; pcp = result.pcp; kind = result.kind; payload = result.payload.now } }
    ensures below { result.pcp < 8 }
{
    if bytes.len() < 14 {
        return without_type();
    }
    let (word, rest) = (u16_at(bytes, 12), &bytes[14..]);
    if word == VLAN_TAG {
        return tagged_link(rest);
    }
    let TypedPayload { kind, payload } = typed(word, rest);
    LinkLayer {
        vlan: UNTAGGED,
        pcp: 0,
        kind,
        payload,
    }
}
