//! What the 40 bytes of a match spell (OpenFlow 1.0.0, section 5.2.3).

ghost use Rattle.std.specs.Prelude.{◌≡◌, ◌<◌, ◌/◌, ◌%◌, ◌^◌, if◌then◌else◌};
ghost use Rattle.of10_model.specs.Normal.{bit, leading, spelled};

use of10_model::wire::{u8_at, u16_at, u32_at, u48_at};
use of10_model::{Pattern, Prefix, has_bit, service_bits, vlan_priority};

fn unless_freed<T: Copy>(word: u32, place: u32, value: T) -> Option<T>
    requires { place < 32 }
    ensures { result ≡ (if bit word place then None else Some value) }
{
    if has_bit(word, place) {
        None
    } else {
        Some(value)
    }
}

fn ignored_bits(word: u32, place: u32) -> u8
    requires { place < 32 }
    ensures { result ≡ word / 2 ^ place % 64 }
{
    ((word >> place) & 0x3f) as u8
}

fn prefix(word: u32, place: u32, address: u32) -> Option<Prefix>
    requires { place < 32 }
    ensures { result ≡ leading word place address }
{
    let count = ignored_bits(word, place);
    if count >= 32 {
        None
    } else {
        Some(Prefix::leading(address, 32 - count))
    }
}

/// The twelve constraints as the bytes spell them.
#[tactic(auto, unfolding(of10_model::specs::Normal::spelled))]
pub fn read(bytes: &[u8; 40]) -> Pattern
    ensures { result ≡ spelled bytes.now }
{
    let word = u32_at(bytes, 0);
    Pattern {
        in_port: unless_freed(word, 0, u16_at(bytes, 4)),
        dl_src: unless_freed(word, 2, u48_at(bytes, 6)),
        dl_dst: unless_freed(word, 3, u48_at(bytes, 12)),
        dl_vlan: unless_freed(word, 1, u16_at(bytes, 18)),
        dl_vlan_pcp: unless_freed(word, 20, vlan_priority(u8_at(bytes, 20))),
        dl_type: unless_freed(word, 4, u16_at(bytes, 22)),
        nw_tos: unless_freed(word, 21, service_bits(u8_at(bytes, 24))),
        nw_proto: unless_freed(word, 5, u8_at(bytes, 25)),
        nw_src: prefix(word, 8, u32_at(bytes, 28)),
        nw_dst: prefix(word, 14, u32_at(bytes, 32)),
        tp_src: unless_freed(word, 6, u16_at(bytes, 36)),
        tp_dst: unless_freed(word, 7, u16_at(bytes, 38)),
    }
}
