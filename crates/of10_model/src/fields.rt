//! The bits of a field that count (OpenFlow 1.0.0, section 5.2.3).

ghost use Rattle.std.specs.Prelude.{◌≡◌, ◌*◌, ◌/◌, ◌%◌, ◌<◌};
ghost use Rattle.of10_model.specs.Normal.{bit};

/// Whether the bit at a place is set, counted from the lowest, 0.
pub fn has_bit(word: u32, place: u32) -> bool
    requires { place < 32 }
    ensures { result ≡ bit word place }
{
    (word >> place) & 1 == 1
}

/// The VLAN number: the low 12 bits.
pub fn vlan_number(vlan: u16) -> u16
    ensures { result ≡ vlan % 4096 }
{
    vlan & 0xfff
}

/// The VLAN priority: the low three bits.
pub fn vlan_priority(priority: u8) -> u8
    ensures { result ≡ priority % 8 }
{
    priority & 7
}

/// The type of service: the high six bits, the others zero.
pub fn service_bits(service: u8) -> u8
    ensures value { result ≡ service / 4 * 4 }
    ensures low { result % 4 ≡ 0 }
{
    service & 0xfc
}
