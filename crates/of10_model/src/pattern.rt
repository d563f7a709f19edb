//! Patterns: a match as constraints of the twelve fields.

ghost use Rattle.std.specs.Prelude.{◌≡◌, ◌≤◌};
ghost use Rattle.of10_model.specs.Normal.{IsPrefix, is_exact, is_whole};
ghost use Rattle.of10_model.specs.Pattern.{begins_as, leading_bits};

/// The leading bits of a network address (OpenFlow 1.0.0, section 5.2.3: a count of ignored bits).
#[derive(Clone, Copy, Debug, PartialEq, Eq)]
pub struct Prefix {
    /// How many leading bits count, from 1 to 32.
    pub bits: u8,
    /// The address; the bits that don't count are zero in a normal match.
    pub value: u32,
}

impl Prefix {
    /// One address alone.
    pub fn whole(address: u32) -> Prefix
        ensures { result ≡ record { bits = 32; value = address } }
    {
        Prefix {
            bits: 32,
            value: address,
        }
    }

    /// The addresses that begin as an address does in so many bits, from 1 to 32.
    pub fn leading(address: u32, bits: u8) -> Prefix
        requires { (1 ≤ bits) × (bits ≤ 32) }
        ensures value { result ≡ leading_bits address bits }
        ensures normal { IsPrefix (Some result) }
    {
        let ignored = 32 - bits;
        Prefix {
            bits,
            value: address >> ignored << ignored,
        }
    }

    /// Whether an address begins as the prefix does.
    pub fn begins(&self, address: u32) -> bool
        requires { IsPrefix (Some self.now) }
        ensures { result ≡ begins_as self.now address }
    {
        let ignored = 32 - self.bits;
        address >> ignored == self.value >> ignored
    }
}

/// A match as twelve constraints, one for each header field: `None` is any value, `Some` that value
/// alone, and for a network address the addresses with that prefix (OpenFlow 1.0.0, section 3.1).
#[derive(Clone, Copy, Debug, PartialEq, Eq)]
pub struct Pattern {
    pub in_port: Option<u16>,
    pub dl_src: Option<u64>,
    pub dl_dst: Option<u64>,
    pub dl_vlan: Option<u16>,
    pub dl_vlan_pcp: Option<u8>,
    pub dl_type: Option<u16>,
    pub nw_tos: Option<u8>,
    pub nw_proto: Option<u8>,
    pub nw_src: Option<Prefix>,
    pub nw_dst: Option<Prefix>,
    pub tp_src: Option<u16>,
    pub tp_dst: Option<u16>,
}

impl Prefix {
    /// Whether all bits of the address count.
    fn is_whole(&self) -> bool
        ensures { result ≡ is_whole (Some self.now) }
    {
        self.bits == 32
    }
}

impl Pattern {
    /// No field is constrained.
    pub const ANY: Pattern = Pattern {
        in_port: None,
        dl_src: None,
        dl_dst: None,
        dl_vlan: None,
        dl_vlan_pcp: None,
        dl_type: None,
        nw_tos: None,
        nw_proto: None,
        nw_src: None,
        nw_dst: None,
        tp_src: None,
        tp_dst: None,
    };

    /// Whether no field is free, and both addresses are given whole.
    pub fn is_exact(&self) -> bool
        ensures { result ≡ is_exact self.now }
    {
        self.in_port.is_some()
            && self.dl_src.is_some()
            && self.dl_dst.is_some()
            && self.dl_vlan.is_some()
            && self.dl_vlan_pcp.is_some()
            && self.dl_type.is_some()
            && self.nw_tos.is_some()
            && self.nw_proto.is_some()
            && self.nw_src.is_some_and(|prefix| prefix.is_whole())
            && self.nw_dst.is_some_and(|prefix| prefix.is_whole())
            && self.tp_src.is_some()
            && self.tp_dst.is_some()
    }
}
