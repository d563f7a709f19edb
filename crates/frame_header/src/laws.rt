//! Laws of the definitions. Each function's contract is the law; its body does nothing.

ghost use Rattle.std.specs.Prelude.{ℕ, List, ◌≡◌, ◌≢◌, ◌<◌, ◌++◌};
ghost use Rattle.frame_header.specs.Headers.{header_of_packet};
ghost use Rattle.frame_header.specs.Packets.{Ethernet, IsEthernet, spell_ethernet, Segment, IsSegment, proto_of, first_port, second_of, spell_segment, Ipv4, IsIpv4, spell_ipv4, ipv4_header, Arp, IsArp, spell_arp, arp_header};

/// An IPv4 packet has the fields that it is spelled from, whatever its total length says and whatever follows
/// the fields. This holds in Ethernet II or in 802.3 with SNAP, with a VLAN tag or without, with options or
/// without. Where the packet is whole, it also has the two fields of TCP, UDP or ICMP behind the options.
/// Both are 0 where the packet is of another protocol, and where it is a fragment, which has a flag for more
/// or an offset.
pub fn ipv4_packet_has_its_fields()
    ensures whole { (in_port : ℕ) (e : Ethernet) (p : Ipv4) (s : Segment) (rest : List ℕ) → IsEthernet e → IsIpv4 p → IsSegment s → p.proto ≡ proto_of s → header_of_packet in_port (spell_ethernet e 0x0800 (spell_ipv4 p 0 (spell_segment s ++ rest))) ≡ ipv4_header in_port e p (first_port s) (second_of s) }
    ensures other { (in_port : ℕ) (e : Ethernet) (p : Ipv4) (behind : List ℕ) → IsEthernet e → IsIpv4 p → p.proto ≢ 1 → p.proto ≢ 6 → p.proto ≢ 17 → header_of_packet in_port (spell_ethernet e 0x0800 (spell_ipv4 p 0 behind)) ≡ ipv4_header in_port e p 0 0 }
    ensures fragment { (in_port : ℕ) (e : Ethernet) (p : Ipv4) (fragment : ℕ) (behind : List ℕ) → IsEthernet e → IsIpv4 p → 0 < fragment → fragment < 0x4000 → header_of_packet in_port (spell_ethernet e 0x0800 (spell_ipv4 p fragment behind)) ≡ ipv4_header in_port e p 0 0 }
{}

/// An ARP packet, in Ethernet II or in 802.3 with SNAP, with a VLAN tag or without, has the operation and
/// the addresses that it is spelled from, whatever follows them.
pub fn arp_packet_has_its_fields()
    ensures { (in_port : ℕ) (e : Ethernet) (a : Arp) (behind : List ℕ) → IsEthernet e → IsArp a → header_of_packet in_port (spell_ethernet e 0x0806 (spell_arp a behind)) ≡ arp_header in_port e a }
{}
