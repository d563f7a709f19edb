//! Laws of the definitions. Each function's contract is the law; its body does nothing.

ghost use Rattle.std.specs.Prelude.{ℕ, List, [], ◌∷◌, ◌≡◌, ◌<◌, ◌↔◌, IsTrue, slice_index};
ghost use Rattle.of10_model.specs.declared.pattern.Pattern.{Pattern};
ghost use Rattle.of10_model.specs.declared.protocol.TheConstants.{UNTAGGED, LAST_VLAN, LAST_VLAN_PRIORITY, IPV4, ARP, ICMP, TCP, UDP};
ghost use Rattle.of10_model.specs.Header.{Header, IsHeader};
ghost use Rattle.of10_model.specs.Pattern.{Has, has};
ghost use Rattle.of10_model.specs.Normal.{Norm, IsNormal};
ghost use Rattle.of10_model.specs.Spelling.{Spell};
ghost use Rattle.of10_model.specs.Padding.{AlikeBut};
ghost use Rattle.of10_model.specs.Same.{is_same};

/// The protocols have the numbers of IEEE 802.3 and of IP; a VLAN has 12 bits and its priority three, and
/// untagged packets have the VLAN 0xffff (OpenFlow 1.0.0, section 5.2.3).
pub fn protocols_are_numbered()
    ensures ethernet { IPV4 ∷ ARP ∷ [] ≡ 0x0800 ∷ 0x0806 ∷ [] }
    ensures ip { ICMP ∷ TCP ∷ UDP ∷ [] ≡ 1 ∷ 6 ∷ 17 ∷ [] }
    ensures vlan { LAST_VLAN ∷ LAST_VLAN_PRIORITY ∷ UNTAGGED ∷ [] ≡ 4095 ∷ 7 ∷ 0xffff ∷ [] }
{}

/// The test of membership, which computes, answers by the relation.
pub fn membership_is_decided()
    ensures { (m : Pattern) (h : Header) → IsTrue (has m h) ↔ Has m h }
{}

/// The test of two matches, which computes, says whether they are equal.
pub fn sameness_is_decided()
    ensures { (a b : Pattern) → IsTrue (is_same a b) ↔ (a ≡ b) }
{}

/// The normal form of any bytes is a normal match.
pub fn normal_form_is_normal()
    ensures { (bytes : List ℕ) → ((k : ℕ) → slice_index bytes k < 256) → IsNormal (Norm bytes) }
{}

/// The normal spelling of a normal match is read as that match.
pub fn normal_spelling_is_read_again()
    ensures { (m : Pattern) → IsNormal m → Norm (Spell m) ≡ m }
{}

/// The padding of a match says nothing: matches alike but for byte 21, or but for bytes 26 and 27, have the same
/// normal form (OpenFlow 1.0.0, section 5.2.3).
pub fn match_padding_says_nothing()
    ensures priority { (a b : List ℕ) → AlikeBut 21 22 a b → Norm a ≡ Norm b }
    ensures protocol { (a b : List ℕ) → AlikeBut 26 28 a b → Norm a ≡ Norm b }
{}

/// Every normal match has a header.
pub fn normal_match_has_header()
    ensures { (m : Pattern) → IsNormal m → (h : Header) × IsHeader h × Has m h }
{}

/// Two normal matches with the same headers are one.
pub fn normal_match_is_known_by_its_headers()
    ensures { (a b : Pattern) → IsNormal a → IsNormal b → ((h : Header) → IsHeader h → Has a h ↔ Has b h) → a ≡ b }
{}
