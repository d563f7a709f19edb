//! Laws of the definitions. Each function's contract is the law; its body does nothing.

ghost use Rattle.std.specs.Prelude.{ℕ, List, [], ◌∷◌, ◌≡◌, Ok};
ghost use Rattle.of10_model.specs.Padding.{AlikeBut};
ghost use Rattle.of10_ctl.specs.declared.kind.TheConstants.{FEATURES_REPLY, PORT_STATUS};
ghost use Rattle.of10_ctl.specs.Kinds.{IsOf};
ghost use Rattle.of10_port.specs.declared.features.Features.{Features};
ghost use Rattle.of10_port.specs.declared.status.PortStatus.{PortStatus};
ghost use Rattle.of10_port.specs.declared.protocol.TheConstants.{MAX, IN_PORT, TABLE, NORMAL, FLOOD, ALL, CONTROLLER, LOCAL, NONE, NO_FLOOD};
ghost use Rattle.of10_port.specs.Features.{IsFeatures, spell_features, read_features};
ghost use Rattle.of10_port.specs.PortStatus.{IsPortStatus, spell_port_status, read_port_status};

/// Physical ports end at 0xff00, the others have the numbers 0xfff8 to 0xffff, and the bit that keeps a port
/// out of a flood is the fifth (OpenFlow 1.0.0, section 5.2.1).
pub fn ports_are_numbered()
    ensures physical { MAX ≡ 0xff00 }
    ensures others { IN_PORT ∷ TABLE ∷ NORMAL ∷ FLOOD ∷ ALL ∷ CONTROLLER ∷ LOCAL ∷ NONE ∷ [] ≡ 0xfff8 ∷ 0xfff9 ∷ 0xfffa ∷ 0xfffb ∷ 0xfffc ∷ 0xfffd ∷ 0xfffe ∷ 0xffff ∷ [] }
    ensures no_flood { NO_FLOOD ≡ 16 }
{}

/// What is spelled of a switch's features is a FEATURES_REPLY, and is read as the same features.
pub fn features_are_read_again()
    ensures kind { (f : Features) (xid : ℕ) → IsFeatures f → IsOf FEATURES_REPLY (spell_features f xid) }
    ensures again { (f : Features) (xid : ℕ) → IsFeatures f → read_features (spell_features f xid) ≡ Ok f }
{}

/// What is spelled of a port's change is a PORT_STATUS, and is read as the same change.
pub fn port_status_is_read_again()
    ensures kind { (s : PortStatus) (xid : ℕ) → IsPortStatus s → IsOf PORT_STATUS (spell_port_status s xid) }
    ensures again { (s : PortStatus) (xid : ℕ) → IsPortStatus s → read_port_status (spell_port_status s xid) ≡ Ok s }
{}

/// The padding of a FEATURES_REPLY says nothing: replies alike but for bytes 21 to 23 are read alike (OpenFlow
/// 1.0.0, section 5.3.1).
pub fn features_padding_says_nothing()
    ensures { (a b : List ℕ) → AlikeBut 21 24 a b → read_features a ≡ read_features b }
{}

/// The padding of a PORT_STATUS says nothing: messages alike but for bytes 9 to 15 are read alike (OpenFlow
/// 1.0.0, section 5.4.3).
pub fn port_status_padding_says_nothing()
    ensures { (a b : List ℕ) → AlikeBut 9 16 a b → read_port_status a ≡ read_port_status b }
{}
