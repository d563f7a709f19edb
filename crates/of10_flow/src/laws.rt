//! Laws of the definitions. Each function's contract is the law; its body does nothing.

ghost use Rattle.std.specs.Prelude.{ℕ, List, [], ◌∷◌, ◌≡◌, Ok};
ghost use Rattle.of10_model.specs.Padding.{AlikeBut};
ghost use Rattle.of10_ctl.specs.declared.kind.TheConstants.{PACKET_IN, FLOW_REMOVED, PACKET_OUT, FLOW_MOD};
ghost use Rattle.of10_ctl.specs.Kinds.{IsOf};
ghost use Rattle.of10_flow.specs.declared.flow_mod.FlowMod.{FlowMod};
ghost use Rattle.of10_flow.specs.declared.flow_removed.FlowRemoved.{FlowRemoved};
ghost use Rattle.of10_flow.specs.declared.packet_in.PacketIn.{PacketIn};
ghost use Rattle.of10_flow.specs.declared.packet_out.PacketOut.{PacketOut};
ghost use Rattle.of10_flow.specs.declared.protocol.TheConstants.{NO_BUFFER, ADD, MODIFY, MODIFY_STRICT, DELETE, DELETE_STRICT, SEND_FLOW_REM, CHECK_OVERLAP, EMERG, FLOW_MOD_FIELDS, MOST_ACTION_BYTES};
ghost use Rattle.of10_flow.specs.FlowMods.{IsFlowMod, spell_flow_mod, read_flow_mod};
ghost use Rattle.of10_flow.specs.FlowRemoveds.{IsFlowRemoved, spell_flow_removed, read_flow_removed};
ghost use Rattle.of10_flow.specs.PacketIns.{IsPacketIn, spell_packet_in, read_packet_in};
ghost use Rattle.of10_flow.specs.PacketOuts.{IsPacketOut, spell_packet_out, read_packet_out};

/// Commands of a flow-mod have the numbers 0 to 4, its flags are the three low bits, and no buffer is the
/// greatest number. 72 bytes stand before its actions, and the actions have at most 65,463 bytes (OpenFlow
/// 1.0.0, sections 5.1 and 5.3.3).
pub fn commands_and_flags_are_numbered()
    ensures commands { ADD ∷ MODIFY ∷ MODIFY_STRICT ∷ DELETE ∷ DELETE_STRICT ∷ [] ≡ 0 ∷ 1 ∷ 2 ∷ 3 ∷ 4 ∷ [] }
    ensures flags { SEND_FLOW_REM ∷ CHECK_OVERLAP ∷ EMERG ∷ [] ≡ 1 ∷ 2 ∷ 4 ∷ [] }
    ensures no_buffer { NO_BUFFER ≡ 0xffffffff }
    ensures bytes { FLOW_MOD_FIELDS ∷ MOST_ACTION_BYTES ∷ [] ≡ 72 ∷ 65463 ∷ [] }
{}

/// What is spelled as a flow-mod is one, and is read again.
pub fn flow_mod_is_read_again()
    ensures { (m : FlowMod) → IsFlowMod m → IsOf FLOW_MOD (spell_flow_mod m) × (read_flow_mod (spell_flow_mod m) ≡ Ok m) }
{}

/// What is spelled as a packet-out is one, and is read again.
pub fn packet_out_is_read_again()
    ensures { (m : PacketOut) → IsPacketOut m → IsOf PACKET_OUT (spell_packet_out m) × (read_packet_out (spell_packet_out m) ≡ Ok m) }
{}

/// What is spelled as a packet-in is one, and is read again.
pub fn packet_in_is_read_again()
    ensures { (m : PacketIn) → IsPacketIn m → IsOf PACKET_IN (spell_packet_in m) × (read_packet_in (spell_packet_in m) ≡ Ok m) }
{}

/// What is spelled as a flow-removed message is one, and is read again.
pub fn flow_removed_is_read_again()
    ensures { (m : FlowRemoved) → IsFlowRemoved m → IsOf FLOW_REMOVED (spell_flow_removed m) × (read_flow_removed (spell_flow_removed m) ≡ Ok m) }
{}

/// The padding of a packet-in says nothing: packet-ins alike but for byte 17 are read alike (OpenFlow 1.0.0,
/// section 5.4.1).
pub fn packet_in_padding_says_nothing()
    ensures { (a b : List ℕ) → AlikeBut 17 18 a b → read_packet_in a ≡ read_packet_in b }
{}

/// The padding of a flow-removed message says nothing: messages alike but for byte 59, or but for bytes 70 and
/// 71, are read alike (OpenFlow 1.0.0, section 5.4.2).
pub fn flow_removed_padding_says_nothing()
    ensures reason { (a b : List ℕ) → AlikeBut 59 60 a b → read_flow_removed a ≡ read_flow_removed b }
    ensures idle { (a b : List ℕ) → AlikeBut 70 72 a b → read_flow_removed a ≡ read_flow_removed b }
{}
