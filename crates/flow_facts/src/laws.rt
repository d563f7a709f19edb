//! Laws of what is said of one message. Each function's contract is the law; its body does nothing.

ghost use Rattle.std.specs.Prelude.{◌≡◌, ◌≤◌, length, Ok};
ghost use Rattle.of10_flow.specs.declared.flow_mod.FlowMod.{FlowMod};
ghost use Rattle.of10_flow.specs.declared.packet_out.PacketOut.{PacketOut};
ghost use Rattle.of10_flow.specs.FlowMods.{IsRanged, spell_flow_mod, read_flow_mod};
ghost use Rattle.of10_flow.specs.PacketOuts.{IsRangedOut, spell_packet_out, read_packet_out};
ghost use Rattle.of10_message.specs.Heads.{xid_of};

/// From the bytes of a flow-mod whose fields lie in their ranges, or of such a packet-out of at most 65,535 bytes, a
/// switch reads just these fields, all but the transaction id. So what is said of a message by its fields is said of
/// what a switch reads.
pub fn messages_tell_their_fields()
    ensures flow_mods { (m : FlowMod) → IsRanged m → read_flow_mod (spell_flow_mod m) ≡ Ok (record m { xid = xid_of (spell_flow_mod m) }) }
    ensures packet_outs { (m : PacketOut) → IsRangedOut m → length (spell_packet_out m) ≤ 65535 → read_packet_out (spell_packet_out m) ≡ Ok (record m { xid = xid_of (spell_packet_out m) }) }
{}
