//! Laws of the definitions. Each function's contract is the law; its body does nothing.

ghost use Rattle.std.specs.Prelude.{ℕ, List, Option, None, ◌≡◌};
ghost use Rattle.of10_model.specs.Header.{Header};
ghost use Rattle.flowspace.specs.declared.slices.Slice.{Slice};
ghost use Rattle.flowspace.specs.declared.rules.Rule.{Rule};
ghost use Rattle.flowspace.specs.Policies.{IsSwitchPolicy};
ghost use Rattle.of10_flow.specs.declared.flow_mod.FlowMod.{FlowMod};
ghost use Rattle.of10_flow.specs.declared.packet_out.PacketOut.{PacketOut};
ghost use Rattle.trace_audit.specs.Judging.{flow_mod_why, packet_out_why};
ghost use Rattle.flowspace.specs.Policies.{PolicyView, IsPolicy};
ghost use Rattle.of10_ctl.specs.Frames.{IsFrame};
ghost use Rattle.desk_words.specs.declared.event.Timed.{Timed};
ghost use Rattle.trace_audit.specs.Auditing.{message_why};
ghost use Rattle.trace_audit.specs.Facts.{KeepsFlowspace, KeepsPackets, KeepsSlice};

/// A flow-mod with which nothing is wrong has the three facts, and names no other slice's packet.
pub fn passed_flow_mods_keep_their_flowspace()
    ensures { (slices : List Slice) (rules : List Rule) → IsSwitchPolicy slices rules → (held : Option Header) (slot : ℕ) (m : FlowMod) → flow_mod_why held rules slot m ≡ None → KeepsFlowspace held rules slot m }
{}

/// A packet-out with which nothing is wrong sends a packet of the slice to its ports.
pub fn passed_packet_outs_send_own_packets()
    ensures { (slices : List Slice) (rules : List Rule) → IsSwitchPolicy slices rules → (held : Option Header) (slot : ℕ) (m : PacketOut) → packet_out_why held rules slot m ≡ None → KeepsPackets held rules slot m }
{}

/// A switch reads a message with which nothing is wrong, after the events of its session, as a flow-mod or a
/// packet-out of which these hold. They hold by the rules of the policy for the datapath id that the switch
/// said, and by the last packet-in under the message's number.
pub fn passed_messages_keep_their_slice()
    ensures { (policy : PolicyView) → IsPolicy policy.slices policy.rules → (h : List Timed) (slot : ℕ) (message : List ℕ) → IsFrame message → message_why policy h slot message ≡ None → KeepsSlice policy h slot message }
{}
