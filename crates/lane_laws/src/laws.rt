//! Laws of what a slice has sent to the switch. Each function's contract is the law; its body does nothing.

ghost use Rattle.std.specs.Prelude.{ℕ, ◌≡◌, ◌<◌, ◌≤◌, ◌⊎◌, true, false, List, [], ◌∷◌, length, map, drop, Some, Ok, All};
ghost use Rattle.of10_model.specs.declared.pattern.Pattern.{Pattern};
ghost use Rattle.of10_flow.specs.declared.flow_mod.FlowMod.{FlowMod};
ghost use Rattle.of10_flow.specs.declared.packet_out.PacketOut.{PacketOut};
ghost use Rattle.of10_flow.specs.FlowMods.{IsRanged, spell_flow_mod, read_flow_mod};
ghost use Rattle.of10_flow.specs.PacketOuts.{IsRangedOut, spell_packet_out, read_packet_out};
ghost use Rattle.of10_ctl.specs.declared.kind.TheConstants.{BARRIER_REQUEST, QUEUE_GET_CONFIG_REQUEST};
ghost use Rattle.of10_message.specs.declared.queues.QueuesQuestion.{QueuesQuestion};
ghost use Rattle.of10_message.specs.Queues.{spell_queues_request};
ghost use Rattle.of10_ctl.specs.Frames.{message_of};
ghost use Rattle.of10_stats.specs.declared.request.StatsRequest.{StatsRequest};
ghost use Rattle.of10_stats.specs.Requests.{spell_request};
ghost use Rattle.of10_message.specs.declared.controller.FromController.TheVariants as said;
ghost use Rattle.stats_filter.specs.Asking.{asked_as};
ghost use Rattle.flowspace.specs.Policies.{PolicyView, SwitchView, IsPolicy, IsSwitchPolicy, AreNormal};
ghost use Rattle.of10_message.specs.Heads.{xid_of};
ghost use Rattle.flowspace.specs.Swaps.{pairs_of};
ghost use Rattle.port_turns.specs.Readings.{read_turned};
ghost use Rattle.slice_words.specs.Items.{message_turned};
ghost use Rattle.flow_book.specs.declared.state.SliceState.{SliceState};
ghost use Rattle.slice_words.specs.Standing.{SliceStands};
ghost use Rattle.slice_side.specs.Checking.{AreSentOn};
ghost use Rattle.port_view.specs.SlicePorts.{flooded};
ghost use Rattle.flowmod_expand.specs.Pieces.{pieces_of};
ghost use Rattle.action_check.specs.declared.origin.Origin.TheVariants.{Piece};
ghost use Rattle.action_check.specs.Permitted.{permitted};
ghost use Rattle.slice_words.specs.FlowMods.{packet_at, pieces_on, permitted_on};
ghost use Rattle.slice_words.specs.PacketOuts.{origin_with, permitted_out};
ghost use Rattle.desk_words.specs.declared.event.Event.TheVariants.{SliceMsg};
ghost use Rattle.desk_words.specs.declared.event.Timed.{Timed};
ghost use Rattle.desk_words.specs.Histories.{side_of, is_slice_up};
ghost use Rattle.desk_words.specs.Sent.{lane_by};
ghost use Rattle.flow_facts.specs.FlowMods.{LiesInFlowspace, OutputsToOwnPorts, LeavesOtherHeaders, StaysWithin};
ghost use Rattle.flow_facts.specs.PacketOuts.{SendsOwnPacket, SendsToOwnPorts, ChangesNoTable, SendsWithin};
ghost use Rattle.flow_facts.specs.Messages.{IsSentThat, IsReadThat};
ghost use Rattle.desk_words.specs.Arrivals.{IsBufferHeader};
ghost use Rattle.lane_laws.specs.Lane.{IsOfBytes, CarriesOwnBuffer, SendsOwnBuffer, HoldsWritten, KeepsWritten, KeepsRanged, IsKeptHeader, rules_in, settings_in, ports_shown, ground_in, flow_mods_at, packet_out_at, IsPermitted, IsPermittedOut, IsPermittedInquiry, IsAnyPermitted};

/// Whatever a message of a slice has sent to the switch is a flow-mod of headers that the slice writes, a
/// packet-out of a packet that the slice writes or of a probe with the slice's mark, or an inquiry. The slice
/// writes each header of the flow-mod's match. An inquiry is neither, and asks for statistics, for a port's
/// queues, or for the reply to a barrier. The flow-mod's match is normal, and the fields of both lie in their
/// ranges, so that the message is the bytes of no other (`messages_tell_their_fields`). Here and in the next
/// three laws the messages are of bytes and the rules' matches are normal, as each `u8` and each `Match` is.
pub fn messages_lie_in_the_flowspace()
    ensures { (policy : PolicyView) → IsPolicy policy.slices policy.rules → AreNormal policy.rules → (h : List Timed) (timed : Timed) (slot : ℕ) (message : List ℕ) → All (λ t. IsOfBytes t.event) (timed ∷ h)
        → timed.event ≡ SliceMsg slot message → All (IsSentThat (LiesInFlowspace (rules_in policy h) slot) (SendsOwnPacket (IsBufferHeader h) (rules_in policy h) slot)) (lane_by policy h timed) }
{}

/// Each OUTPUT and ENQUEUE of such a flow-mod or packet-out names a port of the slice or IN_PORT, an OUTPUT maybe CONTROLLER,
/// and in a packet-out maybe TABLE, but of a probe neither.
pub fn outputs_name_the_slices_ports()
    ensures { (policy : PolicyView) → AreNormal policy.rules → (h : List Timed) (timed : Timed) (slot : ℕ) (message : List ℕ) → All (λ t. IsOfBytes t.event) (timed ∷ h)
        → timed.event ≡ SliceMsg slot message → All (IsSentThat (OutputsToOwnPorts (rules_in policy h) slot) (SendsToOwnPorts (rules_in policy h) slot)) (lane_by policy h timed) }
{}

/// It leaves every flow table treating each header that the slice doesn't write as before: it is a flow-mod
/// that does, or a packet-out or an inquiry, which change none.
pub fn other_headers_are_treated_as_before()
    ensures { (policy : PolicyView) → IsPolicy policy.slices policy.rules → AreNormal policy.rules → (h : List Timed) (timed : Timed) (slot : ℕ) (message : List ℕ) → All (λ t. IsOfBytes t.event) (timed ∷ h)
        → timed.event ≡ SliceMsg slot message → All (IsSentThat (LeavesOtherHeaders (rules_in policy h) slot) ChangesNoTable) (lane_by policy h timed) }
{}

/// Where such a message carries a number, the last packet-in that has the number gave its packet to the slice
/// as the one who writes it. The packet lies in what the slice writes, and that of a flow-mod lies in the
/// flow-mod's match too. The slice writes the header of each packet that it holds.
pub fn buffers_are_the_slices_own()
    ensures messages { (policy : PolicyView) → AreNormal policy.rules → (h : List Timed) (timed : Timed) (slot : ℕ) (message : List ℕ) → All (λ t. IsOfBytes t.event) (timed ∷ h)
        → timed.event ≡ SliceMsg slot message → All (IsSentThat (CarriesOwnBuffer policy slot h) (SendsOwnBuffer policy slot h)) (lane_by policy h timed) }
    ensures held { (policy : PolicyView) (h : List Timed) (slot : ℕ) → HoldsWritten (rules_in policy h) slot (settings_in policy slot h) (side_of policy slot h).sight }
{}

/// Where the messages of the switch and of the slice are of bytes, a switch reads whatever such a message has
/// sent as a flow-mod or a packet-out of which all this holds. Each packet that the actions send is, as the
/// actions before rewrite the packet, one that the slice writes by some port of entry. A packet that is sent
/// to the controller or through the table is one that the slice writes by the packet's own port of entry.
/// Probes are excepted. Or the switch reads what was sent as a barrier, as a request for statistics of the
/// slice's ports or of all, or as a question for the queues of one of its ports.
pub fn switches_read_such_messages()
    ensures { (policy : PolicyView) → IsPolicy policy.slices policy.rules → AreNormal policy.rules → (h : List Timed) (timed : Timed) (slot : ℕ) (message : List ℕ) → All (λ t. IsOfBytes t.event) (timed ∷ h)
        → timed.event ≡ SliceMsg slot message → All (IsReadThat (StaysWithin (rules_in policy h) slot) (SendsWithin (IsBufferHeader h) (rules_in policy h) slot) (rules_in policy h) slot) (lane_by policy h timed) }
{}

/// A flow-mod of a slice that is up is sent where it keeps the rate and no line refuses it. Exactly its
/// messages are sent, one for each piece of its match that the slice writes, with the actions that the slice
/// may have for the piece by the rules of the switch. Where the flow-mod names a packet, the first message
/// whose piece has the packet's header carries the switch's number for the packet. Nothing but these,
/// permitted packet-outs and permitted inquiries is sent for a slice.
pub fn permitted_flow_mods_are_sent()
    ensures sent { (policy : PolicyView) (h : List Timed) (timed : Timed) (slot : ℕ) (message : List ℕ) (m : FlowMod) → timed.event ≡ SliceMsg slot message → is_slice_up policy slot h ≡ true
        → IsPermitted policy slot h timed.moment message m → lane_by policy h timed ≡ map spell_flow_mod (flow_mods_at policy slot h m) }
    ensures pieces { (policy : PolicyView) (h : List Timed) (slot : ℕ) (m : FlowMod) → is_slice_up policy slot h ≡ true → pieces_on (ground_in policy slot h) m ≡ pieces_of (rules_in policy h) slot m.pattern }
    ensures actions { (policy : PolicyView) (h : List Timed) (slot : ℕ) (m : FlowMod) (piece : Pattern) → is_slice_up policy slot h ≡ true
        → permitted_on (ground_in policy slot h) m piece ≡ permitted (rules_in policy h) slot (Piece piece) m.actions (flooded false (ports_shown policy slot h)) (flooded true (ports_shown policy slot h)) }
    ensures nothing_else { (policy : PolicyView) (h : List Timed) (timed : Timed) (slot : ℕ) (message : List ℕ) → timed.event ≡ SliceMsg slot message
        → (lane_by policy h timed ≡ []) ⊎ ((is_slice_up policy slot h ≡ true) × IsAnyPermitted policy slot h timed.moment message) }
{}

/// A packet-out of a slice that is up is sent where it keeps the rate and no line refuses it. Exactly one is
/// sent, with the actions that the slice may have by the rules of the switch, and with the switch's number
/// for the packet that it names.
pub fn permitted_packet_outs_are_sent()
    ensures sent { (policy : PolicyView) (h : List Timed) (timed : Timed) (slot : ℕ) (message : List ℕ) (m : PacketOut) → timed.event ≡ SliceMsg slot message → is_slice_up policy slot h ≡ true
        → IsPermittedOut policy slot h timed.moment message m → lane_by policy h timed ≡ spell_packet_out (packet_out_at policy slot h m) ∷ [] }
    ensures actions { (policy : PolicyView) (h : List Timed) (slot : ℕ) (m : PacketOut) → is_slice_up policy slot h ≡ true
        → permitted_out (ground_in policy slot h) m
        ≡ permitted (rules_in policy h) slot (origin_with (packet_at (ground_in policy slot h) m.buffer) m) m.actions (flooded false (ports_shown policy slot h)) (flooded true (ports_shown policy slot h)) }
{}

/// An inquiry of a slice that is up is sent where it keeps the rate and the slice may ask it: exactly one, under
/// the transaction id that the slice gets next. Of flows the sum is asked for as the single flows. A question for
/// queues that came in bytes is sent with its body as it came but for its port, which is the physical one.
pub fn permitted_inquiries_are_sent()
    ensures statistics { (policy : PolicyView) (h : List Timed) (timed : Timed) (slot : ℕ) (message : List ℕ) (request asked : StatsRequest) → timed.event ≡ SliceMsg slot message → is_slice_up policy slot h ≡ true
        → IsPermittedInquiry policy slot h timed.moment message (said.StatsRequest request) → asked_as request ≡ Some asked → lane_by policy h timed ≡ spell_request asked (ground_in policy slot h).xid ∷ [] }
    ensures barriers { (policy : PolicyView) (h : List Timed) (timed : Timed) (slot : ℕ) (message : List ℕ) → timed.event ≡ SliceMsg slot message → is_slice_up policy slot h ≡ true
        → IsPermittedInquiry policy slot h timed.moment message said.BarrierRequest → lane_by policy h timed ≡ message_of BARRIER_REQUEST (ground_in policy slot h).xid [] ∷ [] }
    ensures queues { (policy : PolicyView) (h : List Timed) (timed : Timed) (slot : ℕ) (message : List ℕ) (queues : QueuesQuestion) → timed.event ≡ SliceMsg slot message → is_slice_up policy slot h ≡ true
        → IsPermittedInquiry policy slot h timed.moment message (said.QueueGetConfigRequest queues) → lane_by policy h timed ≡ spell_queues_request (ground_in policy slot h).xid queues ∷ [] }
    ensures bodies { (policy : PolicyView) (h : List Timed) (timed : Timed) (slot : ℕ) (message : List ℕ) (queues : QueuesQuestion) → All (λ byte. byte < 256) message → timed.event ≡ SliceMsg slot message → is_slice_up policy slot h ≡ true
        → IsPermittedInquiry policy slot h timed.moment message (said.QueueGetConfigRequest queues) → lane_by policy h timed ≡ message_of QUEUE_GET_CONFIG_REQUEST (ground_in policy slot h).xid (drop 8 (message_turned (settings_in policy slot h) message)) ∷ [] }
{}

/// The first three hold of what `slice_side::react` has sent on by its clause `sent`, for the policy, the ports
/// and the state that it is given. They hold whatever the state stands for, where the slice writes the header
/// of each packet that the state holds. In the place of the header under a number is that of the packet that
/// is held. Where the state stands for what the slice sees of a history, the slice writes these headers. The
/// rules' matches are normal, the message is of bytes, and the switch's numbers and the ports of the packets
/// that are held have their 32 and 16 bits, as each `Match`, `u8`, `u32` and `u16`.
pub fn reactions_stay_within_the_slice()
    ensures flowspace { (policy : SwitchView) (known : List (List ℕ)) (state : SliceState) (slot : ℕ) (message : List ℕ) (sent : List (List ℕ))
        → IsSwitchPolicy policy.slices policy.rules → KeepsWritten policy.rules slot state → AreNormal policy.rules → KeepsRanged state → All (λ byte. byte < 256) message → AreSentOn policy.rules slot known state (read_turned (pairs_of policy.swaps slot) message) sent
        → All (IsSentThat (LiesInFlowspace policy.rules slot) (SendsOwnPacket (IsKeptHeader state) policy.rules slot)) sent }
    ensures ports { (policy : SwitchView) (known : List (List ℕ)) (state : SliceState) (slot : ℕ) (message : List ℕ) (sent : List (List ℕ))
        → AreNormal policy.rules → KeepsRanged state → All (λ byte. byte < 256) message → AreSentOn policy.rules slot known state (read_turned (pairs_of policy.swaps slot) message) sent
        → All (IsSentThat (OutputsToOwnPorts policy.rules slot) (SendsToOwnPorts policy.rules slot)) sent }
    ensures headers { (policy : SwitchView) (known : List (List ℕ)) (state : SliceState) (slot : ℕ) (message : List ℕ) (sent : List (List ℕ))
        → IsSwitchPolicy policy.slices policy.rules → AreNormal policy.rules → KeepsRanged state → All (λ byte. byte < 256) message → AreSentOn policy.rules slot known state (read_turned (pairs_of policy.swaps slot) message) sent
        → All (IsSentThat (LeavesOtherHeaders policy.rules slot) ChangesNoTable) sent }
    ensures states { (policy : PolicyView) (h : List Timed) (slot : ℕ) (state : SliceState) → SliceStands (settings_in policy slot h) (side_of policy slot h).sight state → KeepsWritten (rules_in policy h) slot state }
{}
