//! What this proxy promises, law by law, in the order in which to read them: that each slice is served as by a
//! proxy of its own, and that what is sent for it stays in what is its own. Each function's contract is the law,
//! over the definitions of which the contracts of the code speak; its body does nothing. The laws are those of
//! `desk_words::laws` and `lane_laws::laws`, which have more of them; `docs/DEFINITIONS.md` leads through the
//! definitions.
#![tactic(auto)]

ghost use Rattle.std.specs.Prelude.{ℕ, ◌≡◌, true, List, ◌∷◌, map, All};
ghost use Rattle.of10_flow.specs.declared.flow_mod.FlowMod.{FlowMod};
ghost use Rattle.of10_flow.specs.FlowMods.{spell_flow_mod};
ghost use Rattle.flowspace.specs.Policies.{PolicyView, IsPolicy, AreNormal};
ghost use Rattle.recording.specs.Recordings.{Told};
ghost use Rattle.desk_words.specs.declared.event.Event.TheVariants.{SliceMsg};
ghost use Rattle.desk_words.specs.declared.event.Timed.{Timed};
ghost use Rattle.desk_words.specs.Histories.{is_slice_up};
ghost use Rattle.desk_words.specs.Sent.{lane_by};
ghost use Rattle.desk_words.specs.Laws.{IsAlone, AreAlike, IsErasable};
ghost use Rattle.flow_facts.specs.FlowMods.{LiesInFlowspace, OutputsToOwnPorts, LeavesOtherHeaders, StaysWithin};
ghost use Rattle.flow_facts.specs.PacketOuts.{SendsOwnPacket, SendsToOwnPorts, ChangesNoTable, SendsWithin};
ghost use Rattle.flow_facts.specs.Messages.{IsSentThat, IsReadThat};
ghost use Rattle.desk_words.specs.Arrivals.{IsBufferHeader};
ghost use Rattle.lane_laws.specs.Lane.{IsOfBytes, CarriesOwnBuffer, SendsOwnBuffer, IsPermitted, flow_mods_at, rules_in};
ghost use Rattle.promise.specs.Ups.{IsToldAsAloneAtEachUp};

// A slice is served as by a proxy of its own.

/// What a slice is sent over a history is what a proxy sends that serves it alone, with its settings on
/// its view of that history. A law of `desk_words`.
pub fn slice_is_served_alone()
    ensures { (policy : PolicyView) (slot : ℕ) (h : List Timed) → IsAlone policy slot h }
{}

/// A slice with the same settings and the same view in two worlds is sent the same in both. A law of `desk_words`.
pub fn two_worlds()
    ensures { (policy : PolicyView) (slot : ℕ) (h : List Timed) (other_policy : PolicyView) (other_slot : ℕ) (other_h : List Timed) → AreAlike policy slot h other_policy other_slot other_h }
{}

/// Without the events of all other slices a slice sees the same and is sent the same. A law of `desk_words`.
pub fn erasure()
    ensures { (policy : PolicyView) (slot : ℕ) (h : List Timed) → IsErasable policy slot h }
{}

/// What the lines of a report say a slice is sent, from each up of a switch to the next one or the end, is
/// what a proxy sends that serves the slice alone on its view of the switch. `slice_is_told_as_alone` of
/// `desk_words` says so of the last up, and is all that this takes beside
/// `earlier_records_have_the_first_events`.
pub fn slice_is_told_as_alone_at_each_up()
    ensures { (policy : PolicyView) (slot switch : ℕ) (earlier later : List Told) → IsToldAsAloneAtEachUp policy slot switch earlier later }
{}

// What is sent to the switch for a slice stays in what is its own.

/// Whatever a message of a slice has sent to the switch is a flow-mod of headers that the slice writes, a
/// packet-out of a packet that the slice writes or of a probe with the slice's mark, or a question. The slice
/// writes each header of the flow-mod's match. A question asks the switch for a reply. The flow-mod's match
/// is normal, and the fields of both lie in their ranges, so that the message is the bytes of no other
/// (`messages_tell_their_fields` of `flow_facts`). Here and in the next four laws the messages are of bytes
/// and the rules' matches are normal, as each `u8` and each `Match` is. A law of `lane_laws`.
pub fn messages_lie_in_the_flowspace()
    ensures { (policy : PolicyView) → IsPolicy policy.slices policy.rules → AreNormal policy.rules → (h : List Timed) (timed : Timed) (slot : ℕ) (message : List ℕ) → All (λ t. IsOfBytes t.event) (timed ∷ h)
        → timed.event ≡ SliceMsg slot message → All (IsSentThat (LiesInFlowspace (rules_in policy h) slot) (SendsOwnPacket (IsBufferHeader h) (rules_in policy h) slot)) (lane_by policy h timed) }
{}

/// Each OUTPUT and ENQUEUE of such a flow-mod or packet-out names a port of the slice or IN_PORT, an OUTPUT maybe
/// CONTROLLER, and in a packet-out maybe TABLE, but of a probe neither. A law of `lane_laws`.
pub fn outputs_name_the_slices_ports()
    ensures { (policy : PolicyView) → AreNormal policy.rules → (h : List Timed) (timed : Timed) (slot : ℕ) (message : List ℕ) → All (λ t. IsOfBytes t.event) (timed ∷ h)
        → timed.event ≡ SliceMsg slot message → All (IsSentThat (OutputsToOwnPorts (rules_in policy h) slot) (SendsToOwnPorts (rules_in policy h) slot)) (lane_by policy h timed) }
{}

/// It leaves every flow table treating each header that the slice doesn't write as before. A law of `lane_laws`.
pub fn other_headers_are_treated_as_before()
    ensures { (policy : PolicyView) → IsPolicy policy.slices policy.rules → AreNormal policy.rules → (h : List Timed) (timed : Timed) (slot : ℕ) (message : List ℕ) → All (λ t. IsOfBytes t.event) (timed ∷ h)
        → timed.event ≡ SliceMsg slot message → All (IsSentThat (LeavesOtherHeaders (rules_in policy h) slot) ChangesNoTable) (lane_by policy h timed) }
{}

/// Where such a message carries a number, the last packet-in that has the number gave its packet to the slice as
/// the one who writes it. In `lane_laws` the law says also that the slice writes each packet that it holds.
pub fn buffers_are_the_slices_own()
    ensures { (policy : PolicyView) → AreNormal policy.rules → (h : List Timed) (timed : Timed) (slot : ℕ) (message : List ℕ) → All (λ t. IsOfBytes t.event) (timed ∷ h)
        → timed.event ≡ SliceMsg slot message → All (IsSentThat (CarriesOwnBuffer policy slot h) (SendsOwnBuffer policy slot h)) (lane_by policy h timed) }
{}

/// A switch reads whatever such a message has sent as a flow-mod or a packet-out that keeps to what the slice
/// may send, or as a question that the slice may ask. Of the flow-mod or packet-out the first three of these
/// hold, and its actions send only what the slice writes. A law of `lane_laws`.
pub fn switches_read_such_messages()
    ensures { (policy : PolicyView) → IsPolicy policy.slices policy.rules → AreNormal policy.rules → (h : List Timed) (timed : Timed) (slot : ℕ) (message : List ℕ) → All (λ t. IsOfBytes t.event) (timed ∷ h)
        → timed.event ≡ SliceMsg slot message → All (IsReadThat (StaysWithin (rules_in policy h) slot) (SendsWithin (IsBufferHeader h) (rules_in policy h) slot) (rules_in policy h) slot) (lane_by policy h timed) }
{}

/// And a slice isn't refused what it may do: a flow-mod of a slice that is up is sent where it keeps the rate and
/// no line refuses it, exactly its messages. In `lane_laws` the law says also which these are, and that nothing
/// else is sent; packet-outs and questions have laws of their own there.
pub fn permitted_flow_mods_are_sent()
    ensures { (policy : PolicyView) (h : List Timed) (timed : Timed) (slot : ℕ) (message : List ℕ) (m : FlowMod) → timed.event ≡ SliceMsg slot message → is_slice_up policy slot h ≡ true
        → IsPermitted policy slot h timed.moment message m → lane_by policy h timed ≡ map spell_flow_mod (flow_mods_at policy slot h m) }
{}
