//! Laws of the definitions. Each function's contract is the law; its body does nothing.

ghost use Rattle.std.specs.Prelude.{ℕ, List, [], ◌∷◌, ◌++◌, ◌≡◌, ◌<◌, true, false, map, length, take, drop, Ok};
ghost use Rattle.std.specs.List.{All};
ghost use Rattle.of10_flow.specs.declared.flow_mod.FlowMod.{FlowMod};
ghost use Rattle.of10_flow.specs.declared.packet_out.PacketOut.{PacketOut};
ghost use Rattle.of10_flow.specs.FlowMods.{read_flow_mod};
ghost use Rattle.of10_flow.specs.PacketOuts.{read_packet_out};
ghost use Rattle.of10_message.specs.Controller.{read_controller};
ghost use Rattle.flowspace.specs.Swaps.{Pairs};
ghost use Rattle.port_turns.specs.Turned.{exchanged, turned_flow_mod, turned_packet_out};
ghost use Rattle.port_turns.specs.Turns.{turn_flow_mod, turn_packet_out, turn_port, written};
ghost use Rattle.port_turns.specs.Readings.{turn_in, read_turned, turned_read};
ghost use Rattle.port_turns.specs.Sent.{has_port_entries, in_number_order, tells_ports, turn_out, turned_numbers};
ghost use Rattle.port_turns.specs.Rows.{nine_for_two, two_actions, add_bytes, out_bytes, in_bytes, removed_bytes, status_bytes, queues_bytes, stats_bytes, flow_bytes, cut_actions, port_entry, queue_entry, features_bytes};
ghost use Rattle.of10_message.specs.Heads.{message_kind, version_of};
ghost use Rattle.of10_model.specs.Normal.{number_at};
ghost use Rattle.of10_ctl.specs.declared.kind.TheConstants.{FEATURES_REPLY, STATS_REPLY};
ghost use Rattle.of10_ctl.specs.Frames.{is_bad};
ghost use Rattle.of10_port.specs.Features.{has_whole_ports};
ghost use Rattle.of10_port.specs.Ports.{port_bytes, ports_in};

/// A flow-mod whose bytes are turned has as many bytes and the same head, and is read as the flow-mod that was
/// read, turned.
pub fn turned_flow_mod_is_read_turned()
    ensures size { (pairs : Pairs) (bytes : List ℕ) (m : FlowMod) → read_flow_mod bytes ≡ Ok m → length (turn_flow_mod pairs bytes) ≡ length bytes }
    ensures head { (pairs : Pairs) (bytes : List ℕ) (m : FlowMod) → read_flow_mod bytes ≡ Ok m → take 8 (turn_flow_mod pairs bytes) ≡ take 8 bytes }
    ensures read { (pairs : Pairs) (bytes : List ℕ) (m : FlowMod) → read_flow_mod bytes ≡ Ok m → read_flow_mod (turn_flow_mod pairs bytes) ≡ Ok (turned_flow_mod (written pairs) m) }
{}

/// So it is of a packet-out.
pub fn turned_packet_out_is_read_turned()
    ensures size { (pairs : Pairs) (bytes : List ℕ) (m : PacketOut) → read_packet_out bytes ≡ Ok m → length (turn_packet_out pairs bytes) ≡ length bytes }
    ensures head { (pairs : Pairs) (bytes : List ℕ) (m : PacketOut) → read_packet_out bytes ≡ Ok m → take 8 (turn_packet_out pairs bytes) ≡ take 8 bytes }
    ensures read { (pairs : Pairs) (bytes : List ℕ) (m : PacketOut) → read_packet_out bytes ≡ Ok m → read_packet_out (turn_packet_out pairs bytes) ≡ Ok (turned_packet_out (written pairs) m) }
{}

/// Rows of bytes, in which 9 is shown for 2: the in_port, the out_port and the ports of OUTPUT and ENQUEUE are
/// exchanged, and nothing else that is 9 or 2; an in_port that is free stays.
pub fn ports_alone_are_exchanged()
    ensures add { turn_flow_mod nine_for_two (add_bytes 0x3820fe 9 2 (two_actions 9 2)) ≡ add_bytes 0x3820fe 2 9 (two_actions 2 9) }
    ensures free { turn_flow_mod nine_for_two (add_bytes 0x3820ff 9 2 (two_actions 9 2)) ≡ add_bytes 0x3820ff 9 9 (two_actions 2 9) }
    ensures out { turn_packet_out nine_for_two (out_bytes 9 (two_actions 9 2)) ≡ out_bytes 2 (two_actions 2 9) }
{}

/// A message that is turned has as many bytes, the same head, and bytes where it had bytes.
pub fn turned_message_keeps_its_head()
    ensures size { (pairs : Pairs) (bytes : List ℕ) → length (turn_in pairs bytes) ≡ length bytes }
    ensures head { (pairs : Pairs) (bytes : List ℕ) → take 8 (turn_in pairs bytes) ≡ take 8 bytes }
    ensures range { (pairs : Pairs) (bytes : List ℕ) → All (λ byte. byte < 256) bytes → All (λ byte. byte < 256) (turn_in pairs bytes) }
{}

/// What is read of a slice's message once its port numbers are exchanged is what is read of it, with each number
/// exchanged; one that isn't read is refused for the same fault. Where the slice has no swaps the message stays as it is.
pub fn turned_message_is_read_turned()
    ensures turned { (pairs : Pairs) (bytes : List ℕ) → read_turned pairs bytes ≡ turned_read (exchanged pairs) (read_controller bytes) }
    ensures none { (bytes : List ℕ) → turn_in [] bytes ≡ bytes }
{}

/// A message for a slice in which no port number stands stays as it is, and so does each where the slice has no swaps.
pub fn messages_without_ports_stay()
    ensures other { (pairs : Pairs) (f : List ℕ) → tells_ports (message_kind f) ≡ false → turn_out pairs f ≡ f }
    ensures statistics { (pairs : Pairs) (f : List ℕ) → message_kind f ≡ STATS_REPLY → has_port_entries (number_at f 8 2) ≡ false → turn_out pairs f ≡ f }
    ensures none { (f : List ℕ) → turn_out [] f ≡ f }
{}

/// A message for a slice is as long with its numbers exchanged as it was.
pub fn sent_message_keeps_its_length()
    ensures { (pairs : Pairs) (f : List ℕ) → length (turned_numbers pairs f) ≡ length f }
{}

/// It has the head that it had, with its ports in their order too.
pub fn sent_message_keeps_its_head()
    ensures { (pairs : Pairs) (f : List ℕ) → take 8 (turn_out pairs f) ≡ take 8 f }
{}

/// A FEATURES_REPLY for a slice that has swaps has each port under the number that is shown, and the ports in
/// ascending order of these (OpenFlow 1.0.0, section 5.3.1; the order is this proxy's own rule).
pub fn ports_are_shown_in_order()
    ensures { (f : List ℕ) → version_of f ≡ 1 → is_bad f ≡ false → message_kind f ≡ FEATURES_REPLY → has_whole_ports f ≡ true → (pair : ℕ × ℕ) (others : Pairs) → turn_out (pair ∷ others) f ≡ take 32 f ++ port_bytes (in_number_order (map (turn_port (pair ∷ others) 0) (ports_in (drop 32 f)))) }
{}

/// Rows of bytes, in which 9 is shown for 2. Of a removed entry an in_port that is free stays. Of a flow
/// entry whose actions aren't read the in_port is exchanged and the actions stay. An entry of 87 bytes stays,
/// with all behind it. The numbers for no port, for all and of the switch's own port stay. A switch's ports
/// are sorted by what is shown.
pub fn sent_ports_alone_are_exchanged()
    ensures packet { turned_numbers nine_for_two (in_bytes 2) ≡ in_bytes 9 }
    ensures removed { turned_numbers nine_for_two (removed_bytes 0x3820fe 2) ≡ removed_bytes 0x3820fe 9 }
    ensures free { turned_numbers nine_for_two (removed_bytes 0x3820ff 2) ≡ removed_bytes 0x3820ff 2 }
    ensures status { turned_numbers nine_for_two (status_bytes 2) ≡ status_bytes 9 }
    ensures queues { turned_numbers nine_for_two (queues_bytes 2) ≡ queues_bytes 9 }
    ensures flow { turned_numbers nine_for_two (stats_bytes 124 1 (flow_bytes 112 2 (two_actions 2 9))) ≡ stats_bytes 124 1 (flow_bytes 112 9 (two_actions 9 2)) }
    ensures cut { turned_numbers nine_for_two (stats_bytes 112 1 (flow_bytes 100 2 cut_actions)) ≡ stats_bytes 112 1 (flow_bytes 100 9 cut_actions) }
    ensures short { turned_numbers nine_for_two (stats_bytes 188 1 (flow_bytes 88 2 (flow_bytes 87 2 []))) ≡ stats_bytes 188 1 (flow_bytes 88 9 (flow_bytes 87 2 [])) }
    ensures ports { turned_numbers nine_for_two (stats_bytes 220 4 (port_entry 2 ++ port_entry 0xffff)) ≡ stats_bytes 220 4 (port_entry 9 ++ port_entry 0xffff) }
    ensures queue { turned_numbers nine_for_two (stats_bytes 76 5 (queue_entry 2 ++ queue_entry 0xfffc)) ≡ stats_bytes 76 5 (queue_entry 9 ++ queue_entry 0xfffc) }
    ensures features { turn_out nine_for_two (features_bytes 2 5 0xfffe) ≡ features_bytes 5 9 0xfffe }
{}
