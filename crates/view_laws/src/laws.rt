//! Laws of what the parts of a slice's state stand for, for all settings and every view. Each function's
//! contract is the law; its body does nothing.

ghost use Rattle.std.specs.Prelude.{ℕ, ◌≡◌, ◌≤◌, ◌<◌, ◌+◌, ◌*◌, ◌%◌, ◌^◌, ◌↔◌, IsTrue, true, List, [], ◌∷◌, ◌++◌, Bool, All, take, reverse, slice_get, Some, Contains};
ghost use Rattle.of10_model.specs.declared.pattern.Pattern.{Pattern};
ghost use Rattle.of10_model.specs.Normal.{IsNormal};
ghost use Rattle.of10_message.specs.Heads.{xid_of};
ghost use Rattle.rate_bucket.specs.Rates.{Conforms, accepted};
ghost use Rattle.xid_map.specs.declared.asked.AskKind.{AskKind};
ghost use Rattle.xid_map.specs.declared.asked.Issued.{Issued};
ghost use Rattle.xid_map.specs.Requests.{issued};
ghost use Rattle.flow_book.specs.declared.booked.Booked.{Booked};
ghost use Rattle.slice_words.specs.Messages.{Reading, kind_asked, asked_of, quoted};
ghost use Rattle.slice_words.specs.Items.{Settings, message_read, Item, Msg, Last, latest_moment};
ghost use Rattle.slice_words.specs.Pasts.{Inquiry};
ghost use Rattle.slice_words.specs.Buffers.{HeldPacket};
ghost use Rattle.slice_words.specs.Alone.{answer_to, spell_inquiry};
ghost use Rattle.slice_words.specs.Calls.{request_calls, questions};
ghost use Rattle.slice_words.specs.Answers.{keeps_rate};
ghost use Rattle.slice_words.specs.Standing.{past_of};
ghost use Rattle.view_laws.specs.Requests.{is_request, requests_in, next_number, IsUnder, remembered_for, IsRemembered};
ghost use Rattle.view_laws.specs.Collecting.{Collects, IsFor, IsCollectingIn};
ghost use Rattle.view_laws.specs.Gathering.{gathered_after, is_for, entries_for, IsGatheredOf, CollectsFor, AreRepliesOver};
ghost use Rattle.view_laws.specs.Bookings.{booking_after, IsBooked, IsLastBookedIn, IsFirstBookedIn};
ghost use Rattle.view_laws.specs.Packets.{held_in, held_at, IsHeldIn};
ghost use Rattle.view_laws.specs.Rates.{counted_moments};

/// As many requests were issued as messages put something for the switch; and the n-th of these, from 0 and
/// the oldest first, is the one before which n were issued. All that a message has sent to the switch has the
/// slot in the top byte of its transaction id, and below it the low 24 bits of that number; the bytes of an
/// inquiry bear its id. A request is remembered with the slice's own transaction id, and an error carries back
/// its first 64 bytes.
pub fn requests_are_numbered()
    ensures count { (s : Settings) (view : List Item) → issued (request_calls s (past_of s view)) ≡ next_number s view }
    ensures place { (s : Settings) (later : List Item) (item : Item) (earlier : List Item) → is_request s earlier item ≡ true → slice_get (reverse (requests_in s (later ++ (item ∷ earlier)))) (next_number s earlier) ≡ Some item }
    ensures under { (s : Settings) (view : List Item) (item : Item) → All (IsUnder (s.slot * 2 ^ 24 + next_number s view % 2 ^ 24)) (answer_to s view item).to_switch }
    ensures borne { (inquiry : Inquiry) (xid : ℕ) → xid < 2 ^ 32 → xid_of (spell_inquiry inquiry xid) ≡ xid }
    ensures own { (read : Reading) (message : List ℕ) → (asked_of read message).xid ≡ xid_of message }
    ensures first { (read : Reading) (message : List ℕ) → quoted (asked_of read message) ≡ take 64 message }
{}

/// The request that is remembered for the low 24 bits of a transaction id is the one of the last 4,096 whose
/// number has these bits, where no item since forgets. It has failed exactly where an error came for it since,
/// and it is done exactly where since then the slice was sent a reply for it.
pub fn request_is_remembered_among_the_last()
    ensures { (s : Settings) (view : List Item) (x : ℕ) (request : Issued) → (remembered_for s view x ≡ Some request) ↔ IsRemembered s view x request }
{}

/// A request for statistics collects exactly as long as no later item ended that. Such an item says that the
/// request was forgotten, that an error came for it, or that the last part of its reply came and the slice
/// was sent what was collected. Or the item is another request that was made while eight collected, of which
/// this one was the first.
pub fn request_collects_until_an_item_ends_it()
    ensures { (s : Settings) (view : List Item) (number : ℕ) → Collects s number view ↔ IsCollectingIn s number view }
{}

/// What a request that collects has gathered is of the entries that came for it, of the type of statistics that
/// was sent for what it asked. For a sum of flows it is the sums over all of these entries, and else their
/// longest prefix within 524,288 bytes. An entry comes for the request that is remembered for its transaction
/// id, and so none comes for a request before that is made.
pub fn request_gathers_what_comes_for_it()
    ensures gathered { (s : Settings) (view : List Item) (number : ℕ) (made : IsCollectingIn s number view) → let asked = kind_asked (message_read s made.message) in IsGatheredOf asked (entries_for s number asked view) (gathered_after s number view) }
    ensures comes { (s : Settings) (x number : ℕ) (view : List Item) → IsTrue (is_for s x number view) ↔ IsFor s x number view }
    ensures since { (s : Settings) (view : List Item) (number : ℕ) (asked : AskKind) → next_number s view ≤ number → entries_for s number asked view ≡ [] }
{}

/// With the last part of statistics of a type the slice is sent exactly the replies over the entries that
/// came for the request. This holds where the request that is remembered for the transaction id collects and
/// was sent for that type; else the slice is sent nothing. The replies are under the slice's own transaction
/// id.
pub fn slice_is_told_what_was_gathered()
    ensures told { (s : Settings) (view : List Item) (x kind : ℕ) (request : Issued) → CollectsFor s x kind request view → AreRepliesOver request.asked.kind (entries_for s request.number request.asked.kind view) request.asked.xid (answer_to s view (Last x kind)).to_slice }
    ensures nothing { (s : Settings) (view : List Item) (x kind : ℕ) → ((request : Issued) → CollectsFor s x kind request view → ⊥) → (answer_to s view (Last x kind)).to_slice ≡ [] }
{}

/// A pair is booked exactly where the last item that books or releases it books it.
pub fn pair_is_booked_by_the_last_item()
    ensures { (s : Settings) (view : List Item) (pattern : Pattern) (priority : ℕ) → IsNormal pattern → IsBooked s pattern priority view ↔ ((wish : Bool) × IsLastBookedIn s pattern priority wish view) }
{}

/// A booked pair asks for a report of its removal as the last item asked that booked it, and it is of the
/// request that booked it first since it was last released.
pub fn booked_pair_is_as_its_items_say()
    ensures asked { (s : Settings) (view : List Item) (pattern : Pattern) (priority : ℕ) (b : Booked) → IsNormal pattern → booking_after s pattern priority view ≡ Some b → IsLastBookedIn s pattern priority b.asked view }
    ensures number { (s : Settings) (view : List Item) (pattern : Pattern) (priority : ℕ) (b : Booked) → IsNormal pattern → booking_after s pattern priority view ≡ Some b → IsFirstBookedIn s pattern priority b.number view }
{}

/// A slice holds a packet exactly where the packet was handed up to the slice as the packet's writer, the
/// switch had buffered it, and no later item ended that. The packet is among the last 256 of these. Since
/// then no item forgets, the switch didn't use its number for another packet, and no message of the slice
/// used it. The one that is found under a number is the held one whose ordinal has these low 24 bits.
pub fn packet_is_held_until_an_item_ends_it()
    ensures held { (s : Settings) (view : List Item) (held : HeldPacket) → Contains (held_in s view) held ↔ IsHeldIn s view held }
    ensures number { (s : Settings) (view : List Item) (number : ℕ) (held : HeldPacket) → (held_at s view number ≡ Some held) ↔ (IsHeldIn s view held × (held.ordinal % 2 ^ 24 ≡ number)) }
{}

/// The timestamps that count for the rate are those of the messages that passed it, each the greatest
/// timestamp up to its message: one that was refused doesn't count. A message keeps the rate where its
/// timestamp conforms with them.
pub fn moments_count_where_messages_pass()
    ensures count { (s : Settings) (view : List Item) → accepted s.rate s.burst (questions (past_of s view)) ≡ counted_moments s view }
    ensures keeps { (s : Settings) (view : List Item) (message : List ℕ) (moment : ℕ) → IsTrue (keeps_rate s view (past_of s view) moment) ↔ Conforms s.rate s.burst (counted_moments s view) (latest_moment (Msg message moment ∷ view)) }
{}
