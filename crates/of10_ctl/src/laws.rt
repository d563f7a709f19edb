//! Laws of the definitions. Each function's contract is the law; its body does nothing.

ghost use Rattle.std.specs.Prelude.{ℕ, List, [], ◌∷◌, ◌++◌, ◌≡◌, ◌↔◌, ◌+◌, ◌<◌, ◌≤◌, ◌^◌, true, false, length, take, drop, slice_index};
ghost use Rattle.std.specs.List.{All};
ghost use Rattle.of10_ctl.specs.declared.framer.Next.TheVariants.{Frame, NeedMore, Ended};
ghost use Rattle.of10_ctl.specs.declared.kind.TheConstants.{HELLO, ERROR, ECHO_REQUEST, ECHO_REPLY, VENDOR, FEATURES_REQUEST, FEATURES_REPLY, GET_CONFIG_REQUEST, GET_CONFIG_REPLY, SET_CONFIG, PACKET_IN, FLOW_REMOVED, PORT_STATUS, PACKET_OUT, FLOW_MOD, PORT_MOD, STATS_REQUEST, STATS_REPLY, BARRIER_REQUEST, BARRIER_REPLY, QUEUE_GET_CONFIG_REQUEST, QUEUE_GET_CONFIG_REPLY};
ghost use Rattle.of10_ctl.specs.Heads.{head_of, length_field};
ghost use Rattle.of10_ctl.specs.Frames.{IsFrame, message_of};
ghost use Rattle.of10_ctl.specs.Kinds.{IsOf};
ghost use Rattle.of10_ctl.specs.Streams.{frames_at, frames_of, has_bad, AreFirst, next_answer, Stream, Stands};

/// The types of messages have the numbers 0 to 21 (OpenFlow 1.0.0, section 5.1, `ofp_type`).
pub fn types_are_numbered()
    ensures from_0 { HELLO ∷ ERROR ∷ ECHO_REQUEST ∷ ECHO_REPLY ∷ VENDOR ∷ [] ≡ 0 ∷ 1 ∷ 2 ∷ 3 ∷ 4 ∷ [] }
    ensures from_5 { FEATURES_REQUEST ∷ FEATURES_REPLY ∷ GET_CONFIG_REQUEST ∷ GET_CONFIG_REPLY ∷ SET_CONFIG ∷ [] ≡ 5 ∷ 6 ∷ 7 ∷ 8 ∷ 9 ∷ [] }
    ensures from_10 { PACKET_IN ∷ FLOW_REMOVED ∷ PORT_STATUS ∷ PACKET_OUT ∷ FLOW_MOD ∷ PORT_MOD ∷ [] ≡ 10 ∷ 11 ∷ 12 ∷ 13 ∷ 14 ∷ 15 ∷ [] }
    ensures from_16 { STATS_REQUEST ∷ STATS_REPLY ∷ BARRIER_REQUEST ∷ BARRIER_REPLY ∷ QUEUE_GET_CONFIG_REQUEST ∷ QUEUE_GET_CONFIG_REPLY ∷ [] ≡ 16 ∷ 17 ∷ 18 ∷ 19 ∷ 20 ∷ 21 ∷ [] }
{}

/// A message is a frame of its type, as long as header and body.
pub fn message_is_frame()
    ensures frame { (kind xid : ℕ) (body : List ℕ) → length body ≤ 65527 → IsFrame (message_of kind xid body) }
    ensures kind { (kind xid : ℕ) (body : List ℕ) → length body ≤ 65527 → IsOf kind (message_of kind xid body) }
    ensures size { (kind xid : ℕ) (body : List ℕ) → length (message_of kind xid body) ≡ 8 + length body }
{}

/// The header and the body of a message are read as they were written.
pub fn head_is_read_again()
    ensures head { (kind xid : ℕ) (body : List ℕ) → length body ≤ 65527 → xid < 2 ^ 32 → head_of (message_of kind xid body) ≡ record { version = 1; kind = kind; length = 8 + length body; xid = xid } }
    ensures body { (kind xid : ℕ) (body : List ℕ) → drop 8 (message_of kind xid body) ≡ body }
{}

/// The frames of a stream, by what its bytes begin with.
pub fn stream_is_cut_frame_by_frame()
    ensures short { (bytes : List ℕ) → length bytes < 8 → frames_of bytes ≡ [] }
    ensures bad { (bytes : List ℕ) → 8 ≤ length bytes → length_field bytes < 8 → frames_of bytes ≡ take 8 bytes ∷ [] }
    ensures cut_off { (bytes : List ℕ) → 8 ≤ length_field bytes → length bytes < length_field bytes → frames_of bytes ≡ [] }
    ensures whole { (bytes : List ℕ) → 8 ≤ length_field bytes → length_field bytes ≤ length bytes → frames_of bytes ≡ take (length_field bytes) bytes ∷ frames_of (drop (length_field bytes) bytes) }
{}

/// Any count that reaches the number of bytes gives the same frames.
pub fn count_of_frames_does_not_matter()
    ensures { (n : ℕ) (bytes : List ℕ) → length bytes ≤ n → frames_at n bytes ≡ frames_of bytes }
{}

/// What a stream of bytes is cut into are frames.
pub fn stream_is_cut_into_frames()
    ensures { (bytes : List ℕ) → ((k : ℕ) → slice_index bytes k < 256) → All IsFrame (frames_of bytes) }
{}

/// The frames that a framer gave are the first of all bytes fed, in whatever pieces they came.
pub fn given_frames_come_first()
    ensures { (stream : Stream) (fed : List ℕ) (given : List (List ℕ)) → Stands stream fed given → AreFirst given (frames_of fed) }
{}

/// A framer gives a frame exactly where it is the next one, needs more exactly where all frames were
/// given and none of them has a bad length, and has ended exactly where one of a bad length was given.
pub fn framer_answers_exactly()
    ensures frame { (stream : Stream) (fed : List ℕ) (given : List (List ℕ)) (next : List ℕ) → Stands stream fed given → (next_answer fed given ≡ Frame next) ↔ AreFirst (given ++ next ∷ []) (frames_of fed) }
    ensures need_more { (stream : Stream) (fed : List ℕ) (given : List (List ℕ)) → Stands stream fed given → (next_answer fed given ≡ NeedMore) ↔ ((given ≡ frames_of fed) × (has_bad given ≡ false)) }
    ensures ended { (stream : Stream) (fed : List ℕ) (given : List (List ℕ)) → Stands stream fed given → (next_answer fed given ≡ Ended) ↔ (has_bad given ≡ true) }
{}
