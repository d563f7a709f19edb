//! Laws of the definitions. Each function's contract is the law; its body does nothing.

ghost use Rattle.std.specs.Prelude.{ℕ, List, [], ◌∷◌, ◌++◌, ◌≡◌, ◌+◌, ◌≤◌, ◌<◌, true, false, length};
ghost use Rattle.outbox.specs.Queues.{Queue, size, push, push_all};

/// A message is kept exactly where the queue isn't choked and the bytes that wait are within the limit
/// with it.
pub fn message_is_kept_within_the_limit()
    ensures kept { (limit : ℕ) (pending : List (List ℕ)) (message : List ℕ) → size pending + length message ≤ limit → push limit (record { pending = pending; choked = false }) message ≡ record { pending = pending ++ message ∷ []; choked = false } }
    ensures passing { (limit : ℕ) (pending : List (List ℕ)) (message : List ℕ) → limit < size pending + length message → push limit (record { pending = pending; choked = false }) message ≡ record { pending = pending; choked = true } }
    ensures choked { (limit : ℕ) (pending : List (List ℕ)) (message : List ℕ) → push limit (record { pending = pending; choked = true }) message ≡ record { pending = pending; choked = true } }
{}

/// Messages are all kept where the bytes that wait are within the limit with them.
pub fn all_are_kept_within_the_limit()
    ensures { (limit : ℕ) (pending messages : List (List ℕ)) → size pending + size messages ≤ limit → push_all limit (record { pending = pending; choked = false }) messages ≡ record { pending = pending ++ messages; choked = false } }
{}

/// The bytes that wait never pass the limit, and a choked queue stays as it is.
pub fn queue_stays_within_its_limit()
    ensures within { (limit : ℕ) (q : Queue) (messages : List (List ℕ)) → size q.pending ≤ limit → size (push_all limit q messages).pending ≤ limit }
    ensures choked { (limit : ℕ) (pending messages : List (List ℕ)) → push_all limit (record { pending = pending; choked = true }) messages ≡ record { pending = pending; choked = true } }
{}

/// Messages come one after the other, however they are put together: none leave a queue as it is, one comes as
/// by [`message_is_kept_within_the_limit`] is said, and of more the later come to the queue that the earlier left.
pub fn messages_come_one_after_the_other()
    ensures none { (limit : ℕ) (q : Queue) → push_all limit q [] ≡ q }
    ensures one { (limit : ℕ) (q : Queue) (message : List ℕ) → push_all limit q (message ∷ []) ≡ push limit q message }
    ensures more { (limit : ℕ) (q : Queue) (messages later : List (List ℕ)) → push_all limit q (messages ++ later) ≡ push_all limit (push_all limit q messages) later }
{}
