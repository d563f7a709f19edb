//! Laws of the definitions. Each function's contract is the law; its body does nothing.

ghost use Rattle.std.specs.Prelude.{ℕ, List};
ghost use Rattle.flowspace.specs.declared.slices.Slice.{Slice};
ghost use Rattle.flowspace.specs.declared.rules.Rule.{Rule};
ghost use Rattle.flowspace.specs.declared.swaps.Swap.{Swap};
ghost use Rattle.slice_words.specs.Items.{Settings, Item};
ghost use Rattle.slice_words.specs.Laws.{AreOfWhatItWrites, AreJoined, IsSilentWhileDown, IsUpByTheLast, EndsExactly, IsSetByTheLast, IsForgotten, IsNeverSet, IsAtLeastEach, IsOneOrZero};

/// A slice's settings are its limits, the matches that it writes, in rule order, and its own swaps: neither the
/// priorities of the rules, nor who reads, nor what other slices write is part of them.
pub fn settings_are_of_what_it_writes()
    ensures { (slice : Slice) (slot : ℕ) (swaps : List Swap) (rules other : List Rule) → AreOfWhatItWrites slice slot swaps rules other }
{}

/// What a slice is sent over a view with more items is what it was sent before them, and then what
/// follows from each of them.
pub fn answers_are_joined()
    ensures { (s : Settings) (view items : List Item) → AreJoined s view items }
{}

/// Nothing follows from an item other than an up while the slice isn't up.
pub fn silent_while_down()
    ensures { (s : Settings) (view : List Item) (item : Item) → IsSilentWhileDown s view item }
{}

/// A slice is up where the last of its ups, its downs and its messages that end the connection is an up.
pub fn up_by_the_last()
    ensures { (view : List Item) → IsUpByTheLast view }
{}

/// A connection ends exactly with a message that ends it, of a slice that is up.
pub fn ends_exactly()
    ensures { (s : Settings) (view : List Item) (item : Item) → EndsExactly s view item }
{}

/// How much of a packet a slice's controller wants is what its last SET_CONFIG that was taken says, since
/// the slice last connected, disconnected or sent a message that ends its connection; 128 where there is none.
pub fn length_by_the_last()
    ensures set { (later : List Item) (message : List ℕ) (moment wanted : ℕ) (earlier : List Item) → IsSetByTheLast later message moment wanted earlier }
    ensures forgotten { (later : List Item) (item : Item) (earlier : List Item) → IsForgotten later item earlier }
    ensures never { (view : List Item) → IsNeverSet view }
{}

/// The latest timestamp of a view is the greatest of the timestamps of its items that have one: it is at least
/// each of them, and it is one of them; zero where there is none.
pub fn latest_is_the_greatest_moment()
    ensures least { (view : List Item) → IsAtLeastEach view }
    ensures one { (view : List Item) → IsOneOrZero view }
{}
