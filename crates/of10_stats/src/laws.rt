//! Laws of the definitions. Each function's contract is the law; its body does nothing.

ghost use Rattle.std.specs.Prelude.{ℕ, List, ◌≡◌, ◌≤◌, ◌↔◌, Ok, Some, length, take};
ghost use Rattle.of10_model.specs.Normal.{number_at};
ghost use Rattle.of10_model.specs.Padding.{AlikeBut};
ghost use Rattle.of10_ctl.specs.declared.kind.TheConstants.{STATS_REQUEST};
ghost use Rattle.of10_ctl.specs.Kinds.{IsOf};
ghost use Rattle.of10_stats.specs.declared.request.StatsRequest.{StatsRequest};
ghost use Rattle.of10_stats.specs.Requests.{IsRequest, spell_request, read_request};
ghost use Rattle.of10_stats.specs.Replies.{IsEntry, entry_size_of};

/// What is spelled of a request is a STATS_REQUEST, and is read as the same request.
pub fn request_is_read_again()
    ensures kind { (r : StatsRequest) (xid : ℕ) → IsRequest r → IsOf STATS_REQUEST (spell_request r xid) }
    ensures again { (r : StatsRequest) (xid : ℕ) → IsRequest r → read_request (spell_request r xid) ≡ Ok r }
{}

/// The padding of a STATS_REQUEST says nothing (OpenFlow 1.0.0, section 5.3.5). Two requests are read alike
/// where they differ in these bytes alone: byte 53 of types 1 and 2, bytes 14 to 19 of type 4, and bytes 14
/// and 15 of type 5.
pub fn request_padding_says_nothing()
    ensures flow { (a b : List ℕ) → number_at a 8 2 ≡ 1 → AlikeBut 53 54 a b → read_request a ≡ read_request b }
    ensures aggregate { (a b : List ℕ) → number_at a 8 2 ≡ 2 → AlikeBut 53 54 a b → read_request a ≡ read_request b }
    ensures port { (a b : List ℕ) → number_at a 8 2 ≡ 4 → AlikeBut 14 20 a b → read_request a ≡ read_request b }
    ensures queue { (a b : List ℕ) → number_at a 8 2 ≡ 5 → AlikeBut 14 16 a b → read_request a ≡ read_request b }
{}

/// The flags of a STATS_REQUEST, of which OpenFlow 1.0.0 defines none (section 5.3.5), say nothing: requests alike
/// but for bytes 10 and 11 are read alike.
pub fn request_flags_say_nothing()
    ensures { (a b : List ℕ) → AlikeBut 10 12 a b → read_request a ≡ read_request b }
{}

/// The size of an entry is that of the only well-formed entry that begins the bytes.
pub fn entry_size_is_that_of_the_entry()
    ensures { (kind n : ℕ) (rest : List ℕ) → (entry_size_of kind rest ≡ Some n) ↔ ((n ≤ length rest) × IsEntry kind (take n rest)) }
{}
