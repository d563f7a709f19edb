//! Laws of the definitions. Each function's contract is the law; its body does nothing.

ghost use Rattle.std.specs.Prelude.{List, ◌≢◌, ◌%◌, ◌^◌, ◌↔◌, AllPairs, Contains};
ghost use Rattle.buffer_map.specs.declared.held.Held.{Held};
ghost use Rattle.buffer_map.specs.Buffers.{BufferCall, held};
ghost use Rattle.buffer_map.specs.Laws.{IsHeld};

/// A packet is held exactly where it was given under its physical number and header, with so many given
/// before it, and nothing since then ended that. So since then fewer than 256 others were given, nothing was
/// dropped, its physical number was not lost, and its own number was not used.
pub fn packet_is_held_until_a_call_ends_it()
    ensures { (calls : List BufferCall) (b : Held) → Contains (held calls) b ↔ IsHeld calls b }
{}

/// No two held packets have one number.
pub fn numbers_differ()
    ensures { (calls : List BufferCall) → AllPairs (λ one other. one.ordinal % 2 ^ 24 ≢ other.ordinal % 2 ^ 24) (held calls) }
{}
