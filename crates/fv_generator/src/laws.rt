//! Facts about what is made. Each function's contract is the fact; its body does nothing.

ghost use Rattle.std.specs.Prelude.{◌≡◌, ◌+◌, ◌*◌, ◌≤◌, ℕ, length, Ok};
ghost use Rattle.flowspace.specs.Loading.{load_of};
ghost use Rattle.flowspace.specs.Policies.{IsPolicy};
ghost use Rattle.recording.specs.Recordings.{all_told, read_items};
ghost use Rattle.fv_generator.specs.Made.{records_of, recording_of};
ghost use Rattle.fv_generator.specs.Policies.{the_policy};

/// A made recording is one under the policy that is made for it: it is read as the records that were drawn.
pub fn made_recording_is_read()
    ensures { (seed count : ℕ) → count ≤ 1000000 → read_items (length the_policy.slices) (recording_of seed count) ≡ Ok (all_told 8 (records_of seed count)) }
{}

/// A made recording has at most 96 bytes for each round, beside those of its beginning.
pub fn made_recording_is_small()
    ensures { (seed count : ℕ) → length (recording_of seed count) ≤ 296 + 96 * count }
{}

/// The policy is accepted.
pub fn policy_is_accepted()
    ensures policy { IsPolicy the_policy.slices the_policy.rules }
    ensures loaded { load_of the_policy.slices the_policy.rules ≡ Ok the_policy }
{}
