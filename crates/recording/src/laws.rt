//! Facts about recordings that no call needs.

ghost use Rattle.std.specs.Prelude.{◌≡◌, ◌+◌, ◌<◌, ◌≤◌, ◌↔◌, ℕ, true, List, [], length, Ok, Err};
ghost use Rattle.std.specs.List.{All};
ghost use Rattle.recording.specs.declared.item.Item.{Item};
ghost use Rattle.recording.specs.declared.fault.RecordingFault.{RecordingFault};
ghost use Rattle.recording.specs.Faults.{IsRefused};
ghost use Rattle.recording.specs.Recordings.{Told, HasMoment, all_told, may_be_told, recording, items_from, read_items};

/// How many records are looked for doesn't matter, where the number reaches that of the bytes.
pub fn count_is_enough()
    ensures { (n slices : ℕ) (bytes : List ℕ) (before : List Item) (at : ℕ) → length bytes ≤ at + n → items_from n slices bytes before at ≡ items_from (length bytes) slices bytes before at }
{}

/// Records of the form, each fitting those before it, are read from the file that spells them.
pub fn told_is_read()
    ensures { (slices : ℕ) (told : List Told) → All HasMoment told → may_be_told slices [] (all_told 8 told) ≡ true → read_items slices (recording told) ≡ Ok (all_told 8 told) }
{}

/// A file that is read is the one that spells its records, each of the form and fitting those before it.
pub fn read_is_told()
    ensures { (slices : ℕ) (bytes : List ℕ) (items : List Item) → All (λ b. b < 256) bytes → read_items slices bytes ≡ Ok items → (told : List Told) × (bytes ≡ recording told) × (items ≡ all_told 8 told) × All HasMoment told × (may_be_told slices [] items ≡ true) }
{}

/// A file is refused exactly for its magic or for its first fault behind it, which says the place where
/// the records before it end.
pub fn fault_is_the_first()
    ensures { (slices : ℕ) (bytes : List ℕ) (fault : RecordingFault) → All (λ b. b < 256) bytes → (read_items slices bytes ≡ Err fault) ↔ IsRefused slices bytes fault }
{}
