//! What a record of a recording carries.

ghost use Rattle.std.specs.Prelude.{◌≡◌};
ghost use Rattle.desk_words.specs.Recorded.{bytes_carried};

use recording::Item;

/// The bytes that a record of the file carries.
pub fn carried<'a>(file: &'a [u8], item: &Item) -> &'a [u8]
    ensures { result.now ≡ bytes_carried file.now item.now }
{
    let rest = file.get(item.from..).unwrap_or(&[]);
    &rest[..item.size.min(rest.len())]
}
