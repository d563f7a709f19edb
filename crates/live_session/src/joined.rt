ghost use Rattle.std.specs.Prelude.{◌≡◌, ◌++◌, MatchBool};

// Appends a message where it fits into the room that there is.
pub(crate) fn append(buffer: &mut Vec<u8>, message: &[u8]) -> bool
    ensures { MatchBool result (buffer.new.items ≡ buffer.old.items ++ message.now) (buffer.new.items ≡ buffer.old.items) }
{
    if buffer.capacity() - buffer.len() < message.len() {
        return false;
    }
    buffer.extend_from_slice(message).is_ok()
}
