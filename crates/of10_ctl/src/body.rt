ghost use Rattle.std.specs.Prelude.{◌≡◌, ◌≤◌, drop, length};

use crate::frame::Frame;
use std::marker::Model;

/// What follows the header of a message, where it lies: at most 65,527 bytes (OpenFlow 1.0.0, section 5.1).
#[derive(Drop)]
pub struct BodyView<'a> {
    bytes: &'a [u8],
}

impl<'a> Model for BodyView<'a> {
    ghost use Rattle.std.specs.Prelude.{ℕ, ◌≤◌, List, length};

    ghost Value = { List ℕ };

    ghost view = { λ b. b.bytes.now };

    ghost invariant = { λ b. length b.bytes.now ≤ 65527 };
}

impl<'a> BodyView<'a> {
    /// The body of the frame, with no copy.
    pub fn of(frame: &'a Frame) -> BodyView<'a>
        ensures { result ≡ drop 8 frame.now }
    {
        BodyView {
            bytes: frame.body(),
        }
    }

    /// Its bytes.
    pub fn as_slice(&self) -> &'a [u8]
        ensures value { result.now ≡ self.now }
        ensures short { length self.now ≤ 65527 }
    {
        self.bytes
    }
}
