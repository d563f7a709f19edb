//! What the actions of a list are applied to.

ghost use Rattle.std.specs.Prelude.{◌≡◌};
ghost use Rattle.of10_action.specs.Actions.{HasAddress};
ghost use Rattle.action_check.specs.Origins.{image_after};

use match_meet::{rewrite, rewrite_header};
use of10_action::Action;
use of10_match::{Header12, Match};

/// What a list of actions is applied to. As the list is walked it is the image of that so far.
#[derive(Clone, Copy, PartialEq, Eq)]
pub enum Origin {
    /// A flow-mod's match, as far as one write rule of the slice has it.
    Piece(Match),
    /// The header of a packet that is sent.
    Packet(Header12),
    /// A packet with which a controller looks for links; it carries the slice's mark, and its header
    /// isn't tested.
    Probe { in_port: u16 },
}

/// What an image becomes by one more action.
pub(crate) fn after(image: &Origin, action: &Action) -> Origin
    requires { HasAddress action.now }
    ensures { result ≡ image_after image.now action.now }
{
    match image {
        Origin::Piece(cover) => Origin::Piece(rewrite(cover, action)),
        Origin::Packet(header) => Origin::Packet(rewrite_header(header, action)),
        Origin::Probe { in_port } => Origin::Probe { in_port: *in_port },
    }
}
