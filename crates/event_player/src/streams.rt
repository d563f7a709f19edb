//! The connections of one switch, cut into frames.

ghost use Rattle.std.specs.Prelude.{◌≡◌, ◌<◌, [], length, IfOk, IfSome, IfNone};
ghost use Rattle.of10_ctl.specs.Frames.{IsFrame};
ghost use Rattle.of10_ctl.specs.Streams.{with_piece};
ghost use Rattle.event_player.specs.Streams.{AreFreshFramers, NothingCame, Restarts, frame_given, TakesFrame};

use of10_ctl::{Frame, Framer, Next};
use std::alloc::{AllocError, Global};

/// What came on the connections of one switch and of its slices' controllers, by slot.
#[derive(Drop)]
pub(crate) struct Streams {
    pub(crate) switch: Framer,
    pub(crate) slices: Vec<Framer>,
}

fn fresh_framers(alloc: Global, count: u8) -> Result<Vec<Framer>, AllocError>
    ensures { IfOk result (λ v. AreFreshFramers count v.items) }
{
    let mut framers = Vec::new(alloc);
    while framers.len() < usize::from(count) {
        framers.push(Framer::new(alloc))?;
    }
    Ok(framers)
}

impl Streams {
    /// Nothing came yet, for a policy of so many slices.
    pub(crate) fn new(alloc: Global, slices: u8) -> Result<Streams, AllocError>
        ensures { IfOk result (NothingCame slices) }
    {
        Ok(Streams {
            switch: Framer::new(alloc),
            slices: fresh_framers(alloc, slices)?,
        })
    }
}

/// A stream begins anew, where there is one at the slot.
pub(crate) fn restart(alloc: Global, framers: &mut Vec<Framer>, slot: u8)
    ensures { Restarts slot framers.old.items framers.new.items }
{
    if let Some(framer) = framers.get_mut(usize::from(slot)) {
        *framer = Framer::new(alloc);
    }
}

fn frame_in(next: Next) -> Option<Frame>
    ensures value { result ≡ frame_given next }
    ensures frame { IfSome result IsFrame }
{
    match next {
        Next::Frame(frame) => Some(frame),
        Next::NeedMore | Next::Ended => None,
    }
}

/// The next frame of a stream of which a piece came, if all its bytes came and no frame before it has a bad length.
/// It is made in the memory of `spare`. What isn't taken yet of the piece is left; nothing is where no frame comes.
#[inline(always)]
pub(crate) fn next_frame(
    framer: &mut Framer,
    piece: &mut &[u8],
    spare: &mut Vec<u8>,
) -> Result<Option<Frame>, AllocError>
    ensures takes { IfOk result (λ next. TakesFrame next (with_piece framer.old piece.old.now) (with_piece framer.new piece.new.now)) }
    ensures all { IfOk result (λ next. IfNone next (piece.new.now ≡ [])) }
    ensures frame { IfOk result (λ next. IfSome next IsFrame) }
    ensures shorter { IfOk result (λ next. IfSome next (λ _. length (with_piece framer.new piece.new.now).left < length (with_piece framer.old piece.old.now).left)) }
{
    let next = framer.next_of(piece, spare)?;
    Ok(frame_in(next))
}
