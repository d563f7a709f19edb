ghost use Rattle.std.specs.Prelude.{◌≡◌, ◌≤◌, ◌+◌, ◌*◌, ◌++◌, ◌∷◌, List, [], ℕ, if◌then◌else◌, false, IfOk, OnOk, OnErr, IfSome, IfNone, length, take, drop};
ghost use Rattle.of10_ctl.specs.Frames.{IsFrame, is_bad};
ghost use Rattle.of10_ctl.specs.Streams.{Stands, GivesNext, HasNext, frames_of, frame_in, fed_with, with_piece};

use crate::frame::{Frame, told_size};
use std::alloc::{AllocError, Global};
use std::marker::Model;
use std::mem;

/// What comes next in a stream.
#[derive(Debug, Drop)]
pub enum Next {
    /// The next frame of all bytes that were fed.
    Frame(Frame),
    /// Not all bytes of the next frame were fed.
    NeedMore,
    /// A frame of a bad length was given, so that nobody knows where the next one begins.
    Ended,
}

/// How many bytes the first frame takes, where all of them are there.
fn first_size(bytes: &[u8]) -> Option<usize>
    ensures none { IfNone result (frames_of bytes.now ≡ []) }
    ensures whole { IfSome result (λ n. n ≤ length bytes.now) }
    ensures frame { IfSome result (λ n. IsFrame (take n bytes.now)) }
    // Whatever comes behind it.
    ensures first { IfSome result (λ n. (later : List ℕ) → frames_of (bytes.now ++ later) ≡ take n bytes.now ∷ (if is_bad (take n bytes.now) then [] else frames_of (drop n bytes.now ++ later))) }
{
    if bytes.len() < 8 {
        return None;
    }
    let size = told_size(bytes);
    if bytes.len() < size {
        return None;
    }
    Some(size)
}

/// A copy of the bytes, in memory that is there already as far as it reaches.
fn copied_in(alloc: Global, spare: &mut Vec<u8>, bytes: &[u8]) -> Result<Vec<u8>, AllocError>
    ensures { IfOk result (λ v. v.items ≡ bytes.now) }
{
    let mut copy = mem::replace(spare, Vec::new(alloc));
    copy.clear();
    copy.extend_from_slice(bytes)?;
    Ok(copy)
}

/// Cuts a stream into frames, in whatever pieces its bytes come.
#[derive(Drop)]
pub struct Framer {
    alloc: Global,
    bytes: Vec<u8>,
    /// How many of the bytes were given in frames.
    read: usize,
    ended: bool,
}

impl Model for Framer {
    ghost use Rattle.std.specs.Prelude.{◌≤◌, length, drop};
    ghost use Rattle.of10_ctl.specs.Streams.{Stream};

    ghost Value = { Stream };

    ghost view = { λ f. record { left = drop f.read f.bytes.items; ended = f.ended } };

    ghost invariant = { λ f. f.read ≤ length f.bytes.items };
}

impl Framer {
    /// Takes no memory.
    pub fn new(alloc: Global) -> Framer
        ensures { Stands result [] [] }
    {
        Framer {
            alloc,
            bytes: Vec::new(alloc),
            read: 0,
            ended: false,
        }
    }

    /// The bytes that were not yet given.
    fn left(&self) -> &[u8]
        ensures { result.now ≡ self.now.left }
    {
        &self.bytes[self.read..]
    }

    /// Moves the bytes that are left to the front once they are fewer than those given, so that a byte
    /// is moved at most once for each that was given.
    fn make_room(&mut self)
        ensures { self.new ≡ self.old }
    {
        let left = self.bytes.len() - self.read;
        if left < self.read {
            self.bytes.copy_within(self.read.., 0);
            self.bytes.truncate(left);
            self.read = 0;
        }
    }

    /// Takes the next bytes of the stream. Those after a frame of a bad length are of no use, and take no
    /// memory.
    pub fn feed(&mut self, piece: &[u8]) -> Result<(), AllocError>
        ensures stands { OnOk result ((fed : List ℕ) (given : List (List ℕ)) → Stands self.old fed given → Stands self.new (fed ++ piece.now) given) }
        ensures value { OnOk result (self.new ≡ fed_with self.old piece.now) }
        ensures unchanged { OnErr result (self.new ≡ self.old) }
        ensures memory { OnErr result (self.old.ended ≡ false) }
    {
        if self.ended || piece.is_empty() {
            return Ok(());
        }
        self.make_room();
        self.bytes.extend_from_slice(piece)?;
        Ok(())
    }

    /// The next frame of all that was fed; `NeedMore` where none is whole, and `Ended` after a frame of
    /// a bad length. Only a frame takes memory.
    pub fn next(&mut self) -> Result<Next, AllocError>
        ensures gives { IfOk result (λ next. GivesNext self.old next self.new) }
        ensures unchanged { OnErr result (self.new ≡ self.old) }
        ensures memory { OnErr result (HasNext self.old) }
    {
        let mut nothing = Vec::new(self.alloc);
        self.next_in(&mut nothing)
    }

    /// What [`Framer::next`] answers, where a frame is made in the memory of `spare`, which is empty then.
    pub fn next_in(&mut self, spare: &mut Vec<u8>) -> Result<Next, AllocError>
        ensures gives { IfOk result (λ next. GivesNext self.old next self.new) }
        ensures unchanged { OnErr result (self.new ≡ self.old) }
        ensures memory { OnErr result (HasNext self.old) }
        ensures ended { OnErr result (self.old.ended ≡ false) }
    {
        if self.ended {
            return Ok(Next::Ended);
        }
        let left = self.left();
        let Some(size) = first_size(left) else {
            return Ok(Next::NeedMore);
        };
        let frame = Frame::of(copied_in(self.alloc, spare, &left[..size])?);
        self.ended = frame.bad_length();
        self.read += size;
        Ok(Next::Frame(frame))
    }

    /// Feeds what is left of a piece.
    fn keep(&mut self, piece: &mut &[u8]) -> Result<(), AllocError>
        ensures all { OnOk result (piece.new.now ≡ []) }
        ensures value { OnOk result (self.new ≡ fed_with self.old piece.old.now) }
        ensures unchanged { OnErr result (self.new ≡ self.old) }
        ensures piece { OnErr result (piece.new.now ≡ piece.old.now) }
        ensures memory { OnErr result (self.old.ended ≡ false) }
    {
        self.feed(piece)?;
        *piece = &[];
        Ok(())
    }

    /// What [`Framer::next_in`] answers once the piece is fed.
    #[inline(never)]
    fn next_fed(&mut self, piece: &mut &[u8], spare: &mut Vec<u8>) -> Result<Next, AllocError>
        ensures gives { IfOk result (λ next. GivesNext (with_piece self.old piece.old.now) next (with_piece self.new piece.new.now)) }
        ensures all { IfOk result (λ next. piece.new.now ≡ []) }
        ensures memory { OnErr result (self.old.ended ≡ false) }
        ensures stands { OnErr result ((fed : List ℕ) (given : List (List ℕ)) → Stands (with_piece self.old piece.old.now) fed given → Stands (with_piece self.new piece.new.now) fed given) }
    {
        self.keep(piece)?;
        self.next_in(spare)
    }

    /// What [`Framer::next_in`] would answer once the piece was fed, of which what isn't given yet is left. Where no
    /// byte waits, a frame is made of the piece's own bytes, which aren't copied before.
    #[inline(always)]
    pub fn next_of(&mut self, piece: &mut &[u8], spare: &mut Vec<u8>) -> Result<Next, AllocError>
        ensures gives { IfOk result (λ next. GivesNext (with_piece self.old piece.old.now) next (with_piece self.new piece.new.now)) }
        ensures all { IfOk result (λ next. frame_in next ≡ [] → piece.new.now ≡ []) }
        ensures memory { OnErr result (self.old.ended ≡ false) }
        ensures stands { OnErr result ((fed : List ℕ) (given : List (List ℕ)) → Stands (with_piece self.old piece.old.now) fed given → Stands (with_piece self.new piece.new.now) fed given) }
    {
        if self.ended || self.read < self.bytes.len() {
            return self.next_fed(piece, spare);
        }
        let Some(size) = first_size(piece) else {
            self.keep(piece)?;
            return Ok(Next::NeedMore);
        };
        let frame = Frame::of(copied_in(self.alloc, spare, &piece[..size])?);
        self.ended = frame.bad_length();
        *piece = &piece[size..];
        Ok(Next::Frame(frame))
    }
}
