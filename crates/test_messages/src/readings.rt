//! What bytes are read as, in words, and whether they are written again.

mod messages;

ghost use Rattle.std.specs.Prelude.{◌<◌};

use messages::message_words;
use of10_action::{DecodeFault, decode_list, encode_list, list_size};
use of10_ctl::{Frame, Framer, Next, is_frame};
use std::alloc::{AllocError, Global};
use std::test::Fail;
use wire_samples::bytes;

/// What the bytes of a table are to be.
#[derive(Clone, Copy, PartialEq, Eq)]
pub enum Form {
    /// A message: what its decoder answers, as `{:?}` writes it, or the fault.
    Message,
    /// A list of actions, written behind two bytes: the actions and their size, or the fault.
    Actions,
    /// A frame: whether its type is 0, whether it is 2, and whether its length is bad.
    Frame,
    /// A stream whose pieces are fed one after the other: the frames that each brings, and what comes then.
    Stream,
}

/// The pieces of the digits of some bytes; how many bytes there are at least, with zeros for those that have no
/// digits here; and the pieces of the words for them. The words end with what is written, where that is other
/// bytes than these.
pub type Row = (&'static [&'static str], usize, &'static [&'static str]);

/// Fails at the first row of the table that has other words.
pub fn expect_read(alloc: Global, form: Form, table: &[Row]) -> Result<(), Fail> {
    for (pieces, length, words) in table {
        let found = words_for(alloc, form, pieces, *length)?;
        let wanted = words.concat(alloc)?;
        if found.as_str() != wanted.as_str() {
            return Err(Fail::new(format!(in alloc; "{pieces:?}: {found}, not {wanted}")?));
        }
    }
    Ok(())
}

fn words_for(
    alloc: Global,
    form: Form,
    pieces: &[&str],
    length: usize,
) -> Result<String, DecodeFault> {
    if form == Form::Stream {
        return Ok(stream_words(alloc, pieces)?);
    }
    let mut bytes = bytes(alloc, pieces)?;
    if bytes.len() < length {
        bytes.resize(length, 0)?;
    }
    match form {
        Form::Actions => action_words(alloc, &bytes),
        Form::Frame => Ok(frame_words(alloc, &bytes)?),
        _ => message_words(alloc, &bytes),
    }
}

/// The words, and behind them the bytes that are written, where those aren't the bytes that were read.
pub fn with_written(
    alloc: Global,
    words: String,
    written: &[u8],
    read: &[u8],
) -> Result<String, AllocError> {
    if written == read {
        return Ok(words);
    }
    let digits = hex::encode(alloc, written)?;
    format!(in alloc; "{words} written as {digits}")
}

fn action_words(alloc: Global, bytes: &[u8]) -> Result<String, DecodeFault> {
    let actions = match decode_list(alloc, bytes) {
        Ok(actions) => actions,
        Err(DecodeFault::Wire(fault)) => return Ok(format!(in alloc; "{fault:?}")?),
        Err(fault) => return Err(fault),
    };
    let items = actions.as_slice();
    let size = list_size(items);
    let words = format!(in alloc; "{items:?} {size}")?;
    let mut written = Vec::from_slice(alloc, &[1, 2])?;
    let mut read = Vec::from_slice(alloc, &[1, 2])?;
    encode_list(items, &mut written)?;
    read.extend_from_slice(bytes)?;
    Ok(with_written(alloc, words, &written, &read)?)
}

fn frame_words(alloc: Global, bytes: &[u8]) -> Result<String, AllocError> {
    if !is_frame(bytes) {
        return String::from_str(alloc, "no frame");
    }
    let frame = Frame::of(Vec::from_slice(alloc, bytes)?);
    let copy = frame.copy(alloc)?;
    let marks = (copy.is_of(0), copy.is_of(2), copy.bad_length());
    let words = format!(in alloc; "{marks:?}")?;
    with_written(alloc, words, copy.as_slice(), bytes)
}

fn stream_words(alloc: Global, pieces: &[&str]) -> Result<String, AllocError> {
    let mut framer = Framer::new(alloc);
    let mut words = String::new(alloc);
    for piece in pieces {
        let piece = bytes(alloc, &[*piece])?;
        let mut given = Vec::new(alloc);
        feed(&mut framer, &piece, &mut given)?;
        let digits = hex::encode(alloc, given.as_slice())?;
        let next = framer.next()?;
        write!(words, "{digits} {next:?} ")?;
    }
    Ok(words)
}

/// Feeds the piece, and puts the bytes of all frames that the framer then gives behind those given before.
fn feed(framer: &mut Framer, piece: &[u8], given: &mut Vec<u8>) -> Result<(), AllocError> {
    framer.feed(piece)?;
    while let Next::Frame(frame) = framer.next()? {
        given.extend_from_slice(frame.as_slice())?;
    }
    Ok(())
}

/// The bytes of all frames of a stream that comes in pieces of this size.
pub fn frames_in_pieces(alloc: Global, stream: &[u8], piece: usize) -> Result<Vec<u8>, AllocError>
    requires { 0 < piece }
{
    let mut framer = Framer::new(alloc);
    let mut given = Vec::new(alloc);
    for part in stream.chunks(piece) {
        feed(&mut framer, part, &mut given)?;
    }
    Ok(given)
}
