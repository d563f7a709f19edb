//! The lines of a report.

ghost use Rattle.std.specs.Prelude.{ℕ, ◌≡◌, ◌≤◌, ◌+◌, ◌-◌, ◌*◌, ◌^◌, ◌++◌, OnOk, length, min, take};
ghost use Rattle.hex.specs.Hex.{encode_lower};
ghost use Rattle.desk_words.specs.Reports.{place_text, saying_text, line_text, last_line};
ghost use Rattle.event_player.specs.Lines.{place_of, saying_of, line_of};
ghost use Rattle.fv_report.specs.Writing.{Wrote, Counted};

use crate::digits::Digits;
use crate::number::Tens;
use event_player::{Desk, Event, LinePlace, ReportFault, Said, Teller};
use fv_base::{Sink, put_all};
use itoa::Buffer;
use std::alloc::{AllocError, Global};
use std::marker::Model;

/// Most bytes of a line's place: two numbers of at most forty digits each, and a blank behind each.
const PLACE: usize = 82;

/// The line that is being made; its memory serves the next one again.
#[derive(Drop)]
pub(crate) struct LineBuffer {
    /// The line, and behind it what longer ones have left.
    bytes: Vec<u8>,
    /// How many bytes the line has.
    len: usize,
    digits: Digits,
    /// The digits of the last event's number.
    number: Tens,
}

impl Model for LineBuffer {
    ghost use Rattle.std.specs.Prelude.{ℕ, List, ◌≤◌, length, take};

    ghost Value = { List ℕ };

    ghost view = { λ line. take line.len line.bytes.items };

    ghost invariant = { λ line. line.len ≤ length line.bytes.items };
}

/// Makes the bytes so many at least.
fn grow(bytes: &mut Vec<u8>, count: usize) -> Result<(), AllocError>
    ensures room { OnOk result (count ≤ length bytes.new.items) }
    ensures more { length bytes.old.items ≤ length bytes.new.items }
{
    if count > bytes.len() {
        bytes.resize(count, 0)?;
    }
    Ok(())
}

/// Writes a text behind the first `at` bytes of a line, which are kept. Where it ends.
pub(crate) fn put_text(line: &mut [u8], at: usize, text: &[u8]) -> usize
    requires { at + length text.now ≤ length line.old }
    ensures written { take result line.new ≡ take at line.old ++ text.now }
    ensures end { result ≡ at + length text.now }
    ensures size { length line.new ≡ length line.old }
{
    let end = at + text.len();
    line[at..end].copy_from_slice(text);
    end
}

/// Writes a message in hex, likewise.
#[inline(always)]
fn put_hex(digits: &Digits, line: &mut [u8], at: usize, message: &[u8]) -> usize
    requires { at + 2 * length message.now ≤ length line.old }
    ensures written { take result line.new ≡ take at line.old ++ encode_lower message.now }
    ensures end { result ≡ at + 2 * length message.now }
    ensures size { length line.new ≡ length line.old }
{
    let end = at + 2 * message.len();
    digits.put(message, &mut line[at..end]);
    end
}

/// Begins a line with its place. Where it ends.
fn put_place(number: &mut Tens, line: &mut [u8], place: LinePlace) -> usize
    requires { 82 ≤ length line.old }
    ensures written { take result line.new ≡ place_text (place_of place) }
    ensures end { result ≤ 82 }
    ensures size { length line.new ≡ length line.old }
{
    let end = number.put(line, 0, place.number);
    if place.switch < 10 {
        return put_text(line, end, &[b' ', b'0' + place.switch, b' ']);
    }
    let end = put_text(line, end, b" ");
    let end = put_text(line, end, Buffer::new().format(place.switch).as_bytes());
    put_text(line, end, b" ")
}

/// How many bytes the words of a line are behind its place.
fn size_of(said: &Said<'_>) -> usize
    ensures { result ≡ min (length (saying_text (saying_of said.now))) (2 ^ 64 - 1) }
{
    match said {
        Said::Lane(message) => message.len().saturating_mul(2).saturating_add(5),
        Said::To(_, name, message) => message
            .len()
            .saturating_mul(2)
            .saturating_add(name.len())
            .saturating_add(4),
        Said::Close(name) => name.len().saturating_add(6),
        Said::Down => 4,
    }
}

/// Writes what a line says behind its place. Where it ends.
fn put_said(digits: &Digits, line: &mut [u8], at: usize, said: Said<'_>) -> usize
    requires { at + length (saying_text (saying_of said)) ≤ length line.old }
    ensures written { take result line.new ≡ take at line.old ++ saying_text (saying_of said.entry) }
    ensures end { result ≡ at + length (saying_text (saying_of said.entry)) }
    ensures size { length line.new ≡ length line.old }
{
    match said {
        Said::Lane(message) => {
            let end = put_text(line, at, b"lane ");
            put_hex(digits, line, end, message)
        }
        Said::To(_, name, message) => {
            let end = put_text(line, at, b"to ");
            let end = put_text(line, end, name.as_bytes());
            let end = put_text(line, end, b" ");
            put_hex(digits, line, end, message)
        }
        Said::Close(name) => {
            let end = put_text(line, at, b"close ");
            put_text(line, end, name.as_bytes())
        }
        Said::Down => put_text(line, at, b"down"),
    }
}

impl LineBuffer {
    /// Takes no memory.
    pub(crate) fn new(alloc: Global) -> LineBuffer {
        LineBuffer {
            bytes: Vec::new(alloc),
            len: 0,
            digits: Digits::new(),
            number: Tens::of(0),
        }
    }

    /// Makes a whole line.
    fn make(&mut self, place: LinePlace, said: Said<'_>) -> Result<(), AllocError>
        ensures { OnOk result (self.new ≡ line_text (line_of place said.entry)) }
    {
        let size = size_of(&said).saturating_add(PLACE + 1);
        grow(&mut self.bytes, size)?;
        let line = self.bytes.as_mut_slice();
        let end = put_place(&mut self.number, line, place);
        let end = put_said(&self.digits, line, end, said);
        self.len = put_text(line, end, b"\n");
        Ok(())
    }

    /// The bytes of the line.
    fn made(&self) -> &[u8]
        ensures { result.now ≡ self.now }
    {
        &self.bytes[..self.len]
    }

    /// Makes the last line: how many events there were.
    fn make_last(&mut self, events: u64) -> Result<(), AllocError>
        ensures { OnOk result (self.new ≡ last_line events) }
    {
        grow(&mut self.bytes, PLACE)?;
        let line = self.bytes.as_mut_slice();
        let end = put_text(line, 0, b"end ");
        let end = put_text(line, end, Buffer::new().format(events).as_bytes());
        self.len = put_text(line, end, b"\n");
        Ok(())
    }
}

/// Puts bytes, all at once.
#[inline(always)]
pub(crate) fn put<K: Sink>(out: &mut K, bytes: &[u8]) -> Result<(), ReportFault>
    ensures writes { Wrote result bytes.now (K.contents out.old) (K.contents out.new) }
    ensures counted { Counted result (K.faults out.old) (K.faults out.new) }
{
    match put_all(out, bytes) {
        Ok(()) => Ok(()),
        Err(_) => Err(ReportFault::WriteFault),
    }
}

/// Writes what is reported as lines of a report.
#[derive(Drop)]
pub(crate) struct Writer<'a, K: Sink> {
    pub(crate) out: &'a mut K,
    pub(crate) line: &'a mut LineBuffer,
}

impl<'a, K: Sink> Teller for Writer<'a, K> {
    ghost use Rattle.std.specs.Prelude.{◌≡◌};
    ghost use Rattle.desk_words.specs.Reports.{line_text};
    ghost use Rattle.fv_report.specs.Writing.{Wrote, Counted};
    ghost use Rattle.event_player.specs.Telling.{ByLine};

    ghost Tells = { λ old cue outcome new. ByLine (λ was line told is. (is.out.ghost_name ≡ was.out.ghost_name) × Wrote told (line_text line) (K.contents was.out.now) (K.contents is.out.now) × Counted told (K.faults was.out.now) (K.faults is.out.now)) old cue outcome new };

    #[inline(always)]
    fn come(&mut self, _: LinePlace, _: u64, _: &Event, _: &Desk) -> Result<(), ReportFault> {
        Ok(())
    }

    #[inline(always)]
    fn tell(&mut self, place: LinePlace, said: Said<'_>) -> Result<(), ReportFault> {
        if self.line.make(place, said).is_err() {
            return Err(ReportFault::Memory);
        }
        put(self.out, self.line.made())
    }
}

impl<'a, K: Sink> Writer<'a, K> {
    /// Puts the last line: how many events there were.
    pub(crate) fn put_last(&mut self, events: u64) -> Result<(), ReportFault>
        ensures same { self.new.out.ghost_name ≡ self.old.out.ghost_name }
        ensures writes { Wrote result (last_line events) (K.contents self.old.out.now) (K.contents self.new.out.now) }
        ensures counted { Counted result (K.faults self.old.out.now) (K.faults self.new.out.now) }
    {
        if self.line.make_last(events).is_err() {
            return Err(ReportFault::Memory);
        }
        put(self.out, self.line.made())
    }
}
