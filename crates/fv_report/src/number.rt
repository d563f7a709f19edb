//! The number of an event, in decimal.

ghost use Rattle.std.specs.Prelude.{◌≡◌, ◌≤◌, ◌<◌, ◌+◌, ◌++◌, length, take, decimal};

use crate::line::put_text;
use itoa::Buffer;
use std::marker::Model;

/// Most digits of a number.
const DIGITS: usize = 20;

/// The digits of ten numbers that differ in the last one alone, so that those of an event's number serve the next
/// ones again.
#[derive(Drop)]
pub(crate) struct Tens {
    /// The first of the ten.
    first: u64,
    /// Its digits in front.
    text: [u8; DIGITS],
    /// How many of them stand before the last one.
    before: usize,
}

impl Model for Tens {
    ghost use Rattle.std.specs.Prelude.{ℕ, ◌<◌, take};
    ghost use Rattle.fv_report.specs.Digits.{HasTens};

    ghost Value = { ℕ };

    ghost view = { λ tens. tens.first };

    ghost invariant = { λ tens. (tens.before < 20) × HasTens tens.first (take tens.before tens.text) };
}

impl Tens {
    /// Those of the ten to which a number belongs.
    pub(crate) fn of(number: u64) -> Tens
        ensures { (result ≤ number) × (number < result + 10) }
    {
        let first = number - number % 10;
        let mut buffer = Buffer::new();
        let digits = buffer.format(first).as_bytes();
        let mut text = [0; DIGITS];
        text[..digits.len()].copy_from_slice(digits);
        Tens {
            first,
            text,
            before: digits.len() - 1,
        }
    }

    /// Those of a number's ten.
    fn turn_to(&mut self, number: u64)
        ensures { (self.new ≤ number) × (number < self.new + 10) }
    {
        if number < self.first || number - self.first >= 10 {
            *self = Tens::of(number);
        }
    }

    /// Writes a number behind the first `at` bytes of a line, which are kept. Where it ends.
    pub(crate) fn put(&mut self, line: &mut [u8], at: usize, number: u64) -> usize
        requires { at + 20 ≤ length line.old }
        ensures written { take result line.new ≡ take at line.old ++ decimal number }
        ensures end { result ≤ at + 20 }
        ensures size { length line.new ≡ length line.old }
    {
        self.turn_to(number);
        let _end = put_text(line, at, &self.text);
        let last = at + self.before;
        line[last] = b'0' + (number - self.first) as u8;
        last + 1
    }
}
