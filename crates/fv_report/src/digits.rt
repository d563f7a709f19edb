//! The hex digits of bytes.

ghost use Rattle.std.specs.Prelude.{◌≡◌, ◌<◌, ◌≤◌, ◌+◌, ◌*◌, ◌∷◌, [], length};
ghost use Rattle.hex.specs.Hex.{encode_lower};
ghost use Rattle.fv_report.specs.Digits.{HasDigits};

use std::marker::Model;

/// The two digits of each byte, so that a message's are copied.
#[derive(Drop)]
pub(crate) struct Digits {
    pairs: [[u8; 2]; 256],
}

impl Model for Digits {
    ghost use Rattle.std.specs.Prelude.{ℕ, List};
    ghost use Rattle.fv_report.specs.Digits.{ArePairs};

    ghost Value = { List (List ℕ) };

    ghost view = { λ digits. digits.pairs };

    ghost invariant = { λ digits. ArePairs 256 digits.pairs };
}

/// The two digits of a byte.
fn digits_of(byte: u8) -> [u8; 2]
    ensures { result ≡ encode_lower (byte ∷ []) }
{
    let mut pair = [0; 2];
    let _ = hex::encode_to_slice([byte], &mut pair);
    pair
}

impl Digits {
    /// Takes no memory.
    pub(crate) fn new() -> Digits {
        let mut pairs = [[0; 2]; 256];
        for byte in 0..256 {
            pairs[byte] = digits_of(byte as u8);
        }
        Digits { pairs }
    }

    /// Writes the digits of one byte behind those of the bytes before it.
    fn put_one(&self, bytes: &[u8], at: usize, out: &mut [u8])
        requires there { at < length bytes.now }
        requires room { length out.old ≡ 2 * length bytes.now }
        requires before { HasDigits at bytes.now out.old }
        ensures digits { HasDigits (at + 1) bytes.now out.new }
        ensures room { length out.new ≡ length out.old }
    {
        let [high, low] = self.pairs[usize::from(bytes[at])];
        out[2 * at] = high;
        out[2 * at + 1] = low;
    }

    /// Those of eight bytes.
    fn put_eight(&self, bytes: &[u8], at: usize, out: &mut [u8])
        requires there { at + 8 ≤ length bytes.now }
        requires room { length out.old ≡ 2 * length bytes.now }
        requires before { HasDigits at bytes.now out.old }
        ensures digits { HasDigits (at + 8) bytes.now out.new }
        ensures room { length out.new ≡ length out.old }
    {
        self.put_one(bytes, at, out);
        self.put_one(bytes, at + 1, out);
        self.put_one(bytes, at + 2, out);
        self.put_one(bytes, at + 3, out);
        self.put_one(bytes, at + 4, out);
        self.put_one(bytes, at + 5, out);
        self.put_one(bytes, at + 6, out);
        self.put_one(bytes, at + 7, out);
    }

    /// Writes the digits of bytes, two for each.
    pub(crate) fn put(&self, bytes: &[u8], out: &mut [u8])
        requires { length out.old ≡ 2 * length bytes.now }
        ensures { out.new ≡ encode_lower bytes.now }
    {
        let eights = bytes.len() / 8;
        for eight in 0..eights {
            self.put_eight(bytes, 8 * eight, out);
        }
        for at in 8 * eights..bytes.len() {
            self.put_one(bytes, at, out);
        }
    }
}
