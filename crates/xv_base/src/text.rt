//! What is wrong with a text, and a line that is being written.

ghost use Rattle.std.specs.Prelude.{◌≡◌, ◌+◌, ◌*◌, ◌<◌, ◌≤◌, [], ◌∷◌, ◌++◌, length, decimal};
ghost use Rattle.xv_base.specs.Hex.{hex, hex_digit};

use std::marker::Model;

/// Why a line is refused.
#[derive(Clone, Copy, Debug, PartialEq, Eq)]
pub enum LineWhy {
    /// The input ends before the line does, or before a line that must still come.
    Unended,
    /// A word that is not known, or the wrong number of fields.
    BadWord,
    /// A known word that is not allowed at this place.
    Order,
    /// A field that is no number.
    BadNumber,
    /// A field that is no list of bytes.
    BadHex,
    /// A number that is not within the limit of this number.
    Limit(u8),
    /// A number that names nothing.
    OutOfRange,
    /// A store or a load over the end of a page.
    CrossesPage,
    /// More unit operations than a job may have.
    TooMany,
}

/// The first line that is refused, from 1 over the whole input, or 0 for the input itself.
#[derive(Clone, Copy, Debug, PartialEq, Eq)]
pub struct LineFault {
    pub line: u32,
    pub why: LineWhy,
}

/// Why a text is not read.
#[derive(Clone, Copy, Debug, PartialEq, Eq)]
pub enum TextError {
    Fault(LineFault),
    NoMemory,
}

/// A line of at most 256 bytes, which takes no memory.
#[derive(Clone, Copy, Debug, PartialEq, Eq)]
pub struct LineBuf {
    padded: [u8; 256],
    count: usize,
}

impl Model for LineBuf {
    ghost use Rattle.std.specs.Prelude.{ℕ, List, take, length};
    ghost use Rattle.xv_base.specs.Padded.{IsPadded, padded_to};

    ghost Value = { List ℕ };

    ghost view = { λ l. take l.count l.padded };

    ghost invariant = { λ l. IsPadded 0 256 l.count l.padded };

    ghost inverse = { λ bytes. record { padded = padded_to 0 256 bytes; count = length bytes } };

    ghost inverse_ok = { λ l h i. record { padded = h.blanks_follow i; count = h.counted i } };
}

impl LineBuf {
    /// An empty line.
    pub fn new() -> LineBuf
        ensures { result ≡ [] }
    {
        LineBuf {
            padded: [0; 256],
            count: 0,
        }
    }

    /// The bytes of the line.
    pub fn bytes(&self) -> &[u8]
        ensures exactly { result.now ≡ self.now }
        ensures few { length self.now ≤ 256 }
    {
        &self.padded[..self.count]
    }

    /// Appends a byte, for which there is room.
    pub fn push(&mut self, byte: u8)
        requires { length self.old < 256 }
        ensures { self.new ≡ self.old ++ byte ∷ [] }
    {
        self.padded[self.count] = byte;
        self.count += 1;
    }

    /// Appends bytes, for which there is room.
    pub fn push_all(&mut self, bytes: &[u8])
        requires { length self.old + length bytes.now ≤ 256 }
        ensures { self.new ≡ self.old ++ bytes.now }
    {
        for byte in bytes {
            self.push(*byte);
        }
    }

    /// Appends a number in decimal digits, where there is room for ten.
    pub fn push_number(&mut self, n: u32)
        requires { length self.old + 10 ≤ 256 }
        ensures exactly { self.new ≡ self.old ++ decimal n }
        ensures few { length self.new ≤ length self.old + 10 }
    {
        self.push_digits(n as u64);
    }

    /// Appends a number of 64 bits in decimal digits, where there is room for twenty.
    pub fn push_long(&mut self, n: u64)
        requires { length self.old + 20 ≤ 256 }
        ensures exactly { self.new ≡ self.old ++ decimal n }
        ensures few { length self.new ≤ length self.old + 20 }
    {
        self.push_digits(n);
    }

    /// Appends bytes in hexadecimal digits, two a byte, for which there is room.
    pub fn push_hex(&mut self, bytes: &[u8])
        requires { length self.old + 2 * length bytes.now ≤ 256 }
        ensures exactly { self.new ≡ self.old ++ hex bytes.now }
        ensures long { length self.new ≡ length self.old + 2 * length bytes.now }
    {
        for byte in bytes {
            self.push(hex_digit(*byte / 16));
            self.push(hex_digit(*byte % 16));
        }
    }

    /// Appends the digits of a number, for which there is room.
    fn push_digits(&mut self, n: u64)
        requires { length self.old + length (decimal n) ≤ 256 }
        ensures { self.new ≡ self.old ++ decimal n }
    {
        if n >= 10 {
            self.push_digits(n / 10);
        }
        self.push(b'0' + (n % 10) as u8);
    }
}

/// The hexadecimal digit of a number below 16.
fn hex_digit(n: u8) -> u8
    requires { n < 16 }
    ensures { result ≡ hex_digit n }
{
    if n < 10 { b'0' + n } else { b'a' - 10 + n }
}
