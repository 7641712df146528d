//! A line of text, built from its end to its front: the digits of a number come last one first, and nothing is moved.

ghost use Rattle.std.specs.Prelude.{◌≡◌, ◌+◌, ◌<◌, ◌≤◌, ◌∷◌, ◌++◌, length, codes};
ghost use Rattle.std.specs.Fmt.{decimal, signed_decimal};

use itoa::write_digits;
use std::marker::Model;

// The greatest length of a line in bytes: three numbers of up to 20 bytes, and words.
const MOST_BYTES: usize = 80;

/// A line that grows at its front. Contracts see its bytes.
#[derive(Drop)]
pub(crate) struct Line {
    bytes: [u8; MOST_BYTES],
    start: usize,
}

impl Model for Line {
    ghost use Rattle.std.specs.Prelude.{ℕ, List, ◌≤◌, drop};

    ghost Value = { List ℕ };

    ghost view = { λ l. drop l.start l.bytes };

    ghost invariant = { λ l. l.start ≤ 80 };
}

impl Line {
    /// A line that has its line end alone.
    #[inline(always)]
    pub(crate) fn ended() -> Line
        ensures { result ≡ codes "\n" }
    {
        Line {
            bytes: [b'\n'; MOST_BYTES],
            start: MOST_BYTES - 1,
        }
    }

    /// Puts a space in front.
    #[inline(always)]
    pub(crate) fn put_space(&mut self)
        requires { length self.old < 80 }
        ensures { self.new ≡ codes " " ++ self.old }
    {
        self.start -= 1;
        self.bytes[self.start] = b' ';
    }

    /// Puts words in front.
    #[inline(always)]
    pub(crate) fn put_words(&mut self, words: &[u8])
        requires { length words.now + length self.old ≤ 80 }
        ensures { self.new ≡ words.now ++ self.old }
    {
        let end = self.start;
        self.start -= words.len();
        self.bytes[self.start..end].copy_from_slice(words);
    }

    /// Puts a number in front, in decimal.
    #[inline(always)]
    pub(crate) fn put_count(&mut self, number: u64)
        requires { 20 + length self.old ≤ 80 }
        ensures put { self.new ≡ decimal number ++ self.old }
        ensures room { length self.new ≤ 20 + length self.old }
    {
        self.start = write_digits(number, &mut self.bytes, self.start);
    }

    /// Puts a number in front, in decimal, with a minus where it is negative.
    #[inline(always)]
    pub(crate) fn put_number(&mut self, number: i64)
        requires { 20 + length self.old ≤ 80 }
        ensures put { self.new ≡ signed_decimal number ++ self.old }
        ensures room { length self.new ≤ 20 + length self.old }
    {
        self.start = write_digits(number.unsigned_abs(), &mut self.bytes, self.start);
        if number < 0 {
            self.start -= 1;
            self.bytes[self.start] = b'-';
        }
    }

    /// The line.
    #[inline(always)]
    pub(crate) fn as_slice(&self) -> &[u8]
        ensures { result.now ≡ self.now }
    {
        &self.bytes[self.start..]
    }
}
