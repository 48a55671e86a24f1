ghost use Rattle.std.specs.Prelude.{◌≡◌, [], ◌≤◌, length, take, drop, IsTrue, ◌↔◌};
ghost use Rattle.std.specs.Str.Parse.{AllDigits};
ghost use Rattle.dq_base.specs.Rests.{Stops};
ghost use Rattle.dq_reading.specs.Reading.{Skips, TakesByte, TakesDigits};

use std::marker::Model;

/// A text that is read from its front, once and without a copy. Contracts see the bytes that are left.
#[derive(Drop)]
pub struct Left<'a> {
    bytes: &'a [u8],
}

impl<'a> Model for Left<'a> {
    ghost use Rattle.std.specs.Prelude.{List, ℕ};

    ghost Value = { List ℕ };

    ghost view = { λ l. l.bytes.now };
}

// How many digits stand at the front.
fn count_digits(bytes: &[u8]) -> usize
    ensures within { result ≤ length bytes.now }
    ensures digits { AllDigits 10 (take result bytes.now) }
    ensures stops { Stops (drop result bytes.now) }
{
    for (place, byte) in bytes.iter().enumerate() {
        if !byte.is_ascii_digit() {
            return place;
        }
    }
    bytes.len()
}

impl<'a> Left<'a> {
    /// All of a text. It takes no memory.
    pub fn new(text: &'a [u8]) -> Self
        ensures { result ≡ text.now }
    {
        Left { bytes: text }
    }

    /// Whether nothing is left.
    pub fn is_empty(&self) -> bool
        ensures { IsTrue result ↔ (self.now ≡ []) }
    {
        self.bytes.is_empty()
    }

    /// How many bytes are left.
    pub fn len(&self) -> u64
        ensures { result ≡ length self.now }
    {
        self.bytes.len() as u64
    }

    /// Takes a word off the front, and tells whether it stood there. Where it didn't, nothing is taken. The cost is that of the word.
    pub fn skip(&mut self, word: &[u8]) -> bool
        ensures { Skips word.now self.old self.new result }
    {
        match self.bytes.strip_prefix(word) {
            Some(rest) => {
                self.bytes = rest;
                true
            }
            None => false,
        }
    }

    /// Takes a byte off the front; none exactly where nothing is left.
    pub fn take_byte(&mut self) -> Option<u8>
        ensures { TakesByte self.old self.new result }
    {
        let (first, rest) = self.bytes.split_first()?;
        self.bytes = rest;
        Some(*first)
    }

    /// Takes all the digits off the front. The cost is theirs.
    pub fn take_digits(&mut self) -> &'a [u8]
        ensures { TakesDigits self.old self.new result.now }
    {
        let count = count_digits(self.bytes);
        let digits = &self.bytes[..count];
        self.bytes = &self.bytes[count..];
        digits
    }
}
