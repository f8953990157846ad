//! A text that is put together before it is written.
ghost use Rattle.std.specs.Prelude.{◌≡◌, ◌+◌, ◌≤◌, ◌++◌, [], length, decimal};

use arrayvec::ArrayVec;
use ec_moment::{LONGEST_MOMENT, Moment};
use itoa::Buffer;
use std::marker::Model;

/// A text of at most `N` bytes, kept in place while it is put together. Contracts see it as the list of its bytes.
#[derive(Drop)]
pub struct Text<const N: usize> {
    bytes: ArrayVec<u8, N>,
}

impl<const N: usize> Model for Text<N> {
    ghost use Rattle.std.specs.Prelude.{List, ℕ};

    ghost Value = { List ℕ };

    ghost view = { λ text. text.bytes.items };
}

impl<const N: usize> Text<N> {
    /// The empty text.
    pub fn new() -> Self
        ensures { result ≡ [] }
    {
        Text {
            bytes: ArrayVec::new(),
        }
    }

    /// The bytes of the text.
    pub fn as_bytes(&self) -> &[u8]
        ensures { result.now ≡ self.now }
    {
        self.bytes.as_slice()
    }

    /// Takes out all bytes.
    pub fn clear(&mut self)
        ensures { self.new ≡ [] }
    {
        self.bytes.clear();
    }

    /// Adds bytes at the end.
    pub fn push(&mut self, part: &[u8])
        requires { length self.old + length part.now ≤ N }
        ensures text { self.new ≡ self.old ++ part.now }
        ensures len { length self.new ≡ length self.old + length part.now }
    {
        match self.bytes.try_extend_from_slice(part) {
            Ok(()) => {}
            Err(_) => unreachable!(),
        }
    }

    /// Adds a number in decimal.
    pub fn push_number(&mut self, number: u64)
        requires { length self.old + 20 ≤ N }
        ensures text { self.new ≡ self.old ++ decimal number }
        ensures len { length self.new ≤ length self.old + 20 }
    {
        let mut buffer = Buffer::new();
        self.push(buffer.format(number).as_bytes());
    }

    /// Adds a number of 32 bits in decimal, which has at most half as many digits.
    pub fn push_short_number(&mut self, number: u32)
        requires { length self.old + 10 ≤ N }
        ensures text { self.new ≡ self.old ++ decimal number }
        ensures len { length self.new ≤ length self.old + 10 }
    {
        let mut buffer = Buffer::new();
        self.push(buffer.format(number).as_bytes());
    }

    /// Adds the canonical text of a time.
    pub fn push_moment<T: Moment>(&mut self, at: T)
        requires { length self.old + LONGEST_MOMENT ≤ N }
        ensures text { self.new ≡ self.old ++ T.canon (T.rank at) }
        ensures len { length self.new ≤ length self.old + LONGEST_MOMENT }
    {
        let text = at.text();
        self.push(text.as_bytes());
    }
}
