//! The text of a moment.
ghost use Rattle.std.specs.Prelude.{◌≡◌, ◌+◌, ◌<◌, ◌≤◌, ◌++◌, ◌↔◌, [], ◌∷◌, length, IsTrue, Some};

use crate::limits::LONGEST_MOMENT;
use arrayvec::ArrayString;
use std::fmt;
use std::marker::Model;

/// The text of a moment: at most `LONGEST_MOMENT` bytes, kept in place. Contracts see it as the list of its bytes.
#[derive(Drop)]
pub struct MomentText {
    text: ArrayString<LONGEST_MOMENT>,
}

impl Model for MomentText {
    ghost use Rattle.std.specs.Prelude.{List, ℕ};

    ghost Value = { List ℕ };

    ghost view = { λ moment. moment.text.bytes };
}

impl MomentText {
    /// The empty text, to which the text of a moment is added.
    pub fn new() -> Self
        ensures { result ≡ [] }
    {
        MomentText {
            text: ArrayString::new(),
        }
    }

    /// Adds `part` at the end.
    pub fn push_str(&mut self, part: &str)
        requires { length self.old + length part.now ≤ LONGEST_MOMENT }
        ensures { self.new ≡ self.old ++ part.now }
    {
        self.text.push_str(part);
    }

    /// Adds a decimal digit at the end, as its ASCII byte.
    pub fn push_digit(&mut self, digit: u8)
        requires digit { digit < 10 }
        requires room { length self.old < LONGEST_MOMENT }
        ensures { self.new ≡ self.old ++ (48 + digit) ∷ [] }
    {
        self.text.push(char::from(b'0' + digit));
    }

    /// How many bytes the text has.
    pub fn len(&self) -> usize
        ensures value { result ≡ length self.now }
        ensures fits { result ≤ LONGEST_MOMENT }
    {
        self.text.len()
    }

    /// Whether the text has no byte, which the text of no moment is.
    pub fn is_empty(&self) -> bool
        ensures { IsTrue result ↔ (self.now ≡ []) }
    {
        self.text.is_empty()
    }

    /// The bytes of the text.
    pub fn as_bytes(&self) -> &[u8]
        ensures value { result.now ≡ self.now }
        ensures fits { length result.now ≤ LONGEST_MOMENT }
    {
        self.as_str().as_bytes()
    }

    /// The text.
    pub fn as_str(&self) -> &str
        ensures value { result.now ≡ self.now }
        ensures fits { length result.now ≤ LONGEST_MOMENT }
    {
        self.text.as_str()
    }
}

/// The empty text.
impl Default for MomentText {
    ghost is_default = { λ text. text ≡ [] };

    fn default() -> Self {
        MomentText::new()
    }
}

/// It is printed as it is.
impl fmt::Display for MomentText {
    ghost output = { λ text. Some text };

    fn fmt<W: fmt::Write>(&self, f: &mut fmt::Formatter<W>) -> fmt::Result {
        fmt::Display::fmt(&self.as_str(), f)
    }
}
