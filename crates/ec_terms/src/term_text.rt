//! The canonical text of a ground term.
ghost use Rattle.std.specs.Prelude.{◌≡◌, ◌<◌, ◌≤◌, ◌+◌, ◌++◌, ◌∷◌, [], ◌↔◌, IsTrue, Some, length};
ghost use Rattle.std.specs.Str.{IsAscii};
ghost use Rattle.ec_terms.specs.Term.{arg_of, arg_text, ground_of, is_argument, names_are_names, term_text, term_value};
ghost use Rattle.ec_terms.specs.TextLaws.{IsTerm, has_size};

use crate::ground::{ArgRef, GroundRef};
use crate::limits::{LONGEST_NAME, LONGEST_TERM};
use arrayvec::ArrayVec;
use itoa::Buffer;
use std::marker::Model;
use std::{fmt, str};

/// The text of a ground term: at most `LONGEST_TERM` bytes, all of them ASCII, kept in place.
/// Contracts see it as the list of its bytes.
#[derive(Drop)]
pub struct TermText {
    bytes: ArrayVec<u8, LONGEST_TERM>,
}

impl Model for TermText {
    ghost use Rattle.std.specs.Prelude.{ℕ, List};
    ghost use Rattle.std.specs.Str.{IsAscii};

    ghost Value = { List ℕ };

    ghost view = { λ t. t.bytes.items };

    ghost invariant = { λ t. IsAscii t.bytes.items };
}

impl TermText {
    /// The empty text, to which the parts of a term are added.
    fn new() -> TermText
        ensures { result ≡ [] }
    {
        TermText {
            bytes: ArrayVec::new(),
        }
    }

    /// Adds one ASCII byte at the end.
    fn push(&mut self, byte: u8)
        requires ascii { byte < 128 }
        requires room { length self.old < LONGEST_TERM }
        ensures { self.new ≡ self.old ++ byte ∷ [] }
    {
        self.bytes.push(byte);
    }

    /// Adds ASCII bytes at the end.
    fn push_bytes(&mut self, part: &[u8])
        requires ascii { IsAscii part.now }
        requires room { length self.old + length part.now ≤ LONGEST_TERM }
        ensures { self.new ≡ self.old ++ part.now }
    {
        if self.bytes.try_extend_from_slice(part).is_err() {
            unreachable!()
        }
    }

    /// Adds the text of an argument at the end.
    fn push_arg(&mut self, arg: &ArgRef<'_>)
        requires name { IsTrue (is_argument (arg_of arg.now)) }
        requires room { length self.old + LONGEST_NAME ≤ LONGEST_TERM }
        ensures text { self.new ≡ self.old ++ arg_text (arg_of arg.now) }
        ensures size { IsTrue (has_size (arg_of arg.now)) }
        ensures short { length self.new ≤ length self.old + LONGEST_NAME }
    {
        match *arg {
            ArgRef::Int(number) => {
                let mut buffer = Buffer::new();
                self.push_bytes(buffer.format(number).as_bytes());
            }
            ArgRef::Word(word) => self.push_bytes(word),
        }
    }

    /// How many bytes the text has.
    pub fn len(&self) -> usize
        ensures value { result ≡ length self.now }
        ensures fits { result ≤ LONGEST_TERM }
    {
        self.bytes.len()
    }

    /// Whether the text has no byte, which the text of no term is.
    pub fn is_empty(&self) -> bool
        ensures { IsTrue result ↔ (self.now ≡ []) }
    {
        self.bytes.is_empty()
    }

    /// The bytes of the text.
    pub fn as_bytes(&self) -> &[u8]
        ensures value { result.now ≡ self.now }
        ensures fits { length result.now ≤ LONGEST_TERM }
        ensures ascii { IsAscii self.now }
    {
        self.bytes.as_slice()
    }

    /// The text.
    pub fn as_str(&self) -> &str
        ensures value { result.now ≡ self.now }
        ensures fits { length result.now ≤ LONGEST_TERM }
    {
        match str::from_utf8(self.bytes.as_slice()) {
            Ok(text) => text,
            Err(_) => unreachable!(),
        }
    }
}

impl fmt::Display for TermText {
    ghost output = { λ t. Some t };

    fn fmt<W: fmt::Write>(&self, f: &mut fmt::Formatter<W>) -> fmt::Result {
        fmt::Display::fmt(&self.as_str(), f)
    }
}

impl fmt::Debug for TermText {
    fn fmt<W: fmt::Write>(&self, f: &mut fmt::Formatter<W>) -> fmt::Result {
        fmt::Debug::fmt(&self.as_str(), f)
    }
}

/// The canonical text of a term: its name, and its arguments between parentheses with `,` between
/// them and no blank. Numbers are in decimal without leading zeros, with a `-` below 0.
pub fn text(term: &GroundRef<'_>) -> TermText
    requires { IsTrue (names_are_names (ground_of term.now)) }
    ensures exact { result ≡ term_text (ground_of term.now) }
    ensures short { length result ≤ LONGEST_TERM }
    ensures term { IsTerm (ground_of term.now) }
    ensures spells { term_value result ≡ Some (ground_of term.now) }
{
    let mut text = TermText::new();
    text.push_bytes(term.name);
    let mut mark = b'(';
    for arg in term.args.as_slice() {
        text.push(mark);
        text.push_arg(arg);
        mark = b',';
    }
    if mark == b',' {
        text.push(b')');
    }
    text
}
