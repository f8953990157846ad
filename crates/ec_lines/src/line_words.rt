//! The words of a line.
ghost use Rattle.std.specs.Prelude.{◌≡◌, ◌<◌, [], ◌∷◌, length, not, take_while, IfSome, IfNone};
ghost use Rattle.ec_commands.specs.Lines.{is_blank, words_of};

use std::marker::Model;

/// Whether the byte is a space or a tab.
#[tactic(auto, unfolding(ec_commands::specs::Lines::is_blank))]
fn is_blank(byte: u8) -> bool
    ensures { result ≡ is_blank byte }
{
    byte == b' ' || byte == b'\t'
}

/// How many blanks the bytes begin with.
fn blank_len(bytes: &[u8]) -> usize
    ensures { result ≡ length (take_while is_blank bytes.now) }
{
    bytes.iter().take_while(|byte| is_blank(**byte)).count()
}

/// How many bytes other than blanks the bytes begin with.
fn word_len(bytes: &[u8]) -> usize
    ensures { result ≡ length (take_while (λ b. not (is_blank b)) bytes.now) }
{
    bytes.iter().take_while(|byte| !is_blank(**byte)).count()
}

/// The words of a line that are still to come. Contracts see them as a list of words.
#[derive(Drop)]
pub struct Words<'a> {
    rest: &'a [u8],
}

impl<'a> Model for Words<'a> {
    ghost use Rattle.std.specs.Prelude.{List, ℕ};
    ghost use Rattle.ec_commands.specs.Lines.{words_of};

    ghost Value = { List (List ℕ) };

    ghost view = { λ words. words_of words.rest.now };
}

impl<'a> Words<'a> {
    /// The words of a line, none of them taken yet.
    pub fn new(line: &'a [u8]) -> Self
        ensures { result ≡ words_of line.now }
    {
        Words { rest: line }
    }

    /// Takes the next word. `None` exactly when there is none.
    pub fn next(&mut self) -> Option<&'a [u8]>
        ensures some { IfSome result (λ word. self.old ≡ word.now ∷ self.new) }
        ensures nonempty { IfSome result (λ word. 0 < length word.now) }
        ensures none { IfNone result (self.old ≡ []) }
    {
        let rest = &self.rest[blank_len(self.rest)..];
        let (word, rest) = rest.split_at(word_len(rest));
        if word.is_empty() {
            return None;
        }
        self.rest = rest;
        Some(word)
    }

    /// Takes the next word, which must be the last. `None` where there is none, or another behind it.
    pub fn last(&mut self) -> Option<&'a [u8]>
        ensures some { IfSome result (λ word. self.old ≡ word.now ∷ []) }
        ensures none { IfNone result (length self.old ≡ 1 → ⊥) }
    {
        let word = self.next()?;
        self.end()?;
        Some(word)
    }

    /// Sees that no word is left. `None` where one is.
    pub fn end(&mut self) -> Option<()>
        ensures some { IfSome result (λ _. self.old ≡ []) }
        ensures none { IfNone result (self.old ≡ [] → ⊥) }
    {
        match self.next() {
            Some(_) => None,
            None => Some(()),
        }
    }
}
