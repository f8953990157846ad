//! The list of tokens of a text.
ghost use Rattle.std.specs.Prelude.{◌≡◌, ◌<◌, ◌≤◌, Some, length, slice_get, map, IsTrue};
ghost use Rattle.std.specs.List.{list_all};
ghost use Rattle.ec_theory.specs.Lexeme.{lexeme_of, is_spelt};

use crate::place::Place;
use crate::token::Token;
use std::marker::Model;

/// The most bytes that a theory's text has, and so the most tokens.
pub const MOST_BYTES: usize = 1_048_576;

/// The tokens of a text in their order, and the place just after its last byte. Only `tokens` makes one.
#[derive(Drop)]
pub struct TokenList<'a> {
    pub(crate) items: Vec<Token<'a>>,
    pub(crate) last: Place,
}

impl<'a> Model for TokenList<'a> {
    ghost use Rattle.std.specs.Prelude.{length, map, ◌≤◌, IsTrue};
    ghost use Rattle.std.specs.List.{list_all};
    ghost use Rattle.ec_theory.specs.Lexeme.{Lexemes, lexeme_of, is_spelt};
    ghost use Rattle.ec_theory.specs.declared.token_list.TheConstants.{MOST_BYTES};

    ghost Value = { Lexemes };

    ghost view = { λ l. record { tokens = map lexeme_of l.items.items; end = l.last } };

    ghost invariant = { λ l. (length l.items.items ≤ MOST_BYTES) × IsTrue (list_all is_spelt (map lexeme_of l.items.items)) };
}

impl<'a> TokenList<'a> {
    /// How many tokens there are, at most 1,048,576.
    pub fn len(&self) -> usize
        ensures count { result ≡ length self.now.tokens }
        ensures most { result ≤ MOST_BYTES }
    {
        self.items.len()
    }

    /// The token at a place in the list, from 0. Its text is a spelling of its kind.
    pub fn get(&self, i: usize) -> &Token<'a>
        requires { i < length self.now.tokens }
        ensures token { slice_get self.now.tokens i ≡ Some (lexeme_of result.now) }
        ensures spelling { IsTrue (is_spelt (lexeme_of result.now)) }
    {
        &self.items[i]
    }

    /// All tokens, in order. Each text is a spelling of its kind.
    pub fn as_slice(&self) -> &[Token<'a>]
        ensures tokens { map lexeme_of result.now ≡ self.now.tokens }
        ensures spelling { IsTrue (list_all is_spelt (map lexeme_of result.now)) }
        ensures most { length result.now ≤ MOST_BYTES }
    {
        self.items.as_slice()
    }

    /// The place just after the last byte of the text.
    pub fn end(&self) -> Place
        ensures { result ≡ self.now.end }
    {
        self.last
    }
}
