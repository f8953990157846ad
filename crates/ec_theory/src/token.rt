//! One token.
use crate::place::Place;

/// What a token is.
#[derive(Clone, Copy, Debug, PartialEq, Eq)]
pub enum TokenKind {
    Name,
    Variable,
    Number,
    Mark,
}

/// A token: what it is, its text as it stands in the source, and the place of its first byte.
#[derive(Clone, Copy, Debug)]
pub struct Token<'a> {
    pub kind: TokenKind,
    pub text: &'a [u8],
    pub place: Place,
}
