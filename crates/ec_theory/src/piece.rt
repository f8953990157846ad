//! What stands at the front of a text.
ghost use Rattle.std.specs.Prelude.{◌≡◌, ◌+◌, ◌<◌, ◌≤◌, ◌==◌, ◌&&◌, ◌||◌, not, length};
ghost use Rattle.std.specs.List.{prefix_len};
ghost use Rattle.std.specs.Char.{is_ascii_digit};
ghost use Rattle.ec_terms.specs.Spelling.{is_lower, is_upper, is_name_byte};
ghost use Rattle.ec_theory.specs.Tokens.{is_blank, is_mark_byte, first_byte, name_piece, number_piece, mark_piece, piece_of, piece_length};

use crate::token::TokenKind;
use crate::token_list::MOST_BYTES;
use ec_moment::read_number;
use ec_terms::LONGEST_NAME;

/// What stands at the front of a text, with its number of bytes, or why nothing may stand so.
#[derive(Clone, Copy)]
pub enum Piece {
    /// A blank or a comment.
    Gap(usize),
    Token(TokenKind, usize),
    BadByte,
    LongName,
    BigNumber,
}

impl Piece {
    /// How many bytes a piece has; a fault counts as one.
    #[tactic(auto, unfolding(crate::specs::Tokens::piece_length))]
    pub fn len(self) -> usize
        ensures { result ≡ piece_length self }
    {
        match self {
            Piece::Gap(length) | Piece::Token(_, length) => length,
            Piece::BadByte | Piece::LongName | Piece::BigNumber => 1,
        }
    }
}

/// Whether a byte may stand between tokens.
fn is_blank(byte: u8) -> bool
    ensures { result ≡ is_blank byte }
{
    byte == b' ' || byte == b'\t' || byte == b'\r' || byte == b'\n'
}

/// Whether a byte is a small letter, with which names begin.
#[tactic(auto, unfolding(ec_terms::specs::Spelling::is_lower))]
fn is_lower(byte: u8) -> bool
    ensures { result ≡ is_lower byte }
{
    byte.is_ascii_lowercase()
}

/// Whether a byte is a capital letter, with which variables begin.
#[tactic(auto, unfolding(ec_terms::specs::Spelling::is_upper))]
fn is_upper(byte: u8) -> bool
    ensures { result ≡ is_upper byte }
{
    byte.is_ascii_uppercase()
}

/// Whether a byte may stand in a name behind its first byte.
#[tactic(auto, unfolding(ec_terms::specs::Spelling::is_name_byte))]
fn is_name_byte(byte: u8) -> bool
    ensures { result ≡ is_name_byte byte }
{
    is_lower(byte) || is_upper(byte) || byte.is_ascii_digit() || byte == b'_'
}

/// Whether a byte is a mark by itself.
fn is_mark_byte(byte: u8) -> bool
    ensures { result ≡ is_mark_byte byte }
{
    byte == b'_'
        || byte == b'('
        || byte == b')'
        || byte == b','
        || byte == b'.'
        || byte == b'/'
        || byte == b'='
}

/// The first byte, or 0, with which no token begins.
fn first_byte(bytes: &[u8]) -> u8
    ensures { result ≡ first_byte bytes.now }
{
    if bytes.is_empty() { 0 } else { bytes[0] }
}

/// Whether a byte ends a line, and with it a comment.
fn is_line_feed(byte: u8) -> bool
    ensures { result ≡ (byte == 10) }
{
    byte == b'\n'
}

/// How many bytes stand before the next line feed.
fn line_length(bytes: &[u8]) -> usize
    ensures exact { result ≡ prefix_len (λ c. not (c == 10)) bytes.now }
    ensures within { result ≤ length bytes.now }
{
    bytes
        .iter()
        .take_while(|byte| !is_line_feed(**byte))
        .count()
}

/// How many name bytes stand at the front.
fn name_bytes(bytes: &[u8]) -> usize
    ensures exact { result ≡ prefix_len is_name_byte bytes.now }
    ensures within { result ≤ length bytes.now }
{
    bytes.iter().take_while(|byte| is_name_byte(**byte)).count()
}

/// How many digits stand at the front.
fn digits(bytes: &[u8]) -> usize
    ensures exact { result ≡ prefix_len is_ascii_digit bytes.now }
    ensures within { result ≤ length bytes.now }
{
    bytes
        .iter()
        .take_while(|byte| byte.is_ascii_digit())
        .count()
}

/// The name or variable with these bytes behind its first letter.
#[tactic(auto, unfolding(crate::specs::Tokens::name_piece))]
fn name_piece(kind: TokenKind, behind: &[u8]) -> Piece
    requires { length behind.now ≤ MOST_BYTES }
    ensures { result ≡ name_piece kind behind.now }
{
    let length = 1 + name_bytes(behind);
    if length <= LONGEST_NAME {
        Piece::Token(kind, length)
    } else {
        Piece::LongName
    }
}

/// The number at the front: a digit or a minus, and the digits behind it.
#[tactic(auto, unfolding(crate::specs::Tokens::number_piece))]
fn number_piece(bytes: &[u8]) -> Piece
    requires nonempty { 0 < length bytes.now }
    requires short { length bytes.now ≤ MOST_BYTES }
    ensures { result ≡ number_piece bytes.now }
{
    let length = 1 + digits(&bytes[1..]);
    match read_number(&bytes[..length]) {
        Some(_) => Piece::Token(TokenKind::Number, length),
        None => Piece::BigNumber,
    }
}

/// The mark that begins with `first`, before the bytes `behind`.
#[tactic(auto, unfolding(crate::specs::Tokens::mark_piece))]
fn mark_piece(first: u8, behind: &[u8]) -> Piece
    ensures { result ≡ mark_piece first behind.now }
{
    if is_mark_byte(first) {
        Piece::Token(TokenKind::Mark, 1)
    } else if first == b'<' {
        Piece::Token(
            TokenKind::Mark,
            if first_byte(behind) == b'=' { 2 } else { 1 },
        )
    } else if first == b'!' && first_byte(behind) == b'=' {
        Piece::Token(TokenKind::Mark, 2)
    } else {
        Piece::BadByte
    }
}

/// Whether a number begins with `first`, before the bytes `behind`: with a digit, or a minus and a digit.
fn begins_number(first: u8, behind: &[u8]) -> bool
    ensures { result ≡ (is_ascii_digit first || (first == 45 && is_ascii_digit (first_byte behind.now))) }
{
    first.is_ascii_digit() || (first == b'-' && first_byte(behind).is_ascii_digit())
}

/// The longest piece at the front of a text that is not empty.
#[tactic(auto, unfolding(crate::specs::Tokens::piece_of))]
pub fn piece_of(bytes: &[u8]) -> Piece
    requires nonempty { 0 < length bytes.now }
    requires short { length bytes.now ≤ MOST_BYTES }
    ensures { result ≡ piece_of bytes.now }
{
    let first = bytes[0];
    let behind = &bytes[1..];
    if is_blank(first) {
        Piece::Gap(1)
    } else if first == b'%' {
        Piece::Gap(1 + line_length(behind))
    } else if is_lower(first) {
        name_piece(TokenKind::Name, behind)
    } else if is_upper(first) {
        name_piece(TokenKind::Variable, behind)
    } else if begins_number(first, behind) {
        number_piece(bytes)
    } else {
        mark_piece(first, behind)
    }
}
