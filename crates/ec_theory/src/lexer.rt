//! A text cut into tokens.
ghost use Rattle.std.specs.Prelude.{◌≡◌, ◌≤◌, length, Ok, IfOk, IfErr};
ghost use Rattle.ec_theory.specs.Tokens.{tokens_of, IsTokenFault};

use crate::piece::{Piece, piece_of};
use crate::place::Place;
use crate::token::Token;
use crate::token_fault::TokenFault;
use crate::token_list::{MOST_BYTES, TokenList};
use std::alloc::Global;

/// Cuts a theory's text into its tokens, the longest at each place. Blanks and comments stand between
/// tokens and mean nothing.
///
/// A fault other than `Memory` comes exactly when the text has one, and is the first from the left.
pub fn tokens<'a>(alloc: Global, bytes: &'a [u8]) -> Result<TokenList<'a>, TokenFault>
    requires { length bytes.now ≤ MOST_BYTES }
    ensures ok { IfOk result (λ list. tokens_of bytes.now ≡ Ok list) }
    ensures fault { IfErr result (λ fault. IsTokenFault fault bytes.now) }
{
    let mut items = Vec::new(alloc);
    let mut place = Place::START;
    let mut rest = bytes;
    while !rest.is_empty() {
        let piece = piece_of(rest);
        let (front, behind) = rest.split_at(piece.len());
        match piece {
            Piece::Gap(_) => {}
            Piece::Token(kind, _) => items.push(Token {
                kind,
                text: front,
                place,
            })?,
            Piece::BadByte => return Err(TokenFault::BadByte(place)),
            Piece::LongName => return Err(TokenFault::LongName(place)),
            Piece::BigNumber => return Err(TokenFault::BigNumber(place)),
        }
        place = place.behind(rest[0], front.len());
        rest = behind;
    }
    Ok(TokenList { items, last: place })
}
