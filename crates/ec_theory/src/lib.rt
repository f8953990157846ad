//! The text of a theory: its tokens, and the theory that they read as.
//!
//! [`tokens`] cuts a text, [`read_theory`] reads the tokens by the clause grammar, and [`accept`]
//! makes a checked theory of the bytes of a file, or tells their first fault with its place.
//!
//! **Proved**: the tokens are the longest at each place; there is at most one reading, and it is
//! found; a fault of syntax is the first token that no readable list goes on with (`laws.rt`:
//! `one_reading_law`, `stop_law`). **Not said**: how long it takes. Start at `text.rt`;
//! `specs/Grammar.antt` and `specs/Reading.antt` say what a reading is, `specs/Walk.antt` has the
//! table by which it is found.
#![tactic(auto)]

mod clause;
mod condition;
mod cursor;
mod laws;
mod lexer;
mod pattern;
mod piece;
mod place;
mod reader;
mod sign;
mod syntax_fault;
mod text;
mod token;
mod token_fault;
mod token_list;
mod variables;

pub use laws::{
    cut_law, numbered_reading_law, one_reading_law, reading_law, stop_law, way_back_law,
};
pub use lexer::tokens;
pub use place::Place;
pub use reader::read_theory;
pub use syntax_fault::SyntaxFault;
pub use text::{Refused, accept};
pub use token::{Token, TokenKind};
pub use token_fault::TokenFault;
pub use token_list::{MOST_BYTES, TokenList};
