//! A place in a list of tokens.
ghost use Rattle.std.specs.Prelude.{map, ◌≤◌, length, IsTrue};
ghost use Rattle.std.specs.List.{list_all};
ghost use Rattle.ec_theory.specs.Lexeme.{lexeme_of, is_spelt};
ghost use Rattle.ec_theory.specs.declared.token_list.TheConstants.{MOST_BYTES};

use crate::place::Place;
use crate::sign::{Keyword, Sign, Symbol, keyword_of, sign_of, time_kind_of};
use crate::syntax_fault::SyntaxFault;
use crate::token::Token;
use crate::token_list::TokenList;
use ec_terms::{TestOp, TimeKind};

/// The tokens that are left, and the place behind the last.
#[derive(Clone, Copy)]
pub struct Cursor<'t, 'a> {
    pub rest: &'t [Token<'a>],
    pub end: Place,
    ghost spelt: { IsTrue (list_all is_spelt (map lexeme_of rest.now)) },
    ghost few: { length rest.now ≤ MOST_BYTES },
}

impl<'t, 'a> Cursor<'t, 'a> {
    ghost use Rattle.std.specs.Prelude.{◌≡◌, ◌↔◌, Bool, false, [], IfSome, IfNone, IfOk, IfErr, IsTrue};
    ghost use Rattle.ec_terms.specs.Spelling.{is_name};
    ghost use Rattle.ec_theory.specs.Sign.{Word, Number, Given, Compare, is_word, is_number, is_compare, is_given, is_keyword, is_time_kind};
    ghost use Rattle.ec_theory.specs.Reader.{shown, left_of, next_place, next_passes, Refuses, Steps, HasKeyword, HasTimeKind, IsNamed};
    ghost use Rattle.ec_theory.specs.declared.sign.Keyword.{Keyword};
    ghost use Rattle.ec_theory.specs.declared.syntax_fault.SyntaxFault.TheVariants.{Syntax};

    /// All tokens of a list.
    pub fn new(tokens: &'t TokenList<'a>) -> Cursor<'t, 'a>
        ensures { left_of result ≡ tokens.now }
    {
        Cursor {
            rest: tokens.as_slice(),
            end: tokens.end(),
        }
    }

    /// Whether no token is left.
    pub fn is_at_end(self) -> bool
        ensures { IsTrue result ↔ (self.entry.rest.now ≡ []) }
    {
        self.rest.is_empty()
    }

    /// The next token, and what is left behind it.
    pub fn next(self) -> Option<(Sign<'a>, Cursor<'t, 'a>)>
        ensures some { IfSome result (λ x. Steps (left_of self.entry) (shown x.0) (left_of x.1)) }
        ensures named { IfSome result (λ x. IsNamed (shown x.0)) }
        ensures none { IfNone result (self.entry.rest.now ≡ []) }
    {
        let tokens = self.rest;
        if tokens.is_empty() {
            return None;
        }
        let sign = sign_of(&tokens[0]);
        let rest = &tokens[1..];
        let end = self.end;
        Some((sign, Cursor { rest, end }))
    }

    /// The fault that the next token, or the end, does not go on with the clause.
    #[tactic(auto, unfolding(crate::specs::Reader::place_at))]
    pub fn fault(self) -> SyntaxFault
        ensures { result ≡ Syntax (next_place (left_of self.entry)) }
    {
        let tokens = self.rest;
        if tokens.is_empty() {
            SyntaxFault::Syntax(self.end)
        } else {
            SyntaxFault::Syntax(tokens[0].place)
        }
    }

    /// The next token as a name other than `if` and `not`.
    #[tactic(auto, using(crate::proofs::NextTokens::at_end, crate::proofs::NextTokens::steps_fail))]
    pub fn word(self) -> Option<(&'a [u8], Cursor<'t, 'a>)>
        ensures some { IfSome result (λ x. Steps (left_of self.entry) (Word x.0.now) (left_of x.1)) }
        ensures name { IfSome result (λ x. IsTrue (is_name x.0.now)) }
        ensures none { IfNone result (next_passes is_word (left_of self.entry) ≡ false) }
    {
        let (sign, behind) = self.next()?;
        Some((sign.word()?, behind))
    }

    /// The next token as a number.
    #[tactic(auto, using(crate::proofs::NextTokens::at_end, crate::proofs::NextTokens::steps_fail))]
    pub fn number(self) -> Option<(i64, Cursor<'t, 'a>)>
        ensures some { IfSome result (λ x. Steps (left_of self.entry) (Number x.0) (left_of x.1)) }
        ensures none { IfNone result (next_passes is_number (left_of self.entry) ≡ false) }
    {
        let (sign, behind) = self.next()?;
        Some((sign.number()?, behind))
    }

    /// The next token as a comparison.
    #[tactic(auto, using(crate::proofs::NextTokens::at_end, crate::proofs::NextTokens::steps_fail))]
    pub fn compare(self) -> Option<(TestOp, Cursor<'t, 'a>)>
        ensures some { IfSome result (λ x. Steps (left_of self.entry) (Compare x.0) (left_of x.1)) }
        ensures none { IfNone result (next_passes is_compare (left_of self.entry) ≡ false) }
    {
        let (sign, behind) = self.next()?;
        Some((sign.compare()?, behind))
    }

    /// What is left behind a symbol, where it comes next.
    #[tactic(auto, using(crate::proofs::NextTokens::at_end, crate::proofs::NextTokens::steps_fail))]
    pub fn skip(self, symbol: Symbol) -> Option<Cursor<'t, 'a>>
        ensures some { IfSome result (λ behind. Steps (left_of self.entry) (Given symbol) (left_of behind)) }
        ensures none { IfNone result (next_passes (is_given symbol) (left_of self.entry) ≡ false) }
    {
        let (sign, behind) = self.next()?;
        if sign.is_given(symbol) {
            Some(behind)
        } else {
            None
        }
    }

    /// What is left behind a symbol, which has to come next.
    pub fn expect(self, symbol: Symbol) -> Result<Cursor<'t, 'a>, SyntaxFault>
        ensures ok { IfOk result (λ behind. Steps (left_of self.entry) (Given symbol) (left_of behind)) }
        ensures err { IfErr result (λ fault. Refuses (is_given symbol) (left_of self.entry) fault) }
    {
        match self.skip(symbol) {
            Some(behind) => Ok(behind),
            None => Err(self.fault()),
        }
    }

    /// The next token as a word that begins a kind of clause.
    #[tactic(auto, using(crate::proofs::NextTokens::at_end, crate::proofs::NextTokens::steps_fail, crate::proofs::NextTokens::no_keyword))]
    pub fn keyword(self) -> Option<(Keyword, Cursor<'t, 'a>)>
        ensures some { IfSome result (λ x. HasKeyword (left_of self.entry) x.0 (left_of x.1)) }
        ensures none { IfNone result ((test : Keyword → Bool) → next_passes (is_keyword test) (left_of self.entry) ≡ false) }
    {
        let (text, behind) = self.word()?;
        Some((keyword_of(text)?, behind))
    }

    /// The next token as the name of a kind of time.
    #[tactic(auto, using(crate::proofs::NextTokens::no_time_kind, crate::proofs::NextTokens::word_no_time_kind))]
    pub fn time_kind(self) -> Option<(TimeKind, Cursor<'t, 'a>)>
        ensures some { IfSome result (λ x. HasTimeKind (left_of self.entry) x.0 (left_of x.1)) }
        ensures none { IfNone result (next_passes is_time_kind (left_of self.entry) ≡ false) }
    {
        let (text, behind) = self.word()?;
        Some((time_kind_of(text)?, behind))
    }
}
