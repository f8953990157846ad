//! What a token is to the grammar of clauses.
ghost use Rattle.std.specs.Prelude.{◌≡◌, IsTrue, bytes_eq};
ghost use Rattle.ec_theory.specs.Sign.{name_sign, mark_sign, sign_of, keyword_of, time_kind_of};
ghost use Rattle.ec_theory.specs.Reader.{shown};
ghost use Rattle.ec_theory.specs.Lexeme.{lexeme_of};
ghost use Rattle.ec_terms.specs.Spelling.{is_name};

use crate::token::{Token, TokenKind};
use crate::variables::Variables;
use ec_moment::read_number;
use ec_terms::{Arg, Kind, Name, PatArg, TestOp, TimeKind};

/// A word or mark that is always the same.
#[derive(Clone, Copy)]
pub enum Symbol {
    If,
    Not,
    Anything,
    Open,
    Close,
    Comma,
    Dot,
    Slash,
}

/// The kinds of clauses, by the word that they begin with.
#[derive(Clone, Copy)]
pub enum Keyword {
    Rule(Kind),
    Exclusive,
    Strong,
    Initially,
    Time,
}

/// What a token is to the grammar.
#[derive(Clone, Copy)]
pub enum Sign<'a> {
    /// A name other than `if` and `not`.
    Word(&'a [u8]),
    Variable(&'a [u8]),
    Number(i64),
    Given(Symbol),
    Compare(TestOp),
}

impl<'a> Sign<'a> {
    ghost use Rattle.std.specs.Prelude.{◌≡◌, ℕ, List, false, IfSome, IfNone};
    ghost use Rattle.ec_theory.specs.Sign.{Word, Variable, Number, Given, Compare, with_sign, is_word, is_number, is_compare, is_given, argument_of};
    ghost use Rattle.ec_theory.specs.Reader.{shown, IsNamed};

    /// The text of a name.
    #[tactic(auto, unfolding(crate::specs::Reader::shown))]
    pub fn word(self) -> Option<&'a [u8]>
        ensures some { IfSome result (λ text. shown self.entry ≡ Word text.now) }
        ensures none { IfNone result (is_word (shown self.entry) ≡ false) }
    {
        match self {
            Sign::Word(text) => Some(text),
            Sign::Variable(_) => None,
            Sign::Number(_) => None,
            Sign::Given(_) => None,
            Sign::Compare(_) => None,
        }
    }

    /// The text of a variable.
    #[tactic(auto, unfolding(crate::specs::Reader::shown, crate::specs::Sign::with_sign))]
    pub fn variable(self) -> Option<&'a [u8]>
        ensures some { IfSome result (λ text. shown self.entry ≡ Variable text.now) }
        ensures none { IfNone result ((names : List (List ℕ)) → with_sign names (shown self.entry) ≡ names) }
    {
        match self {
            Sign::Variable(text) => Some(text),
            Sign::Word(_) => None,
            Sign::Number(_) => None,
            Sign::Given(_) => None,
            Sign::Compare(_) => None,
        }
    }

    /// The value of a number.
    #[tactic(auto, unfolding(crate::specs::Reader::shown))]
    pub fn number(self) -> Option<i64>
        ensures some { IfSome result (λ value. shown self.entry ≡ Number value) }
        ensures none { IfNone result (is_number (shown self.entry) ≡ false) }
    {
        match self {
            Sign::Number(value) => Some(value),
            Sign::Word(_) => None,
            Sign::Variable(_) => None,
            Sign::Given(_) => None,
            Sign::Compare(_) => None,
        }
    }

    /// The comparison that a sign is.
    #[tactic(auto, unfolding(crate::specs::Reader::shown))]
    pub fn compare(self) -> Option<TestOp>
        ensures some { IfSome result (λ op. shown self.entry ≡ Compare op) }
        ensures none { IfNone result (is_compare (shown self.entry) ≡ false) }
    {
        match self {
            Sign::Compare(op) => Some(op),
            Sign::Word(_) => None,
            Sign::Variable(_) => None,
            Sign::Number(_) => None,
            Sign::Given(_) => None,
        }
    }

    /// The argument that a sign is, with its variables numbered as in `names`.
    #[tactic(auto, unfolding(crate::specs::Reader::shown, crate::specs::Reader::IsNamed, crate::specs::Sign::argument_of))]
    pub fn argument(self, names: &Variables<'_>) -> Option<PatArg>
        requires { IsNamed (shown self) }
        ensures { result ≡ argument_of names.now (shown self.entry) }
    {
        match self {
            Sign::Word(text) => Some(PatArg::Fixed(Arg::Word(name_of(text)))),
            Sign::Variable(name) => Some(PatArg::Var(names.number(name))),
            Sign::Number(value) => Some(PatArg::Fixed(Arg::Int(value))),
            Sign::Given(symbol) => {
                if symbol as u8 == Symbol::Anything as u8 {
                    Some(PatArg::Any)
                } else {
                    None
                }
            }
            Sign::Compare(_) => None,
        }
    }

    /// Whether this is the symbol.
    #[tactic(auto, unfolding(crate::specs::Reader::shown))]
    pub fn is_given(self, symbol: Symbol) -> bool
        ensures { result ≡ is_given symbol (shown self.entry) }
    {
        match self {
            Sign::Given(found) => symbol as u8 == found as u8,
            Sign::Word(_) => false,
            Sign::Variable(_) => false,
            Sign::Number(_) => false,
            Sign::Compare(_) => false,
        }
    }
}

/// The name that a text is.
pub fn name_of(text: &[u8]) -> Name
    requires { IsTrue (is_name text.now) }
    ensures { result ≡ text.now }
{
    match Name::from_bytes(text) {
        Some(name) => name,
        None => unreachable!(),
    }
}

/// Whether two texts are the same.
fn is_text(text: &[u8], word: &[u8]) -> bool
    ensures { result ≡ bytes_eq text.now word.now }
{
    text == word
}

/// What a name is to the grammar.
#[tactic(auto, unfolding(crate::specs::Sign::name_sign, crate::specs::Reader::shown))]
fn name_sign(text: &[u8]) -> Sign<'_>
    ensures { shown result ≡ name_sign text.now }
{
    if is_text(text, b"if") {
        Sign::Given(Symbol::If)
    } else if is_text(text, b"not") {
        Sign::Given(Symbol::Not)
    } else {
        Sign::Word(text)
    }
}

/// What a mark is to the grammar.
#[tactic(auto, unfolding(crate::specs::Sign::mark_sign, crate::specs::Reader::shown))]
fn mark_sign(text: &[u8]) -> Sign<'static>
    ensures { shown result ≡ mark_sign text.now }
{
    let first = if text.is_empty() { 0 } else { text[0] };
    match first {
        b'_' => Sign::Given(Symbol::Anything),
        b'(' => Sign::Given(Symbol::Open),
        b')' => Sign::Given(Symbol::Close),
        b',' => Sign::Given(Symbol::Comma),
        b'.' => Sign::Given(Symbol::Dot),
        b'/' => Sign::Given(Symbol::Slash),
        b'=' => Sign::Compare(TestOp::Same),
        b'!' => Sign::Compare(TestOp::Differ),
        _ if text.len() == 1 => Sign::Compare(TestOp::Less),
        _ => Sign::Compare(TestOp::AtMost),
    }
}

/// What a token is to the grammar.
#[tactic(auto, unfolding(crate::specs::Sign::sign_of, crate::specs::Reader::shown))]
pub fn sign_of<'a>(token: &Token<'a>) -> Sign<'a>
    ensures { shown result ≡ sign_of (lexeme_of token.now) }
{
    let text = token.text;
    match token.kind {
        TokenKind::Name => name_sign(text),
        TokenKind::Variable => Sign::Variable(text),
        TokenKind::Number => Sign::Number(read_number(text).unwrap_or(0)),
        TokenKind::Mark => mark_sign(text),
    }
}

/// The kind of clause that a word begins.
#[tactic(auto, unfolding(crate::specs::Sign::keyword_of))]
pub fn keyword_of(word: &[u8]) -> Option<Keyword>
    ensures { result ≡ keyword_of word.now }
{
    if is_text(word, b"initiates") {
        Some(Keyword::Rule(Kind::Initiates))
    } else if is_text(word, b"terminates") {
        Some(Keyword::Rule(Kind::Terminates))
    } else if is_text(word, b"exclusive") {
        Some(Keyword::Exclusive)
    } else if is_text(word, b"strong") {
        Some(Keyword::Strong)
    } else if is_text(word, b"initially") {
        Some(Keyword::Initially)
    } else if is_text(word, b"time") {
        Some(Keyword::Time)
    } else {
        None
    }
}

/// The kind of time that a word names.
#[tactic(auto, unfolding(crate::specs::Sign::time_kind_of))]
pub fn time_kind_of(word: &[u8]) -> Option<TimeKind>
    ensures { result ≡ time_kind_of word.now }
{
    if is_text(word, b"tick") {
        Some(TimeKind::Tick)
    } else if is_text(word, b"civil") {
        Some(TimeKind::Civil)
    } else {
        None
    }
}
