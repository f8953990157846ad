//! What is said of a theory: that it is accepted, or why it is not.
ghost use Rattle.std.specs.Prelude.{◌≡◌, ◌+◌, ◌++◌, ◌≤◌, length, IfSome};
ghost use Rattle.ec_files.specs.TheoryFiles.{accepted_line, at_place, counts_text, fault_text, in_clause, initials_text, many_text, place_text, syntax_text, theory_line, token_text, wrong_text};

use ec_check::{CheckFault, Many};
use ec_lines::ReplyText;
use ec_terms::Theory;
use ec_theory::{Place, Refused, SyntaxFault, TokenFault};

/// A fault of that name at a place.
#[tactic(auto, unfolding(crate::specs::TheoryFiles::at_place, crate::specs::TheoryFiles::place_text), using(ec_outside::proofs::Texts::texts))]
fn at_place(place: Place, name: &[u8]) -> ReplyText
    requires { length name.now ≤ 20 }
    ensures text { result ≡ at_place place name.now }
    ensures short { length result ≤ 62 }
{
    let mut text = ReplyText::new();
    text.push_number(u64::from(place.line));
    text.push(b" ");
    text.push_number(u64::from(place.col));
    text.push(b" ");
    text.push(name);
    text
}

/// A fault of that name in a clause.
#[tactic(auto, unfolding(crate::specs::TheoryFiles::in_clause), using(ec_outside::proofs::Texts::texts))]
fn in_clause(clause: u32, name: &[u8]) -> ReplyText
    requires { length name.now ≤ 20 }
    ensures text { result ≡ in_clause clause name.now }
    ensures short { length result ≤ 62 }
{
    let mut text = ReplyText::new();
    text.push_number(u64::from(clause));
    text.push(b" ");
    text.push(name);
    text
}

/// The name of a fault of the tokens; none if memory ran out.
#[tactic(auto, unfolding(crate::specs::TheoryFiles::token_text))]
fn token_text(fault: TokenFault) -> Option<ReplyText>
    ensures text { result ≡ token_text fault }
    ensures short { IfSome result (λ text. length text ≤ 62) }
{
    match fault {
        TokenFault::BadByte(place) => Some(at_place(place, b"byte")),
        TokenFault::LongName(place) => Some(at_place(place, b"long-name")),
        TokenFault::BigNumber(place) => Some(at_place(place, b"number")),
        TokenFault::Memory => None,
    }
}

/// The name of a fault of syntax; none if memory ran out.
#[tactic(auto, unfolding(crate::specs::TheoryFiles::syntax_text))]
fn syntax_text(fault: SyntaxFault) -> Option<ReplyText>
    ensures text { result ≡ syntax_text fault }
    ensures short { IfSome result (λ text. length text ≤ 62) }
{
    match fault {
        SyntaxFault::Syntax(place) => Some(at_place(place, b"syntax")),
        SyntaxFault::Memory => None,
    }
}

/// The name of a fault of a number of things.
#[tactic(auto, unfolding(crate::specs::TheoryFiles::many_text))]
fn many_name(many: Many) -> &'static [u8]
    ensures text { result.now ≡ many_text many }
    ensures short { length result.now ≤ 20 }
{
    match many {
        Many::Rules => b"many-rules",
        Many::EventRules => b"many-event-rules",
        Many::Tests => b"many-tests",
        Many::Literals => b"many-literals",
        Many::Variables => b"many-variables",
        Many::Exclusives => b"many-exclusives",
        Many::Strongs => b"many-strongs",
        Many::Initials => b"many-initials",
        Many::Times => b"many-times",
    }
}

/// A fault of a clause.
#[tactic(auto, unfolding(crate::specs::TheoryFiles::wrong_text))]
fn wrong_text(fault: CheckFault) -> ReplyText
    ensures text { result ≡ wrong_text fault }
    ensures short { length result ≤ 62 }
{
    match fault {
        CheckFault::Arity(clause) => in_clause(clause, b"arity"),
        CheckFault::TooMany(many, clause) => in_clause(clause, many_name(many)),
        CheckFault::AnyInHead(clause) => in_clause(clause, b"any"),
        CheckFault::Unbound(clause, _) => in_clause(clause, b"unbound"),
    }
}

/// What is said of bytes with a fault; none if memory ran out.
#[tactic(auto, unfolding(crate::specs::TheoryFiles::fault_text))]
pub(crate) fn fault_text(refused: Refused) -> Option<ReplyText>
    ensures text { result ≡ fault_text refused }
    ensures short { IfSome result (λ text. length text ≤ 62) }
{
    match refused {
        Refused::Tokens(fault) => token_text(fault),
        Refused::Syntax(fault) => syntax_text(fault),
        Refused::Wrong(fault) => Some(wrong_text(fault)),
    }
}

/// The line about a theory that is refused.
#[tactic(auto, unfolding(crate::specs::TheoryFiles::theory_line), using(ec_outside::proofs::Texts::texts))]
pub(crate) fn theory_line(said: &ReplyText) -> ReplyText
    requires { length said.now ≤ 62 }
    ensures { result ≡ theory_line said.now }
{
    let mut line = ReplyText::new();
    line.push(b"theory ");
    line.push(said.as_bytes());
    line.push(b"\n");
    line
}

/// How many rules, exclusive and strong declarations there are.
#[tactic(auto, unfolding(crate::specs::TheoryFiles::counts_text), using(ec_outside::proofs::Texts::texts))]
fn counts_text(theory: &Theory) -> ReplyText
    ensures text { result ≡ counts_text theory.now }
    ensures short { length result ≤ 90 }
{
    let mut text = ReplyText::new();
    text.push(b"rules ");
    text.push_number(theory.rules.len() as u64);
    text.push(b" exclusives ");
    text.push_number(theory.exclusives.len() as u64);
    text.push(b" strongs ");
    text.push_number(theory.strongs.len() as u64);
    text
}

/// Adds how many initial properties there are, if there are any.
#[tactic(auto, unfolding(crate::specs::TheoryFiles::initials_text), using(ec_outside::proofs::Texts::texts))]
fn push_initials(line: &mut ReplyText, count: u64)
    requires { length line.old ≤ 100 }
    ensures text { line.new ≡ line.old ++ initials_text count }
    ensures short { length line.new ≤ length line.old + 30 }
{
    if count != 0 {
        line.push(b" initials ");
        line.push_number(count);
    }
}

/// The line about a theory that is accepted.
#[tactic(auto, unfolding(crate::specs::TheoryFiles::accepted_line), using(ec_outside::proofs::Texts::texts))]
pub(crate) fn accepted_line(theory: &Theory) -> ReplyText
    ensures { result ≡ accepted_line theory.now }
{
    let mut line = ReplyText::new();
    line.push(b"accepted ");
    line.push(counts_text(theory).as_bytes());
    push_initials(&mut line, theory.initials.len() as u64);
    line.push(b"\n");
    line
}

/// Words that are said of a theory.
pub(crate) fn said(words: &[u8]) -> ReplyText
    requires { length words.now ≤ 62 }
    ensures { result ≡ words.now }
{
    let mut text = ReplyText::new();
    text.push(words);
    text
}
