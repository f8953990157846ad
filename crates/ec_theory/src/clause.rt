//! The reader of clauses.
ghost use Rattle.std.specs.Prelude.{◌≡◌, ◌<◌, ◌∷◌, ℕ, List, Some, IfOk, OnOk, length};
ghost use Rattle.ec_theory.specs.declared.sign.Keyword.TheVariants.{Rule as RuleWord, Exclusive as ExclusiveWord, Strong as StrongWord, Initially as InitiallyWord, Time as TimeWord};
ghost use Rattle.ec_theory.specs.Sign.{Word, signs_of, keyword_of, variables_of};
ghost use Rattle.ec_theory.specs.Grammar.{TakesClause};
ghost use Rattle.ec_theory.specs.Walk.{Beginning, PatternAt, StrongNameAt, TimeKindAt, Event, Left, Initial as PartInitial};
ghost use Rattle.ec_theory.specs.Reader.{left_of, Goes, clause_added};

use crate::condition::read_body;
use crate::cursor::Cursor;
use crate::pattern::read_pattern;
use crate::sign::{Keyword, Symbol, name_of};
use crate::syntax_fault::SyntaxFault;
use crate::variables::Variables;
use ec_lists::NoMemory;
use ec_terms::{Exclusive, Initial, Kind, Rule, Strong, Theory, TimeDecl};
use std::alloc::Global;

/// One clause of a theory.
#[derive(Drop)]
pub enum Clause {
    Rule(Rule),
    Exclusive(Exclusive),
    Strong(Strong),
    Initial(Initial),
    Time(TimeDecl),
}

/// Reads a rule behind its first word.
fn read_rule<'t, 'a>(
    alloc: Global,
    names: &Variables<'a>,
    number: u32,
    kind: Kind,
    cursor: Cursor<'t, 'a>,
) -> Result<(Clause, Cursor<'t, 'a>), SyntaxFault>
    ensures takes { IfOk result (λ x. (w : List ℕ) → keyword_of w ≡ Some (RuleWord kind) → TakesClause names.now number (Word w ∷ signs_of (left_of cursor.entry)) x.0 (signs_of (left_of x.1))) }
    ensures goes { Goes (PatternAt Event) Beginning (left_of cursor.entry) result }
{
    let (event, behind_event) = read_pattern(alloc, names, cursor)?;
    let (head, behind_head) = read_pattern(alloc, names, behind_event)?;
    let (body, rest) = read_body(alloc, names, behind_head)?;
    let rule = Rule {
        clause: number,
        kind,
        event,
        head,
        tests: body.tests,
        literals: body.literals,
    };
    Ok((Clause::Rule(rule), rest))
}

/// Reads an exclusive declaration behind its first word.
fn read_exclusive<'t, 'a>(
    alloc: Global,
    names: &Variables<'a>,
    number: u32,
    cursor: Cursor<'t, 'a>,
) -> Result<(Clause, Cursor<'t, 'a>), SyntaxFault>
    ensures takes { IfOk result (λ x. (w : List ℕ) → keyword_of w ≡ Some ExclusiveWord → TakesClause names.now number (Word w ∷ signs_of (left_of cursor.entry)) x.0 (signs_of (left_of x.1))) }
    ensures goes { Goes (PatternAt Left) Beginning (left_of cursor.entry) result }
{
    let (left, behind_left) = read_pattern(alloc, names, cursor)?;
    let (right, behind_right) = read_pattern(alloc, names, behind_left)?;
    let rest = behind_right.expect(Symbol::Dot)?;
    let declaration = Exclusive {
        clause: number,
        left,
        right,
    };
    Ok((Clause::Exclusive(declaration), rest))
}

/// Reads a strong declaration behind its first word.
fn read_strong<'t, 'a>(
    number: u32,
    cursor: Cursor<'t, 'a>,
) -> Result<(Clause, Cursor<'t, 'a>), SyntaxFault>
    ensures takes { IfOk result (λ x. (names : List (List ℕ)) (w : List ℕ) → keyword_of w ≡ Some StrongWord → TakesClause names number (Word w ∷ signs_of (left_of cursor.entry)) x.0 (signs_of (left_of x.1))) }
    ensures goes { Goes StrongNameAt Beginning (left_of cursor.entry) result }
{
    let Some((text, behind_name)) = cursor.word() else {
        return Err(cursor.fault());
    };
    let behind_slash = behind_name.expect(Symbol::Slash)?;
    let Some((arity, behind_arity)) = behind_slash.number() else {
        return Err(behind_slash.fault());
    };
    let rest = behind_arity.expect(Symbol::Dot)?;
    let declaration = Strong {
        clause: number,
        name: name_of(text),
        arity,
    };
    Ok((Clause::Strong(declaration), rest))
}

/// Reads an initial property behind its first word.
fn read_initial<'t, 'a>(
    alloc: Global,
    names: &Variables<'a>,
    number: u32,
    cursor: Cursor<'t, 'a>,
) -> Result<(Clause, Cursor<'t, 'a>), SyntaxFault>
    ensures takes { IfOk result (λ x. (w : List ℕ) → keyword_of w ≡ Some InitiallyWord → TakesClause names.now number (Word w ∷ signs_of (left_of cursor.entry)) x.0 (signs_of (left_of x.1))) }
    ensures goes { Goes (PatternAt PartInitial) Beginning (left_of cursor.entry) result }
{
    let (prop, behind) = read_pattern(alloc, names, cursor)?;
    let rest = behind.expect(Symbol::Dot)?;
    let declaration = Initial {
        clause: number,
        prop,
    };
    Ok((Clause::Initial(declaration), rest))
}

/// Reads a time declaration behind its first word.
fn read_time<'t, 'a>(
    number: u32,
    cursor: Cursor<'t, 'a>,
) -> Result<(Clause, Cursor<'t, 'a>), SyntaxFault>
    ensures takes { IfOk result (λ x. (names : List (List ℕ)) (w : List ℕ) → keyword_of w ≡ Some TimeWord → TakesClause names number (Word w ∷ signs_of (left_of cursor.entry)) x.0 (signs_of (left_of x.1))) }
    ensures goes { Goes TimeKindAt Beginning (left_of cursor.entry) result }
{
    let Some((kind, behind_kind)) = cursor.time_kind() else {
        return Err(cursor.fault());
    };
    let rest = behind_kind.expect(Symbol::Dot)?;
    let declaration = TimeDecl {
        clause: number,
        kind,
    };
    Ok((Clause::Time(declaration), rest))
}

/// Reads one clause, which gets this number and has these variables.
fn read_with_names<'t, 'a>(
    alloc: Global,
    names: &Variables<'a>,
    number: u32,
    cursor: Cursor<'t, 'a>,
) -> Result<(Clause, Cursor<'t, 'a>), SyntaxFault>
    requires { 0 < length cursor.rest.now }
    ensures takes { IfOk result (λ x. TakesClause names.now number (signs_of (left_of cursor.entry)) x.0 (signs_of (left_of x.1))) }
    ensures goes { Goes Beginning Beginning (left_of cursor.entry) result }
{
    match cursor.keyword() {
        Some((Keyword::Rule(kind), behind)) => read_rule(alloc, names, number, kind, behind),
        Some((Keyword::Exclusive, behind)) => read_exclusive(alloc, names, number, behind),
        Some((Keyword::Strong, behind)) => read_strong(number, behind),
        Some((Keyword::Initially, behind)) => read_initial(alloc, names, number, behind),
        Some((Keyword::Time, behind)) => read_time(number, behind),
        None => Err(cursor.fault()),
    }
}

/// Reads one clause, which gets this number.
pub fn read_clause<'t, 'a>(
    alloc: Global,
    number: u32,
    cursor: Cursor<'t, 'a>,
) -> Result<(Clause, Cursor<'t, 'a>), SyntaxFault>
    requires { 0 < length cursor.rest.now }
    ensures takes { IfOk result (λ x. TakesClause (variables_of (signs_of (left_of cursor.entry))) number (signs_of (left_of cursor.entry)) x.0 (signs_of (left_of x.1))) }
    ensures goes { Goes Beginning Beginning (left_of cursor.entry) result }
{
    let names = Variables::of(alloc, cursor)?;
    read_with_names(alloc, &names, number, cursor)
}

/// Adds a clause behind those of its kind.
#[tactic(auto, unfolding(crate::specs::Reader::clause_added))]
pub fn push_clause(theory: &mut Theory, clause: Clause) -> Result<(), NoMemory>
    ensures { OnOk result (theory.new ≡ clause_added theory.old clause) }
{
    match clause {
        Clause::Rule(rule) => theory.rules.push(rule),
        Clause::Exclusive(declaration) => theory.exclusives.push(declaration),
        Clause::Strong(declaration) => theory.strongs.push(declaration),
        Clause::Initial(declaration) => theory.initials.push(declaration),
        Clause::Time(declaration) => theory.times.push(declaration),
    }
}
