//! The reader of conditions.
ghost use Rattle.std.specs.Prelude.{◌≡◌, ◌++◌, ◌∷◌, [], true, false, IfOk, OnOk, MatchBool};
ghost use Rattle.ec_theory.specs.declared.sign.Symbol.TheVariants.{Not};
ghost use Rattle.ec_theory.specs.Sign.{is_given, signs_of};
ghost use Rattle.ec_theory.specs.Grammar.{TakesCondition, TakesConditions, TakesBody, tests_of, literals_of};
ghost use Rattle.ec_theory.specs.Walk.{Beginning, PatternAt, AfterPattern, ConditionAt, Head, Condition as PartCondition};
ghost use Rattle.ec_theory.specs.Reader.{left_of, next_passes, Goes, BeginsLiteral, BeginsTest, TakesLiteral};
ghost use Rattle.ec_theory.specs.Body.{Collects};

use crate::cursor::Cursor;
use crate::pattern::{read_argument, read_pattern};
use crate::sign::Symbol;
use crate::syntax_fault::SyntaxFault;
use crate::variables::Variables;
use ec_lists::NoMemory;
use ec_terms::{Literal, Literals, Sequence, Test, Tests};
use std::alloc::Global;

/// One condition of a rule.
#[derive(Drop)]
pub enum Condition {
    Literal(Literal),
    Test(Test),
}

/// The conditions of a rule, each kind in its order.
#[derive(Drop)]
pub struct Body {
    pub tests: Tests,
    pub literals: Literals,
}

impl Body {
    /// No conditions.
    pub fn new(alloc: Global) -> Body
        ensures tests { result.tests ≡ [] }
        ensures literals { result.literals ≡ [] }
    {
        Body {
            tests: Sequence::new(alloc),
            literals: Sequence::new(alloc),
        }
    }

    /// Adds a condition behind those of its kind.
    #[tactic(auto, unfolding(crate::specs::Grammar::tests_of, crate::specs::Grammar::literals_of))]
    pub fn push(&mut self, condition: Condition) -> Result<(), NoMemory>
        ensures tests { OnOk result (self.new.tests ≡ self.old.tests ++ tests_of (condition ∷ [])) }
        ensures literals { OnOk result (self.new.literals ≡ self.old.literals ++ literals_of (condition ∷ [])) }
    {
        match condition {
            Condition::Literal(literal) => self.literals.push(literal),
            Condition::Test(test) => self.tests.push(test),
        }
    }
}

/// Whether a name comes next with no comparison behind it, so that a condition on a property begins.
fn begins_literal(cursor: Cursor<'_, '_>) -> bool
    ensures { MatchBool result (BeginsLiteral (left_of cursor.entry)) (BeginsTest (left_of cursor.entry)) }
{
    match cursor.word() {
        Some((_, behind)) => match behind.compare() {
            Some(_) => false,
            None => true,
        },
        None => false,
    }
}

/// Reads a condition on a property, behind its `not`.
fn read_literal<'t, 'a>(
    alloc: Global,
    names: &Variables<'a>,
    positive: bool,
    cursor: Cursor<'t, 'a>,
) -> Result<(Condition, Cursor<'t, 'a>), SyntaxFault>
    ensures takes { IfOk result (λ x. TakesLiteral names.now positive (left_of cursor.entry) x.0 (left_of x.1)) }
    ensures goes { Goes (PatternAt PartCondition) (AfterPattern PartCondition) (left_of cursor.entry) result }
{
    let (prop, behind) = read_pattern(alloc, names, cursor)?;
    Ok((Condition::Literal(Literal { positive, prop }), behind))
}

/// Reads a comparison of two arguments.
fn read_test<'t, 'a>(
    names: &Variables<'a>,
    cursor: Cursor<'t, 'a>,
) -> Result<(Condition, Cursor<'t, 'a>), SyntaxFault>
    requires positive { next_passes (is_given Not) (left_of cursor) ≡ false }
    requires test { BeginsTest (left_of cursor) }
    ensures takes { IfOk result (λ x. TakesCondition names.now (signs_of (left_of cursor.entry)) x.0 (signs_of (left_of x.1))) }
    ensures goes { Goes ConditionAt (AfterPattern PartCondition) (left_of cursor.entry) result }
{
    let (left, behind) = read_argument(names, cursor)?;
    let Some((op, behind_op)) = behind.compare() else {
        return Err(behind.fault());
    };
    let (right, rest) = read_argument(names, behind_op)?;
    Ok((Condition::Test(Test { op, left, right }), rest))
}

/// Reads one condition.
pub fn read_condition<'t, 'a>(
    alloc: Global,
    names: &Variables<'a>,
    cursor: Cursor<'t, 'a>,
) -> Result<(Condition, Cursor<'t, 'a>), SyntaxFault>
    ensures takes { IfOk result (λ x. TakesCondition names.now (signs_of (left_of cursor.entry)) x.0 (signs_of (left_of x.1))) }
    ensures goes { Goes ConditionAt (AfterPattern PartCondition) (left_of cursor.entry) result }
{
    if let Some(behind) = cursor.skip(Symbol::Not) {
        return read_literal(alloc, names, false, behind);
    }
    if begins_literal(cursor) {
        read_literal(alloc, names, true, cursor)
    } else {
        read_test(names, cursor)
    }
}

/// Reads the conditions of a rule behind its `if`, and the dot.
pub fn read_conditions<'t, 'a>(
    alloc: Global,
    names: &Variables<'a>,
    cursor: Cursor<'t, 'a>,
) -> Result<(Body, Cursor<'t, 'a>), SyntaxFault>
    ensures takes { IfOk result (λ x. Collects (λ cs. TakesConditions names.now (signs_of (left_of cursor.entry)) cs (signs_of (left_of x.1))) x.0) }
    ensures goes { Goes ConditionAt Beginning (left_of cursor.entry) result }
{
    let mut body = Body::new(alloc);
    let mut next = cursor;
    loop {
        let (condition, behind) = read_condition(alloc, names, next)?;
        body.push(condition)?;
        match behind.skip(Symbol::Comma) {
            Some(inside) => next = inside,
            None => {
                let rest = behind.expect(Symbol::Dot)?;
                return Ok((body, rest));
            }
        }
    }
}

/// Reads what stands behind the head of a rule: its conditions, if it has any, and the dot.
pub fn read_body<'t, 'a>(
    alloc: Global,
    names: &Variables<'a>,
    cursor: Cursor<'t, 'a>,
) -> Result<(Body, Cursor<'t, 'a>), SyntaxFault>
    ensures takes { IfOk result (λ x. Collects (λ cs. TakesBody names.now (signs_of (left_of cursor.entry)) cs (signs_of (left_of x.1))) x.0) }
    ensures goes { Goes (AfterPattern Head) Beginning (left_of cursor.entry) result }
{
    match cursor.skip(Symbol::If) {
        Some(conditions) => read_conditions(alloc, names, conditions),
        None => {
            let rest = cursor.expect(Symbol::Dot)?;
            Ok((Body::new(alloc), rest))
        }
    }
}
