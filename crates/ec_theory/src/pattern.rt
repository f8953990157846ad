//! The reader of patterns.
ghost use Rattle.std.specs.Prelude.{◌∷◌, IfOk, IfErr, List, ℕ};
ghost use Rattle.ec_terms.specs.declared.pattern.Pattern.{Pattern};
ghost use Rattle.ec_theory.specs.Sign.{Word, is_argument, signs_of};
ghost use Rattle.ec_theory.specs.Grammar.{TakesArguments, TakesPattern};
ghost use Rattle.ec_theory.specs.Walk.{Part, PatternAt, AfterName, ArgumentAt, AfterPattern};
ghost use Rattle.ec_theory.specs.Reader.{left_of, Refuses, Goes, TakesArgument};

use crate::cursor::Cursor;
use crate::sign::{Symbol, name_of};
use crate::syntax_fault::SyntaxFault;
use crate::variables::Variables;
use ec_terms::{PatArg, PatArgs, Pattern, Sequence};
use std::alloc::Global;

/// Reads one argument.
#[tactic(auto, using(crate::proofs::NextTokens::at_end, crate::proofs::NextTokens::steps_fail, crate::proofs::WalkSteps::no_argument_fails))]
pub fn read_argument<'t, 'a>(
    names: &Variables<'a>,
    cursor: Cursor<'t, 'a>,
) -> Result<(PatArg, Cursor<'t, 'a>), SyntaxFault>
    ensures takes { IfOk result (λ x. TakesArgument names.now (left_of cursor.entry) x.0 (left_of x.1)) }
    ensures err { IfErr result (λ fault. Refuses is_argument (left_of cursor.entry) fault) }
{
    let Some((sign, behind)) = cursor.next() else {
        return Err(cursor.fault());
    };
    match sign.argument(names) {
        Some(arg) => Ok((arg, behind)),
        None => Err(cursor.fault()),
    }
}

/// Reads the arguments of a pattern behind its `(`, and the `)`.
pub fn read_arguments<'t, 'a>(
    alloc: Global,
    names: &Variables<'a>,
    cursor: Cursor<'t, 'a>,
) -> Result<(PatArgs, Cursor<'t, 'a>), SyntaxFault>
    ensures takes { IfOk result (λ x. TakesArguments names.now (signs_of (left_of cursor.entry)) x.0 (signs_of (left_of x.1))) }
    ensures goes { (part : Part) → Goes (ArgumentAt part) (AfterPattern part) (left_of cursor.entry) result }
{
    let mut args = Sequence::new(alloc);
    let mut next = cursor;
    loop {
        let (arg, behind) = read_argument(names, next)?;
        args.push(arg)?;
        match behind.skip(Symbol::Comma) {
            Some(inside) => next = inside,
            None => {
                let rest = behind.expect(Symbol::Close)?;
                return Ok((args, rest));
            }
        }
    }
}

/// Reads what stands behind the name of a pattern: its arguments between parentheses, or nothing.
pub fn read_behind_name<'t, 'a>(
    alloc: Global,
    names: &Variables<'a>,
    cursor: Cursor<'t, 'a>,
) -> Result<(PatArgs, Cursor<'t, 'a>), SyntaxFault>
    ensures takes { IfOk result (λ x. (w : List ℕ) → TakesPattern names.now (Word w ∷ signs_of (left_of cursor.entry)) (record { name = w; args = x.0 }) (signs_of (left_of x.1))) }
    ensures goes { (part : Part) → Goes (AfterName part) (AfterPattern part) (left_of cursor.entry) result }
{
    match cursor.skip(Symbol::Open) {
        Some(inside) => read_arguments(alloc, names, inside),
        None => Ok((Sequence::new(alloc), cursor)),
    }
}

/// Reads a pattern.
pub fn read_pattern<'t, 'a>(
    alloc: Global,
    names: &Variables<'a>,
    cursor: Cursor<'t, 'a>,
) -> Result<(Pattern, Cursor<'t, 'a>), SyntaxFault>
    ensures takes { IfOk result (λ x. TakesPattern names.now (signs_of (left_of cursor.entry)) x.0 (signs_of (left_of x.1))) }
    ensures goes { (part : Part) → Goes (PatternAt part) (AfterPattern part) (left_of cursor.entry) result }
{
    let Some((text, behind)) = cursor.word() else {
        return Err(cursor.fault());
    };
    let (args, rest) = read_behind_name(alloc, names, behind)?;
    let name = name_of(text);
    Ok((Pattern { name, args }, rest))
}
