//! The reader of theories.
ghost use Rattle.std.specs.Prelude.{IfOk, IfErr};
ghost use Rattle.ec_theory.specs.Walk.{Beginning, stop_of};
ghost use Rattle.ec_theory.specs.Reader.{IsStop};
ghost use Rattle.ec_theory.specs.Reading.{Reads, IsSyntaxFault, HasNoReading};
ghost use Rattle.ec_check.specs.Numbering.{IsNumbered};

use crate::clause::{push_clause, read_clause};
use crate::cursor::Cursor;
use crate::syntax_fault::SyntaxFault;
use crate::token_list::TokenList;
use ec_terms::{Sequence, Theory};
use std::alloc::Global;

/// Reads a list of tokens as a theory by the grammar of clauses. Clauses are numbered from 1, and the
/// variables of a clause from 0 by their first appearance.
///
/// `Syntax` comes exactly when the tokens are no theory, at the first token with which they begin
/// none, or at their end where all of them begin one.
#[tactic(auto, using(crate::proofs::WalkLaws::no_reading, crate::proofs::WalkLaws::syntax_fault, crate::proofs::NumberedReadings::reads_numbered))]
pub fn read_theory(alloc: Global, tokens: &TokenList<'_>) -> Result<Theory, SyntaxFault>
    ensures ok { IfOk result (λ theory. Reads tokens.now theory) }
    ensures numbered { IfOk result (λ theory. IsNumbered theory) }
    ensures syntax { IfErr result (λ fault. IsSyntaxFault fault tokens.now) }
    ensures none { IfErr result (λ fault. HasNoReading fault tokens.now) }
{
    match read_clauses(alloc, tokens) {
        Ok(theory) => Ok(theory),
        Err(fault) => Err(fault),
    }
}

/// Reads the clauses one by one.
fn read_clauses(alloc: Global, tokens: &TokenList<'_>) -> Result<Theory, SyntaxFault>
    ensures ok { IfOk result (λ theory. Reads tokens.now theory) }
    ensures syntax { IfErr result (λ fault. IsStop fault (stop_of Beginning tokens.now)) }
{
    let mut theory = Theory {
        rules: Sequence::new(alloc),
        exclusives: Sequence::new(alloc),
        strongs: Sequence::new(alloc),
        initials: Sequence::new(alloc),
        times: Sequence::new(alloc),
    };
    let mut number = 1;
    let mut next = Cursor::new(tokens);
    while !next.is_at_end() {
        let (clause, behind) = read_clause(alloc, number, next)?;
        push_clause(&mut theory, clause)?;
        number += 1;
        next = behind;
    }
    Ok(theory)
}
