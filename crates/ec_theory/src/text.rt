//! From bytes to a theory that is well formed.
ghost use Rattle.std.specs.Prelude.{◌≤◌, length, IfOk, IfErr};
ghost use Rattle.ec_theory.specs.Accepted.{IsAccepted, HasFault};

use crate::lexer::tokens;
use crate::reader::read_theory;
use crate::syntax_fault::SyntaxFault;
use crate::token_fault::TokenFault;
use crate::token_list::MOST_BYTES;
use ec_check::{CheckFault, Checked, check};
use std::alloc::Global;

/// Why bytes are no theory: the first fault of their tokens, then of their syntax, then of a clause.
#[derive(Clone, Copy, Debug, PartialEq, Eq)]
pub enum Refused {
    Tokens(TokenFault),
    Syntax(SyntaxFault),
    Wrong(CheckFault),
}

/// Reads the bytes of a text as a theory. A fault other than one of memory comes exactly when the
/// bytes have it.
pub fn accept(alloc: Global, bytes: &[u8]) -> Result<Checked, Refused>
    requires { length bytes.now ≤ MOST_BYTES }
    ensures ok { IfOk result (λ checked. IsAccepted bytes.now checked) }
    ensures fault { IfErr result (λ refused. HasFault bytes.now refused) }
{
    let list = match tokens(alloc, bytes) {
        Ok(list) => list,
        Err(fault) => return Err(Refused::Tokens(fault)),
    };
    let theory = match read_theory(alloc, &list) {
        Ok(theory) => theory,
        Err(fault) => return Err(Refused::Syntax(fault)),
    };
    match check(theory) {
        Ok(checked) => Ok(checked),
        Err(fault) => Err(Refused::Wrong(fault)),
    }
}
