//! What a theory says of a term by itself.
ghost use Rattle.std.specs.Prelude.{◌≡◌, IsTrue, IfOk};
ghost use Rattle.ec_terms.specs.Matchable.{IsMatchable};
ghost use Rattle.ec_terms.specs.Term.{ground_of, names_are_names};
ghost use Rattle.ec_exclusive.specs.Forms.{form_in, form_of as the_form};

use crate::keys::keys_of;
use ec_lists::NoMemory;
use ec_terms::{GroundRef, Theory, is_strong};
use std::alloc::Global;

/// The form of an added property: the keys of the groups in which it stands, and whether it is strong.
#[derive(Drop)]
pub(crate) struct Form {
    pub(crate) keys: Vec<Vec<u8>>,
    pub(crate) strong: bool,
}

/// The form of a term. No key is made where no declaration fits it.
pub(crate) fn form_of(
    alloc: Global,
    theory: &Theory,
    term: &GroundRef<'_>,
) -> Result<Form, NoMemory>
    requires matchable { IsMatchable theory.now }
    requires named { IsTrue (names_are_names (ground_of term.now)) }
    ensures { IfOk result (λ form. form_in form ≡ the_form theory.now (ground_of term.now)) }
{
    Ok(Form {
        keys: keys_of(alloc, theory, term, 0, 1)?,
        strong: is_strong(theory, term),
    })
}
