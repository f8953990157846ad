//! Terms that are kept in a table, with the numbers that are new in it, so that they can be forgotten again.
ghost use Rattle.std.specs.Prelude.{◌≡◌, ◌==◌, Some, IsTrue, IfOk};
ghost use Rattle.ec_terms.specs.Term.{ground_of, names_are_names};
ghost use Rattle.ec_store.specs.Table.{term_at};
ghost use Rattle.ec_context.specs.Widened.{AddsOnly, AreUnmentioned, HasKept, without_props};

use ec_lists::NoMemory;
use ec_store::PropTable;
use ec_terms::{GroundRef, PropId};

/// The number of a term, which is kept from then on. A number that is new is added to `added`. `Err`: memory ran
/// out, and the table is as it was.
pub(crate) fn keep(
    props: &mut PropTable,
    added: &mut Vec<PropId>,
    term: &GroundRef<'_>,
) -> Result<PropId, NoMemory>
    requires named { IsTrue (names_are_names (ground_of term.now)) }
    requires unmentioned { AreUnmentioned added.old.items props.old }
    ensures kept { HasKept props.old added.old.items props.new added.new.items }
    ensures term { IfOk result (λ p. term_at p.0 props.new ≡ Some (ground_of term.now)) }
    ensures added { IfOk result (λ p. AddsOnly (λ id. p.0 == id) added.old.items added.new.items) }
{
    added.reserve(1)?;
    let count = props.len();
    let p = props.intern(term)?;
    if props.len() > count {
        added.push_reserved(p);
    }
    Ok(p)
}

/// Forgets the properties of numbers that are new, the latest first. It takes no memory.
pub fn forget_each(props: &mut PropTable, added: &mut Vec<PropId>)
    requires { AreUnmentioned added.old.items props.old }
    ensures { props.new ≡ without_props added.old.items props.old }
{
    while let Some(p) = added.pop() {
        props.forget(p);
    }
}
