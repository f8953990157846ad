//! What several tests begin with: a theory, tables that are kept under it, and a term in them.
ghost use Rattle.std.specs.Prelude.{◌≡◌, IsTrue};
ghost use Rattle.ec_terms.specs.Matchable.{IsMatchable};
ghost use Rattle.ec_terms.specs.Term.{ground_of, names_are_names};
ghost use Rattle.ec_exclusive.specs.Neighbours.{AreNeighbours};

use ec_check::Checked;
use ec_exclusive::Neighbours;
use ec_store::PropTable;
use ec_terms::{GroundRef, PropId, Theory, read_ground};
use ec_theory::{MOST_BYTES, accept};
use std::alloc::Global;
use std::process::Abort;

/// Everybody is at one place.
pub(crate) const ONE_PLACE: &str = "exclusive at(P,X) at(P,Y).";

/// Properties, and which of them are exclusive to which.
#[derive(Drop)]
pub(crate) struct Tables {
    pub(crate) props: PropTable,
    pub(crate) neighbours: Neighbours,
}

/// A value in a box. What holds a box is proved at less cost than what holds its value.
pub(crate) fn boxed<V: Drop>(rt: &impl Abort, alloc: Global, value: V) -> Box<V>
    ensures { result.value ≡ value }
{
    Box::new(alloc, value).expect(rt, "memory")
}

/// The theory that a text spells.
pub(crate) fn theory_of(rt: &impl Abort, alloc: Global, text: &str) -> Box<Checked> {
    let text = text.as_bytes();
    assert!(rt; text.len() <= MOST_BYTES);
    boxed(rt, alloc, accept(alloc, text).expect(rt, "a theory"))
}

/// No properties.
pub(crate) fn no_tables(rt: &impl Abort, alloc: Global, theory: &Theory) -> Box<Tables>
    ensures { AreNeighbours theory.now result.value.props result.value.neighbours }
{
    let props = PropTable::new(alloc).expect(rt, "memory");
    let neighbours = Neighbours::new(alloc).expect(rt, "memory");
    boxed(rt, alloc, Tables { props, neighbours })
}

/// The term that a text spells.
pub(crate) fn term_of<'a>(rt: &impl Abort, text: &'a [u8]) -> GroundRef<'a>
    ensures { IsTrue (names_are_names (ground_of result)) }
{
    let (term, _) = read_ground(text).expect(rt, "a term");
    term
}

/// Keeps a term, and adds its property, which was not added.
pub(crate) fn enter(
    rt: &impl Abort,
    theory: &Theory,
    tables: &mut Tables,
    term: &GroundRef<'_>,
) -> PropId
    requires matchable { IsMatchable theory.now }
    requires named { IsTrue (names_are_names (ground_of term.now)) }
    requires neighbours { AreNeighbours theory.now tables.old.props tables.old.neighbours }
    ensures { AreNeighbours theory.now tables.new.props tables.new.neighbours }
{
    let p = tables.props.intern(term).expect(rt, "memory");
    assert!(rt; !tables.neighbours.is_added(p));
    let added = tables.neighbours.add(theory, &tables.props, p);
    added.expect(rt, "memory");
    p
}

/// The same, with a term that a text spells.
pub(crate) fn enter_text(
    rt: &impl Abort,
    theory: &Theory,
    tables: &mut Tables,
    text: &str,
) -> PropId
    requires matchable { IsMatchable theory.now }
    requires neighbours { AreNeighbours theory.now tables.old.props tables.old.neighbours }
    ensures { AreNeighbours theory.now tables.new.props tables.new.neighbours }
{
    let term = term_of(rt, text.as_bytes());
    enter(rt, theory, tables, &term)
}
