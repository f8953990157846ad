//! Properties that are added one by one, with the neighbours that each then has.
ghost use Rattle.std.specs.Prelude.{IsTrue, IfOk, OnOk, ◌<◌};
ghost use Rattle.ec_exclusive.specs.Neighbours.{AreNeighbours};
ghost use Rattle.ec_terms.specs.Matchable.{IsMatchable};
ghost use Rattle.ec_terms.specs.Term.{ground_of, names_are_names};

use anyhow::{Context, Result, bail};
use ec_exclusive::Neighbours;
use ec_lists::NoMemory;
use ec_store::PropTable;
use ec_terms::{GroundRef, Theory, read_ground};
use ec_theory::accept;
use std::alloc::Global;

/// Each thing is at one place at a time.
const ONE_PLACE: &[u8] = b"exclusive place(B,X) place(B,Y).";

/// How many places most things have.
const PLACES: usize = 4;

/// Properties, and which of them are exclusive to which.
#[derive(Drop)]
struct Tables {
    props: PropTable,
    neighbours: Neighbours,
}

/// No properties.
fn no_tables(alloc: Global, theory: &Theory) -> Result<Box<Tables>, NoMemory>
    ensures { IfOk result (λ tables. AreNeighbours theory.now tables.value.props tables.value.neighbours) }
{
    let props = PropTable::new(alloc)?;
    let neighbours = Neighbours::new(alloc)?;
    Ok(Box::new(alloc, Tables { props, neighbours })?)
}

/// Keeps a property, and adds it.
fn add(theory: &Theory, tables: &mut Tables, term: &GroundRef<'_>) -> Result<(), NoMemory>
    requires matchable { IsMatchable theory.now }
    requires named { IsTrue (names_are_names (ground_of term.now)) }
    requires neighbours { AreNeighbours theory.now tables.old.props tables.old.neighbours }
    ensures { OnOk result (AreNeighbours theory.now tables.new.props tables.new.neighbours) }
{
    let p = tables.props.intern(term)?;
    if tables.neighbours.is_added(p) {
        return Ok(());
    }
    tables.neighbours.add(theory, &tables.props, p)
}

/// Keeps the property that a thing is at a place, and adds it.
fn add_place(
    alloc: Global,
    theory: &Theory,
    tables: &mut Tables,
    thing: usize,
    place: usize,
) -> Result<()>
    requires matchable { IsMatchable theory.now }
    requires neighbours { AreNeighbours theory.now tables.old.props tables.old.neighbours }
    ensures { OnOk result (AreNeighbours theory.now tables.new.props tables.new.neighbours) }
{
    let spelt = format!(in alloc; "place(b{thing},s{place})")?;
    let (term, _) = read_ground(spelt.as_bytes()).context("a text that is no term")?;
    add(theory, tables, &term)?;
    Ok(())
}

/// How many neighbours the properties of a table have together.
fn count_all(props: &PropTable, neighbours: &Neighbours) -> usize {
    let mut count: usize = 0;
    for i in 0..props.len() {
        let p = props.nth_in_order(i);
        if neighbours.is_added(p) {
            count = count.wrapping_add(neighbours.of(p).len());
        }
    }
    count
}

/// Adds `count` properties, the places of a thing far from one another, and counts the neighbours that they have then.
fn count_under(alloc: Global, theory: &Theory, count: usize) -> Result<usize>
    requires { IsMatchable theory.now }
{
    let things = count / PLACES + 1;
    let mut tables = no_tables(alloc, theory)?;
    for number in 0..count {
        let (thing, place) = (number % things, number / things);
        add_place(alloc, theory, &mut tables, thing, place)?;
    }
    Ok(count_all(&tables.props, &tables.neighbours))
}

/// The same under a theory in which each thing is at one place at a time.
pub(crate) fn count_neighbours(alloc: Global, count: usize) -> Result<usize> {
    let Ok(checked) = accept(alloc, ONE_PLACE) else {
        bail!("a theory that is refused");
    };
    count_under(alloc, checked.theory(), count)
}
