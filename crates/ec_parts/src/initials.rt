//! The parts of no event: the tables keep what is initial.
ghost use Rattle.std.specs.Prelude.{◌≡◌, ◌≢◌, ◌++◌, ◌∷◌, ℕ, List, [], true, None, IsTrue, IsSome, IfOk, OnOk, All, is_some};
ghost use Rattle.ec_terms.specs.declared.ground.Ground.{Ground};
ghost use Rattle.ec_terms.specs.Matchable.{IsMatchable};
ghost use Rattle.ec_axioms.specs.Links.{initial_properties};
ghost use Rattle.ec_axioms.specs.Marks.{spans_of};
ghost use Rattle.ec_exclusive.specs.Added.{added_props};
ghost use Rattle.ec_exclusive.specs.Neighbours.{AreNeighbours};
ghost use Rattle.ec_intervals.specs.Table.{members_at, plain_intervals, row_at};
ghost use Rattle.ec_numbered.specs.PropSet.{are_ascending, has_number};
ghost use Rattle.ec_points.specs.Table.{has_row, marks_at, row_at as marks_row_at};
ghost use Rattle.ec_store.specs.Table.{prop_at};
ghost use Rattle.ec_parts.specs.Initials.{HaveFirstIntervals, IsPlainInitial, KeepsOnce, initial_term};
ghost use Rattle.ec_parts.specs.StandFor.{StandFor, view_of};

use crate::parts::Parts;
use crate::tally::Tally;
use ec_context::Rules;
use ec_entries::Entries;
use ec_exclusive::Neighbours;
use ec_intervals::Intervals;
use ec_lists::NoMemory;
use ec_moment::Moment;
use ec_numbered::PropSet;
use ec_points::Points;
use ec_rows::{MarkRow, SpanRow, TimeRow};
use ec_store::{EventStore, PropTable};
use ec_terms::{Binding, Initial, PropId, Theory, fill_ref};
use std::alloc::Global;

/// Keeps an initial property, with one mention of its own.
fn keep_initial(props: &mut PropTable, initial: &Initial) -> Result<(), NoMemory>
    requires { IsPlainInitial initial.now }
    ensures { OnOk result ((terms : List Ground) → KeepsOnce terms props.old → KeepsOnce (terms ++ initial_term initial.now ∷ []) props.new) }
{
    let _ = props.len();
    let p = props.intern(&fill_ref(&initial.prop, &Binding::new()))?;
    if props.mentions(p) == 0 {
        props.mention(p, 1);
    }
    Ok(())
}

/// Keeps the initial properties of a theory in a table of none.
fn keep_initials(theory: &Theory, props: &mut PropTable) -> Result<(), NoMemory>
    requires initials { All IsPlainInitial theory.now.initials }
    requires none { props.old ≡ [] }
    ensures { OnOk result (KeepsOnce (initial_properties theory.now) props.new) }
{
    for initial in theory.initials.as_slice() {
        keep_initial(props, initial)?;
    }
    Ok(())
}

/// The numbers of all properties that a table keeps.
fn numbers_of(alloc: Global, props: &PropTable) -> Result<PropSet, NoMemory>
    ensures { IfOk result (λ numbers. (id : ℕ) → has_number id numbers.items ≡ is_some (prop_at id props.now)) }
{
    let mut numbers = PropSet::new(alloc);
    for i in 0..props.len() {
        numbers.reserve(1)?;
        numbers.insert(props.nth_in_order(i));
    }
    Ok(numbers)
}

/// The neighbours of kept properties, whose numbers ascend.
fn neighbours_of(
    alloc: Global,
    theory: &Theory,
    props: &PropTable,
    numbers: &[PropId],
) -> Result<Neighbours, NoMemory>
    requires matchable { IsMatchable theory.now }
    requires kept { All (λ p. IsSome (prop_at p.0 props.now)) numbers.now }
    requires ascending { IsTrue (are_ascending numbers.now) }
    ensures neighbours { IfOk result (AreNeighbours theory.now props.now) }
    ensures added { IfOk result (λ neighbours. added_props neighbours.rows ≡ numbers.now) }
{
    let mut neighbours = Neighbours::new(alloc)?;
    for p in numbers {
        neighbours.add(theory, props, *p)?;
    }
    Ok(neighbours)
}

/// Gives an initial property without marks its interval, which begins before all events and does not end.
fn begin_interval<T: Moment, M: MarkRow<T>, I: SpanRow<T>>(
    points: &Points<T, M>,
    strong: bool,
    p: PropId,
    intervals: &mut Intervals<T, I>,
) -> Result<(), NoMemory>
    requires row { IsTrue (has_row p.0 points.now) }
    requires marks { marks_at p.0 points.now ≡ [] }
    ensures first { OnOk result (plain_intervals T.rank (members_at p.0 intervals.new) ≡ spans_of [] strong true) }
    ensures others { OnOk result ((n : ℕ) → n ≢ p.0 → row_at n intervals.new ≡ row_at n intervals.old) }
{
    intervals.prepare(p, 1, 0)?;
    if let Some(row) = points.row(p) {
        intervals.rebuild(p, row, strong, true);
    }
    Ok(())
}

/// Gives each initial property its interval.
fn begin_intervals<T: Moment, M: MarkRow<T>, I: SpanRow<T>>(
    points: &Points<T, M>,
    neighbours: &Neighbours,
    numbers: &[PropId],
    intervals: &mut Intervals<T, I>,
) -> Result<(), NoMemory>
    requires added { added_props neighbours.now.rows ≡ numbers.now }
    requires rows { (n : ℕ) → has_row n points.now ≡ has_number n numbers.now }
    requires marks { (n : ℕ) → marks_at n points.now ≡ [] }
    requires none { (n : ℕ) → row_at n intervals.old ≡ None }
    ensures { OnOk result (HaveFirstIntervals T.rank neighbours.now numbers.now intervals.new) }
{
    for p in numbers {
        begin_interval(points, neighbours.is_strong(*p), *p, intervals)?;
    }
    Ok(())
}

/// The properties that are initial, with their numbers and their neighbours.
#[derive(Drop)]
struct InitialTables {
    props: PropTable,
    numbers: PropSet,
    neighbours: Neighbours,
}

/// The tables of what is initial under a theory.
fn initial_tables(alloc: Global, theory: &Theory) -> Result<InitialTables, NoMemory>
    requires initials { All IsPlainInitial theory.now.initials }
    requires matchable { IsMatchable theory.now }
    ensures once { IfOk result (λ tables. KeepsOnce (initial_properties theory.now) tables.props) }
    ensures numbers { IfOk result (λ tables. (id : ℕ) → has_number id tables.numbers.items ≡ is_some (prop_at id tables.props)) }
    ensures neighbours { IfOk result (λ tables. AreNeighbours theory.now tables.props tables.neighbours) }
    ensures added { IfOk result (λ tables. added_props tables.neighbours.rows ≡ tables.numbers.items) }
{
    let mut props = PropTable::new(alloc)?;
    keep_initials(theory, &mut props)?;
    let numbers = numbers_of(alloc, &props)?;
    let neighbours = neighbours_of(alloc, theory, &props, numbers.as_slice())?;
    Ok(InitialTables {
        props,
        numbers,
        neighbours,
    })
}

/// The marks, the initiations and the intervals of what is initial, where there are no events, in boxes while the parts are
/// made.
#[derive(Drop)]
struct InitialRows<T: Moment, M: MarkRow<T>, I: SpanRow<T>> {
    points: Box<Points<T, M>>,
    initiations: Box<Points<T, M>>,
    intervals: Box<Intervals<T, I>>,
}

/// A value in a box, where it is small to move. `Err`: memory ran out.
pub fn boxed<V: Drop>(alloc: Global, value: V) -> Result<Box<V>, NoMemory>
    ensures { IfOk result (λ boxed. boxed.value ≡ value) }
{
    Ok(Box::new(alloc, value)?)
}

/// The rows of added properties without marks, all of them initial.
fn initial_rows<T: Moment, M: MarkRow<T>, I: SpanRow<T>>(
    alloc: Global,
    neighbours: &Neighbours,
    numbers: &PropSet,
) -> Result<InitialRows<T, M, I>, NoMemory>
    requires { added_props neighbours.now.rows ≡ numbers.now.items }
    ensures initials { IfOk result (λ rows. rows.points.value.initials ≡ numbers.now.items) }
    ensures marks { IfOk result (λ rows. (n : ℕ) → marks_at n rows.points.value ≡ []) }
    ensures initiations { IfOk result (λ rows. (n : ℕ) → marks_row_at n rows.initiations.value ≡ None) }
    ensures intervals { IfOk result (λ rows. HaveFirstIntervals T.rank neighbours.now numbers.now.items rows.intervals.value) }
{
    let points = boxed(alloc, Points::with_initials(alloc, numbers.as_slice())?)?;
    let initiations = boxed(alloc, Points::new(alloc)?)?;
    let mut intervals = Intervals::new(alloc);
    begin_intervals(&points, neighbours, numbers.as_slice(), &mut intervals)?;
    Ok(InitialRows {
        points,
        initiations,
        intervals: boxed(alloc, intervals)?,
    })
}

/// What the parts of no event are put together of, but for their theory.
#[derive(Drop)]
struct Beginning<T: Moment, M: MarkRow<T>, I: SpanRow<T>, X: TimeRow<T>> {
    store: EventStore<T, X>,
    tables: Box<InitialTables>,
    rows: InitialRows<T, M, I>,
}

/// What the parts of no event under a theory are put together of.
fn begin_parts<T: Moment, M: MarkRow<T>, I: SpanRow<T>, X: TimeRow<T>>(
    alloc: Global,
    theory: &Theory,
) -> Result<Beginning<T, M, I, X>, NoMemory>
    requires initials { All IsPlainInitial theory.now.initials }
    requires matchable { IsMatchable theory.now }
    ensures once { IfOk result (λ made. KeepsOnce (initial_properties theory.now) made.tables.value.props) }
    ensures numbers { IfOk result (λ made. (id : ℕ) → has_number id made.tables.value.numbers.items ≡ is_some (prop_at id made.tables.value.props)) }
    ensures neighbours { IfOk result (λ made. AreNeighbours theory.now made.tables.value.props made.tables.value.neighbours) }
    ensures added { IfOk result (λ made. added_props made.tables.value.neighbours.rows ≡ made.tables.value.numbers.items) }
    ensures initials { IfOk result (λ made. made.rows.points.value.initials ≡ made.tables.value.numbers.items) }
    ensures marks { IfOk result (λ made. (n : ℕ) → marks_at n made.rows.points.value ≡ []) }
    ensures initiations { IfOk result (λ made. (n : ℕ) → marks_row_at n made.rows.initiations.value ≡ None) }
    ensures intervals { IfOk result (λ made. HaveFirstIntervals T.rank made.tables.value.neighbours made.tables.value.numbers.items made.rows.intervals.value) }
    ensures events { IfOk result (λ made. made.store.events ≡ []) }
{
    let tables = boxed(alloc, initial_tables(alloc, theory)?)?;
    let kept = &*tables;
    let rows = initial_rows(alloc, &kept.neighbours, &kept.numbers)?;
    Ok(Beginning {
        store: EventStore::new(alloc)?,
        tables,
        rows,
    })
}

/// The parts of no event, put together.
fn assembled<T: Moment, M: MarkRow<T>, I: SpanRow<T>, X: TimeRow<T>>(
    checked: Rules,
    entries: Entries<T>,
    made: Beginning<T, M, I, X>,
) -> Parts<T, M, I, X>
    ensures { result ≡ record { checked = checked; store = made.store; props = made.tables.value.props; neighbours = made.tables.value.neighbours; entries = entries; points = made.rows.points.value; initiations = made.rows.initiations.value; intervals = made.rows.intervals.value } }
{
    let tables = Box::into_inner(made.tables);
    Parts {
        checked,
        store: made.store,
        props: tables.props,
        neighbours: tables.neighbours,
        entries,
        points: Box::into_inner(made.rows.points),
        initiations: Box::into_inner(made.rows.initiations),
        intervals: Box::into_inner(made.rows.intervals),
    }
}

/// The parts of no event under a theory: what is initial is kept, with one mention of its own each, and holds from before
/// all events. `Err`: memory ran out.
pub fn new_parts<T: Moment, M: MarkRow<T>, I: SpanRow<T>, X: TimeRow<T>>(
    alloc: Global,
    checked: Rules,
) -> Result<(Parts<T, M, I, X>, Tally), NoMemory>
    ensures stand { IfOk result (λ made. StandFor T.rank checked [] (view_of made.0) made.1) }
    ensures theory { IfOk result (λ made. made.0.checked ≡ checked) }
    ensures tally { IfOk result (λ made. made.1 ≡ record { mentions = 0; links = 0 }) }
{
    let made = begin_parts(alloc, checked.theory())?;
    let parts = assembled(checked, Entries::new(alloc), made);
    let tally = Tally {
        mentions: 0,
        links: 0,
    };
    Ok((parts, tally))
}
