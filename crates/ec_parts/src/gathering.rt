//! The marks of a property that is newly kept: the initiations of its neighbours, as clashes.
ghost use Rattle.std.specs.Prelude.{◌≡◌, ◌≢◌, ◌<◌, ◌^◌, ◌∷◌, ◌++◌, ℕ, ℤ, [], IfOk, OnOk, All};
ghost use Rattle.std.specs.List.Sorted.{IsPermutation};
ghost use Rattle.std.specs.Ordering.{int_cmp};
ghost use Rattle.ec_points.specs.Table.{marks_at, row_at};
ghost use Rattle.ec_parts.specs.Gathered.{AreGathered, AreInTime, clashing, initiations_at, marks_under};

use ec_lists::NoMemory;
use ec_moment::Moment;
use ec_points::Points;
use ec_rows::{Mark, MarkRow};
use ec_terms::PropId;
use std::alloc::Global;
use std::cmp::Ordering;

/// Adds the marks of a row to a list.
fn collect_row<T: Moment, M: MarkRow<T>>(
    row: &M,
    collected: &mut Vec<Mark<T>>,
) -> Result<(), NoMemory>
    ensures { OnOk result (collected.new.items ≡ collected.old.items ++ M.marks row.now) }
{
    for i in 0..row.len() {
        collected.push(row.get(i))?;
    }
    Ok(())
}

/// The marks of some properties, one row after the other.
fn collect<T: Moment, M: MarkRow<T>>(
    alloc: Global,
    points: &Points<T, M>,
    list: &[PropId],
) -> Result<Vec<Mark<T>>, NoMemory>
    ensures { IfOk result (λ collected. collected.items ≡ marks_under points.now list.now) }
{
    let mut collected = Vec::new(alloc);
    for q in list {
        if let Some(row) = points.row(*q) {
            collect_row(row, &mut collected)?;
        }
    }
    Ok(collected)
}

/// Puts marks in the order of their times. It takes no memory.
fn sort_by_time<T: Moment>(marks: &mut Vec<Mark<T>>)
    ensures same { IsPermutation marks.old.items marks.new.items }
    ensures order { AreInTime T.rank marks.new.items }
{
    marks.sort_unstable_by(
        |a, b| -> Ordering
            ensures { result ≡ int_cmp (T.rank a.now.at) (T.rank b.now.at) }
        { a.at.order(&b.at) },
    );
}

/// A mark of as many clashes as another has initiations.
fn clashes_of<T: Moment>(mark: &Mark<T>) -> Mark<T>
    ensures { result ≡ clashing mark.now }
{
    Mark {
        at: mark.at,
        inits: 0,
        terms: 0,
        clashes: mark.inits,
    }
}

/// Gives a property without marks those that count initiations as clashes: a first one, and others behind it in the order of
/// time. `Err`: memory ran out, and the property has some of them.
fn push_clashes<T: Moment, M: MarkRow<T>>(
    points: &mut Points<T, M>,
    p: PropId,
    first: Mark<T>,
    rest: &[Mark<T>],
) -> Result<(), NoMemory>
    requires none { marks_at p.0 points.old ≡ [] }
    requires order { AreInTime T.rank (first ∷ rest.now) }
    requires counted { All (λ mark. 0 < mark.inits) (first ∷ rest.now) }
    requires few { (t : ℤ) → initiations_at T.rank t (first ∷ rest.now) < 2 ^ 32 }
    ensures gathered { OnOk result (AreGathered T.rank (first ∷ rest.now) (marks_at p.0 points.new)) }
    ensures others { (n : ℕ) → n ≢ p.0 → row_at n points.new ≡ row_at n points.old }
    ensures initials { points.new.initials ≡ points.old.initials }
{
    let mut open = clashes_of(&first);
    for mark in rest {
        if mark.at.order(&open.at).is_eq() {
            open.clashes += mark.inits;
        } else {
            points.push(p, open)?;
            open = clashes_of(mark);
        }
    }
    points.push(p, open)
}

/// Gives a property without marks those that it has by the initiations of others alone, whose initiations are kept. `Err`:
/// memory ran out, and the property has some of them.
pub(crate) fn gather<T: Moment, M: MarkRow<T>>(
    alloc: Global,
    points: &mut Points<T, M>,
    initiations: &Points<T, M>,
    p: PropId,
    list: &[PropId],
) -> Result<(), NoMemory>
    requires none { marks_at p.0 points.old ≡ [] }
    requires counted { All (λ mark. 0 < mark.inits) (marks_under initiations.now list.now) }
    requires few { (t : ℤ) → initiations_at T.rank t (marks_under initiations.now list.now) < 2 ^ 32 }
    ensures gathered { OnOk result (AreGathered T.rank (marks_under initiations.now list.now) (marks_at p.0 points.new)) }
    ensures others { (n : ℕ) → n ≢ p.0 → row_at n points.new ≡ row_at n points.old }
    ensures initials { points.new.initials ≡ points.old.initials }
{
    let mut marks = collect(alloc, initiations, list)?;
    sort_by_time(&mut marks);
    points.reserve(p, marks.len())?;
    match marks.as_slice() {
        [first, rest @ ..] => push_clashes(points, p, *first, rest),
        [] => Ok(()),
    }
}
