//! What the marks of a property say at one time, found by one search.
ghost use Rattle.std.specs.Prelude.{◌≡◌, ◌-◌, ◌<◌, ◌≤◌, ℕ, Some, IfSome, true, false, int_lt, length, take, drop, slice_get, slice_index_or};
ghost use Rattle.ec_axioms.specs.Marks.{current_after, last_mark_before};
ghost use Rattle.ec_rows.specs.declared.mark.Mark.{Mark};
ghost use Rattle.ec_rows.specs.Marks.{IsMarkRow, mark_at, marks_after, marks_before};
ghost use Rattle.ec_rows.specs.PlainMarks.{plain_marks};

use crate::row::is_at;
use ec_moment::Moment;
use ec_rows::{Mark, MarkRow};

/// How many marks are looked at before a search in the whole row.
const FEW: usize = 8;

/// What the marks of a property say at a time: the mark there, if there is one; whether the property is current there; the
/// first mark behind; and how many marks stand before the time.
#[derive(Clone, Copy)]
pub struct Reading<T> {
    pub mark: Option<Mark<T>>,
    pub is_current: bool,
    pub next: Option<Mark<T>>,
    pub place: usize,
}

/// Some of the marks from a place on, which lie together in memory.
fn run_from<T: Moment, M: MarkRow<T>>(row: &M, from: usize) -> &[Mark<T>]
    ensures { result.now ≡ take (length result.now) (drop from (M.marks row.now)) }
{
    if from < row.len() { row.run(from) } else { &[] }
}

/// The mark at a place, read from a run of marks if it reaches that far.
fn mark_in<T: Moment, M: MarkRow<T>>(row: &M, run: &[Mark<T>], from: usize, i: usize) -> Mark<T>
    requires run { run.now ≡ take (length run.now) (drop from (M.marks row.now)) }
    requires behind { from ≤ i }
    requires within { i < length (M.marks row.now) }
    ensures { slice_get (M.marks row.now) i ≡ Some result }
{
    let k = i - from;
    if k < run.len() { run[k] } else { row.get(i) }
}

/// Whether a property is current at a time, before which so many of its marks stand.
fn current_behind<T: Moment, M: MarkRow<T>>(
    row: &M,
    run: &[Mark<T>],
    from: usize,
    at: T,
    place: usize,
    initial: bool,
) -> bool
    requires row { IsMarkRow T.rank (M.marks row.now) }
    requires run { run.now ≡ take (length run.now) (drop from (M.marks row.now)) }
    requires behind { from ≤ place - 1 }
    requires place { place ≡ length (marks_before T.rank (T.rank at) (M.marks row.now)) }
    ensures { result ≡ current_after initial (last_mark_before (plain_marks T.rank (M.marks row.now)) (T.rank at)) }
{
    if place == 0 {
        initial
    } else {
        mark_in(row, run, from, place - 1).inits > 0
    }
}

/// The mark at a place, if the row reaches that far.
fn mark_if<T: Moment, M: MarkRow<T>>(
    row: &M,
    run: &[Mark<T>],
    from: usize,
    i: usize,
) -> Option<Mark<T>>
    requires run { run.now ≡ take (length run.now) (drop from (M.marks row.now)) }
    requires behind { from ≤ i }
    ensures { result ≡ slice_get (M.marks row.now) i }
{
    if i < row.len() {
        Some(mark_in(row, run, from, i))
    } else {
        None
    }
}

/// The mark at a time, before which so many marks stand, and the first one behind the time.
fn mark_and_next<T: Moment, M: MarkRow<T>>(
    row: &M,
    run: &[Mark<T>],
    from: usize,
    at: T,
    place: usize,
) -> (Option<Mark<T>>, Option<Mark<T>>)
    requires row { IsMarkRow T.rank (M.marks row.now) }
    requires run { run.now ≡ take (length run.now) (drop from (M.marks row.now)) }
    requires behind { from ≤ place }
    requires place { place ≡ length (marks_before T.rank (T.rank at) (M.marks row.now)) }
    ensures mark { result.0 ≡ mark_at T.rank (T.rank at) (M.marks row.now) }
    ensures next { result.1 ≡ slice_get (marks_after T.rank (T.rank at) (M.marks row.now)) 0 }
{
    if place >= row.len() {
        return (None, None);
    }
    let first = mark_in(row, run, from, place);
    if is_at(first, at) {
        (Some(first), mark_if(row, run, from, place + 1))
    } else {
        (None, Some(first))
    }
}

/// Whether a mark is before a time.
fn is_before<T: Moment>(mark: &Mark<T>, at: T) -> bool
    ensures { result ≡ int_lt (T.rank mark.now.at) (T.rank at) }
{
    mark.at.order(&at).is_lt()
}

/// How many of the first marks of a run are before a time. `None`: all of those that are looked at.
fn first_from<T: Moment>(run: &[Mark<T>], at: T) -> Option<usize>
    ensures within { IfSome result (λ i. i < length run.now) }
    ensures front { IfSome result (λ i. (k : ℕ) (m : Mark T) → k < i → int_lt (T.rank (slice_index_or run.now k m).at) (T.rank at) ≡ true) }
    ensures next { IfSome result (λ i. (m : Mark T) → int_lt (T.rank (slice_index_or run.now i m).at) (T.rank at) ≡ false) }
{
    for k in 0..run.len().min(FEW) {
        if !is_before(&run[k], at) {
            return Some(k);
        }
    }
    None
}

/// How many marks of a row are before a time, and some of the marks from a place in front of that on.
#[derive(Drop)]
struct Found<'a, T> {
    run: &'a [Mark<T>],
    from: usize,
    place: usize,
}

/// Finds how many marks are before a time, where the last of them, and one behind that, are among the few from the one in front
/// of a place on. `None`: it is to be searched elsewhere.
fn find_near<T: Moment, M: MarkRow<T>>(row: &M, at: T, near: usize) -> Option<Found<'_, T>>
    ensures run { IfSome result (λ found. found.run.now ≡ take (length found.run.now) (drop found.from (M.marks row.now))) }
    ensures behind { IfSome result (λ found. found.from ≤ found.place - 1) }
    ensures place { IfSome result (λ found. found.place ≡ length (marks_before T.rank (T.rank at) (M.marks row.now))) }
{
    let len = row.len();
    if near == 0 || near >= len {
        return None;
    }
    let from = near - 1;
    let run = row.run(from);
    let count = first_from(run, at)?;
    if count == 0 {
        return None;
    }
    let place = from.checked_add(count)?;
    Some(Found { run, from, place })
}

/// Finds how many marks are before a time, by a search in the whole row.
fn find_anywhere<T: Moment, M: MarkRow<T>>(row: &M, at: T, near: usize) -> Found<'_, T>
    ensures run { result.run.now ≡ take (length result.run.now) (drop result.from (M.marks row.now)) }
    ensures behind { result.from ≤ result.place - 1 }
    ensures place { result.place ≡ length (marks_before T.rank (T.rank at) (M.marks row.now)) }
{
    let place = row.count_before(at, near);
    let from = place.saturating_sub(1);
    let run = run_from(row, from);
    Found { run, from, place }
}

/// Finds how many marks are before a time. `near` is a place to look at first.
fn find_place<T: Moment, M: MarkRow<T>>(row: &M, at: T, near: usize) -> Found<'_, T>
    ensures run { result.run.now ≡ take (length result.run.now) (drop result.from (M.marks row.now)) }
    ensures behind { result.from ≤ result.place - 1 }
    ensures place { result.place ≡ length (marks_before T.rank (T.rank at) (M.marks row.now)) }
{
    match find_near(row, at, near) {
        Some(found) => found,
        None => find_anywhere(row, at, near),
    }
}

/// What a row of marks says at a time. `near` is a place to look at first; it does not change the answer.
pub(crate) fn read_row<T: Moment, M: MarkRow<T>>(
    row: &M,
    at: T,
    near: usize,
    initial: bool,
) -> Reading<T>
    ensures mark { result.mark ≡ mark_at T.rank (T.rank at) (M.marks row.now) }
    ensures current { result.is_current ≡ current_after initial (last_mark_before (plain_marks T.rank (M.marks row.now)) (T.rank at)) }
    ensures next { result.next ≡ slice_get (marks_after T.rank (T.rank at) (M.marks row.now)) 0 }
    ensures place { result.place ≡ length (marks_before T.rank (T.rank at) (M.marks row.now)) }
    ensures row { IsMarkRow T.rank (M.marks row.now) }
{
    let _ = row.len(); // the marks are a row
    let here = find_place(row, at, near);
    let (mark, next) = mark_and_next(row, here.run, here.from, at, here.place);
    Reading {
        mark,
        is_current: current_behind(row, here.run, here.from, at, here.place, initial),
        next,
        place: here.place,
    }
}
