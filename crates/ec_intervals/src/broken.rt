ghost use Rattle.std.specs.Prelude.{◌≡◌, IfNone, Some, drop, option_map};
ghost use Rattle.std.specs.Option.{option_to_list};
ghost use Rattle.ec_axioms.specs.Marks.{broken_spans_of};
ghost use Rattle.ec_axioms.specs.Timeline.{begin_at};
ghost use Rattle.ec_intervals.specs.Broken.{begins_after, first_after, passes_after};
ghost use Rattle.ec_intervals.specs.Steps.{broken_by, broken_through, first_open, open_through};
ghost use Rattle.ec_intervals.specs.Table.{plain_begin, plain_broken};
ghost use Rattle.ec_rows.specs.PlainMarks.{plain_mark, plain_marks};

use crate::interval::Begin;
use crate::steps::{broken_by, first_open, open_behind};
use crate::window::is_open_behind;
use ec_moment::Moment;
use ec_rows::{Mark, MarkRow};

/// Whether a begin comes after another.
fn begins_after<T: Moment>(other: Begin<T>, begin: Begin<T>) -> bool
    ensures { result ≡ begins_after (plain_begin T.rank other) (plain_begin T.rank begin) }
{
    match (other, begin) {
        (_, Begin::Initial) => false,
        (Begin::Initial, Begin::At(_)) => true,
        (Begin::At(earlier), Begin::At(later)) => earlier.order(&later).is_lt(),
    }
}

/// Whether a begin comes after the given one, if one is given.
fn passes_after<T: Moment>(after: Option<Begin<T>>, begin: Begin<T>) -> bool
    ensures { result ≡ passes_after (option_map (plain_begin T.rank) after) (plain_begin T.rank begin) }
{
    match after {
        Some(other) => begins_after(other, begin),
        None => true,
    }
}

/// The begin that a mark breaks, if it comes after the given one.
fn found_by<T: Moment>(
    begun: Option<Begin<T>>,
    mark: Mark<T>,
    strong: bool,
    after: Option<Begin<T>>,
) -> Option<(Begin<T>, T)>
    ensures { option_map (plain_broken T.rank) result ≡ first_after (option_map (plain_begin T.rank) after) (option_to_list (broken_by strong (option_map (plain_begin T.rank) begun) (plain_mark T.rank mark))) }
{
    let (from, at) = broken_by(begun, mark, strong)?;
    if passes_after(after, from) {
        Some((from, at))
    } else {
        None
    }
}

/// The first begin that some marks break and that comes after the given one, if there is one; else `begun` becomes the
/// begin that is open behind them.
fn first_in_run<T: Moment>(
    marks: &[Mark<T>],
    begun: &mut Option<Begin<T>>,
    strong: bool,
    after: Option<Begin<T>>,
) -> Option<(Begin<T>, T)>
    ensures found { option_map (plain_broken T.rank) result ≡ first_after (option_map (plain_begin T.rank) after) (broken_through strong (option_map (plain_begin T.rank) begun.old) (plain_marks T.rank marks.now)) }
    ensures behind { IfNone result (option_map (plain_begin T.rank) begun.new ≡ open_through strong (option_map (plain_begin T.rank) begun.old) (plain_marks T.rank marks.now)) }
{
    for mark in marks {
        let found = found_by(*begun, *mark, strong, after);
        if found.is_some() {
            return found;
        }
        *begun = open_behind(*begun, *mark, strong);
    }
    None
}

/// Where the search for a broken begin after a given time starts: behind how many marks, and with which begin open. Which
/// begin before the time is open does not matter, so one at the time itself stands for it.
fn find_from<T: Moment, M: MarkRow<T>>(
    row: &M,
    strong: bool,
    is_initial: bool,
    at: T,
) -> (usize, Option<Begin<T>>)
    ensures { first_after (Some (begin_at (T.rank at))) (broken_through strong (option_map (plain_begin T.rank) result.1) (drop result.0 (plain_marks T.rank (M.marks row.now)))) ≡ first_after (Some (begin_at (T.rank at))) (broken_through strong (first_open is_initial) (plain_marks T.rank (M.marks row.now))) }
{
    let count = row.count_before(at, 0);
    if is_open_behind(row, count, strong, is_initial) {
        (count, Some(Begin::At(at)))
    } else {
        (count, None)
    }
}

/// Where the search for a broken begin after a given one starts: in front of all marks, unless one at a time is given.
fn find_first<T: Moment, M: MarkRow<T>>(
    row: &M,
    strong: bool,
    is_initial: bool,
    after: Option<Begin<T>>,
) -> (usize, Option<Begin<T>>)
    ensures { first_after (option_map (plain_begin T.rank) after) (broken_through strong (option_map (plain_begin T.rank) result.1) (drop result.0 (plain_marks T.rank (M.marks row.now)))) ≡ first_after (option_map (plain_begin T.rank) after) (broken_through strong (first_open is_initial) (plain_marks T.rank (M.marks row.now))) }
{
    match after {
        Some(Begin::At(at)) => find_from(row, strong, is_initial, at),
        _ => (0, first_open(is_initial)),
    }
}

/// The first broken begin of a row of marks after a begin, or the first of all where none is given, with its break.
/// `None` exactly when there is none. It reads the marks from the given begin on, up to the break.
pub fn broken_after<T: Moment, M: MarkRow<T>>(
    row: &M,
    strong: bool,
    is_initial: bool,
    after: Option<Begin<T>>,
) -> Option<(Begin<T>, T)>
    ensures { option_map (plain_broken T.rank) result ≡ first_after (option_map (plain_begin T.rank) after) (broken_spans_of (plain_marks T.rank (M.marks row.now)) strong is_initial) }
{
    let (mut i, mut begun) = find_first(row, strong, is_initial, after);
    while i < row.len() {
        let run = row.run(i);
        let found = first_in_run(run, &mut begun, strong, after);
        if found.is_some() {
            return found;
        }
        i += run.len();
    }
    None
}
