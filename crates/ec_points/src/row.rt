//! The row of one property: its last mark before a time, and edits that take no memory.
ghost use Rattle.std.specs.Prelude.{◌≡◌, ◌+◌, ◌<◌, ◌≤◌, [], IfSome, IfNone, length, option_map, if◌then◌else◌};
ghost use Rattle.std.specs.List.{remove};
ghost use Rattle.std.specs.Ordering.{int_eq};
ghost use Rattle.ec_axioms.specs.Marks.{last_mark_before};
ghost use Rattle.ec_rows.specs.Marks.{is_counted};
ghost use Rattle.ec_rows.specs.PlainMarks.{plain_mark, plain_marks};
ghost use Rattle.ec_points.specs.Changes.{is_new, with_change, without_mark};

use ec_moment::Moment;
use ec_rows::{Mark, MarkRow};

/// The last mark strictly before a time.
pub(crate) fn last_mark<T: Moment, M: MarkRow<T>>(row: &M, at: T) -> Option<Mark<T>>
    ensures { option_map (plain_mark T.rank) result ≡ last_mark_before (plain_marks T.rank (M.marks row.now)) (T.rank at) }
{
    let count = row.count_before(at, row.len());
    if count == 0 {
        None
    } else {
        Some(row.get(count - 1))
    }
}

/// Whether a mark is at a time.
pub(crate) fn is_at<T: Moment>(mark: Mark<T>, at: T) -> bool
    ensures { result ≡ int_eq (T.rank mark.at) (T.rank at) }
{
    mark.at.order(&at).is_eq()
}

/// Whether some count of a mark is not zero.
fn counts<T: Moment>(mark: Mark<T>) -> bool
    ensures { result ≡ is_counted mark }
{
    mark.inits > 0 || mark.terms > 0 || mark.clashes > 0
}

/// The place of the mark at a time, looked for near a place first. `None` where no mark is there.
fn find_at<T: Moment, M: MarkRow<T>>(row: &M, at: T, near: usize) -> Option<usize>
    ensures within { IfSome result (λ i. i < length (M.marks row.now)) }
    ensures found { IfSome result (λ i. remove (M.marks row.now) i ≡ without_mark T.rank (T.rank at) (M.marks row.now)) }
    ensures none { IfNone result (without_mark T.rank (T.rank at) (M.marks row.now) ≡ M.marks row.now) }
{
    let place = row.count_before(at, near);
    if place >= row.len() {
        return None;
    }
    if is_at(row.get(place), at) {
        Some(place)
    } else {
        None
    }
}

/// Takes out the mark at a time, looked for near a place first, if one is there.
fn take_out_at<T: Moment, M: MarkRow<T>>(row: &mut M, at: T, near: usize)
    ensures marks { M.marks row.new ≡ without_mark T.rank (T.rank at) (M.marks row.old) }
    ensures spare { M.spare row.old ≤ M.spare row.new }
{
    if let Some(place) = find_at(row, at, near) {
        let _ = row.take_out(place);
    }
}

/// Puts a mark in place of the one at its time, which is looked for near a place first; three zeros take that one
/// out.
pub(crate) fn change_row<T: Moment, M: MarkRow<T>>(row: &mut M, mark: Mark<T>, near: usize)
    requires room { (if is_new T.rank (M.marks row.old) mark then 1 else 0) ≤ M.spare row.old }
    ensures marks { M.marks row.new ≡ with_change T.rank mark (M.marks row.old) }
    ensures spare { M.spare row.old ≤ M.spare row.new + (if is_new T.rank (M.marks row.old) mark then 1 else 0) }
{
    if counts(mark) {
        row.put(mark);
    } else {
        take_out_at(row, mark.at, near);
    }
}

/// Takes out all marks, the last one first.
pub(crate) fn clear_row<T: Moment, M: MarkRow<T>>(row: &mut M)
    ensures marks { M.marks row.new ≡ [] }
    ensures spare { M.spare row.old ≤ M.spare row.new }
{
    for _ in 0..row.len() {
        let last = row.len() - 1;
        let _ = row.take_out(last);
    }
}
