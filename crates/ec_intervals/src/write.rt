//! The row of one property, written from its row of marks: the whole row, or the part that a change touches.
ghost use Rattle.std.specs.Prelude.{◌≡◌, ◌≢◌, ◌↔◌, ◌+◌, ◌-◌, ◌<◌, ◌≤◌, ◌≤ℤ◌, ◌∷◌, ◌++◌, [], Some, IsTrue, drop, length, map, take};
ghost use Rattle.std.specs.List.{splice};
ghost use Rattle.std.specs.Vec.{vec_capacity};
ghost use Rattle.ec_axioms.specs.Marks.{spans_of};
ghost use Rattle.ec_intervals.specs.OldMarks.{AreOfOldMarks};
ghost use Rattle.ec_intervals.specs.RowViews.{seen};
ghost use Rattle.ec_intervals.specs.Table.{front_members, members_in, plain_end, plain_intervals, plain_spans, span_interval};
ghost use Rattle.ec_rows.specs.Marks.{IsMarkRow};
ghost use Rattle.ec_rows.specs.PlainMarks.{plain_marks};

use crate::draft::Draft;
use crate::row::KeptRow;
use crate::steps::first_open;
use crate::window::draft_window;
use ec_moment::Moment;
use ec_rows::{End, MarkRow, Span, SpanRow};

/// Writes the intervals that a row of marks spells, in place of those that were there: one pass over the marks, and one
/// splice.
pub(crate) fn rebuild_row<T: Moment, I: SpanRow<T>, M: MarkRow<T>>(
    kept: &mut KeptRow<T, I>,
    draft: &mut Draft<T>,
    row: &M,
    strong: bool,
    initial: bool,
)
    requires room { length (spans_of (plain_marks T.rank (M.marks row.now)) strong initial) ≤ length (I.spans kept.old.spans) + I.spare kept.old.spans }
    requires buffer { length (M.marks row.now) < vec_capacity draft.old.spans }
    ensures row { IsMarkRow T.rank (M.marks row.now) }
    ensures intervals { plain_intervals T.rank (members_in (Some (seen I.spans I.spare kept.new))) ≡ spans_of (plain_marks T.rank (M.marks row.now)) strong initial }
    ensures room { I.spare kept.old.spans ≤ I.spare kept.new.spans + (length (I.spans kept.new.spans) - length (I.spans kept.old.spans)) }
    ensures buffer { vec_capacity draft.new.spans ≡ vec_capacity draft.old.spans }
{
    draft.start(first_open(initial));
    draft.read_row(row, 0, strong, None);
    draft.close(End::Unended);
    kept.front = draft.front;
    let len = kept.spans.len();
    kept.spans.splice(0, len, &draft.spans);
}

/// Whether two ends are the same.
fn is_same_end<T: Moment>(end: End<T>, other: End<T>) -> bool
    ensures { IsTrue result ↔ (plain_end T.rank end ≡ plain_end T.rank other) }
{
    match (end, other) {
        (End::At(t), End::At(u)) => t.order(&u).is_eq(),
        (End::Unended, End::Unended) => true,
        _ => false,
    }
}

/// Whether two fronts are the same, or both missing.
fn is_same_front<T: Moment>(front: Option<End<T>>, other: Option<End<T>>) -> bool
    ensures { IsTrue result ↔ (plain_intervals T.rank (front_members front) ≡ plain_intervals T.rank (front_members other)) }
{
    match (front, other) {
        (Some(end), Some(other)) => is_same_end(end, other),
        (None, None) => true,
        _ => false,
    }
}

/// Whether two spans are the same.
fn is_same_span<T: Moment>(span: Span<T>, other: Span<T>) -> bool
    ensures { IsTrue result ↔ (plain_spans T.rank (span ∷ []) ≡ plain_spans T.rank (other ∷ [])) }
{
    span.from.order(&other.from).is_eq() && is_same_end(span.end, other.end)
}

/// Whether the spans of a row from one place up to another are these.
fn has_spans<T: Moment, I: SpanRow<T>>(spans: &I, from: usize, to: usize, with: &[Span<T>]) -> bool
    requires ordered { from ≤ to }
    requires within { to ≤ length (I.spans spans.now) }
    ensures { IsTrue result ↔ (plain_spans T.rank (take (to - from) (drop from (I.spans spans.now))) ≡ plain_spans T.rank with.now) }
{
    if to - from != with.len() {
        return false;
    }
    for (i, span) in with.iter().enumerate() {
        if !is_same_span(spans.get(from + i), *span) {
            return false;
        }
    }
    true
}

/// Whether a draft in place of the spans from one place up to another leaves the intervals of a row as they are.
fn is_same<T: Moment, I: SpanRow<T>>(
    kept: &KeptRow<T, I>,
    draft: &Draft<T>,
    start: usize,
    end: usize,
) -> bool
    requires ordered { start ≤ end }
    requires within { end ≤ length (I.spans kept.now.spans) }
    ensures { IsTrue result ↔ (plain_intervals T.rank (members_in (Some (seen I.spans I.spare kept.now))) ≡ plain_intervals T.rank (front_members draft.now.front ++ map span_interval (splice (I.spans kept.now.spans) start end draft.now.spans.items))) }
{
    if !is_same_front(kept.front, draft.front) {
        return false;
    }
    has_spans(&kept.spans, start, end, &draft.spans)
}

/// Writes what a changed row of marks spells between two times, outside which its marks are those of the intervals that
/// are there. Tells whether the intervals differ; where they do not, nothing is written.
pub(crate) fn splice_row<T: Moment, I: SpanRow<T>, M: MarkRow<T>>(
    kept: &mut KeptRow<T, I>,
    draft: &mut Draft<T>,
    row: &M,
    strong: bool,
    initial: bool,
    from: T,
    until: T,
) -> bool
    requires ordered { T.rank from ≤ℤ T.rank until }
    requires old { AreOfOldMarks T.rank (T.rank from) (T.rank until) strong initial (M.marks row.now) (plain_intervals T.rank (members_in (Some (seen I.spans I.spare kept.old)))) }
    requires room { length (spans_of (plain_marks T.rank (M.marks row.now)) strong initial) ≤ length (I.spans kept.old.spans) + I.spare kept.old.spans }
    requires buffer { length (M.marks row.now) < vec_capacity draft.old.spans }
    ensures row { IsMarkRow T.rank (M.marks row.now) }
    ensures intervals { plain_intervals T.rank (members_in (Some (seen I.spans I.spare kept.new))) ≡ spans_of (plain_marks T.rank (M.marks row.now)) strong initial }
    ensures differs { IsTrue result ↔ (plain_intervals T.rank (members_in (Some (seen I.spans I.spare kept.old))) ≢ plain_intervals T.rank (members_in (Some (seen I.spans I.spare kept.new)))) }
    ensures room { I.spare kept.old.spans ≤ I.spare kept.new.spans + (length (I.spans kept.new.spans) - length (I.spans kept.old.spans)) }
    ensures buffer { vec_capacity draft.new.spans ≡ vec_capacity draft.old.spans }
{
    let (start, end) = draft_window(kept, draft, row, strong, initial, from, until);
    if is_same(kept, draft, start, end) {
        return false;
    }
    kept.front = draft.front;
    kept.spans.splice(start, end, &draft.spans);
    true
}
