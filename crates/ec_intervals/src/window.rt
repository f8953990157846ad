//! The part of a row of intervals that a change of its marks touches: where it begins and ends, and what is open there.
ghost use Rattle.std.specs.Prelude.{◌≡◌, ◌↔◌, ◌+◌, ◌-◌, ◌<◌, ◌≤◌, ◌≤ℤ◌, ◌++◌, ℤ, Bool, [], false, not, int_le, None, Some, IsTrue, is_some, length, map, option_map, take, drop, vec_len};
ghost use Rattle.std.specs.List.{last_or, list_all, list_any, splice};
ghost use Rattle.std.specs.Option.{option_map_or, option_to_list};
ghost use Rattle.std.specs.Vec.{vec_capacity};
ghost use Rattle.ec_axioms.specs.Marks.{spans_of};
ghost use Rattle.ec_axioms.specs.Timeline.{before_all};
ghost use Rattle.ec_intervals.specs.Drafts.{IsFresh, drafted};
ghost use Rattle.ec_intervals.specs.OldMarks.{AreOfOldMarks};
ghost use Rattle.ec_intervals.specs.RowViews.{seen};
ghost use Rattle.ec_intervals.specs.Steps.{end_behind, ends_before, first_open, lasting, open_through, spelt_through};
ghost use Rattle.ec_intervals.specs.Table.{front_members, members_in, plain_begin, plain_end, plain_intervals, plain_spans, span_interval, spans_up_to};
ghost use Rattle.ec_rows.specs.Marks.{IsMarkRow, marks_before};
ghost use Rattle.ec_rows.specs.PlainMarks.{plain_marks};

use crate::draft::Draft;
use crate::interval::Begin;
use crate::row::KeptRow;
use crate::steps::breaks;
use ec_moment::Moment;
use ec_rows::{End, MarkRow, SpanRow};

/// Whether a begin is open behind the first `count` marks of a row: the last of them initiates, or there is none and the
/// property is initial.
pub(crate) fn is_open_behind<T: Moment, M: MarkRow<T>>(
    row: &M,
    count: usize,
    strong: bool,
    initial: bool,
) -> bool
    requires { count ≤ length (M.marks row.now) }
    ensures { result ≡ is_some (open_through strong (first_open initial) (take count (plain_marks T.rank (M.marks row.now)))) }
{
    if count == 0 {
        return initial;
    }
    row.get(count - 1).inits > 0
}

/// The begin that is open behind the first `count` marks of a row, found by walking back: over marks that initiate while
/// a begin is open already.
fn find_open<T: Moment, M: MarkRow<T>>(
    row: &M,
    count: usize,
    strong: bool,
    initial: bool,
) -> Option<Begin<T>>
    requires { count ≤ length (M.marks row.now) }
    ensures { option_map (plain_begin T.rank) result ≡ open_through strong (first_open initial) (take count (plain_marks T.rank (M.marks row.now))) }
{
    if !is_open_behind(row, count, strong, initial) {
        return None;
    }
    let mut i = count;
    while i > 0 {
        let mark = row.get(i - 1);
        if breaks(mark, strong) || !is_open_behind(row, i - 1, strong, initial) {
            return Some(Begin::At(mark.at));
        }
        i -= 1;
    }
    Some(Begin::Initial)
}

/// Whether there is a front that does not end before a time.
fn front_reaches<T: Moment>(front: Option<End<T>>, at: T) -> bool
    ensures { result ≡ list_any (λ interval. not (ends_before (T.rank at) interval)) (plain_intervals T.rank (front_members front)) }
{
    match front {
        Some(End::At(end)) => at.order(&end).is_le(),
        Some(End::Unended) => true,
        None => false,
    }
}

/// How many spans end before a time, and which begin is open just before it.
fn find_start<T: Moment, I: SpanRow<T>, M: MarkRow<T>>(
    kept: &KeptRow<T, I>,
    row: &M,
    from: T,
    strong: bool,
    initial: bool,
) -> (usize, Option<Begin<T>>)
    requires { (until : ℤ) × AreOfOldMarks T.rank (T.rank from) until strong initial (M.marks row.now) (plain_intervals T.rank (members_in (Some (seen I.spans I.spare kept.now)))) }
    ensures within { result.0 ≤ length (I.spans kept.now.spans) }
    ensures ended { IsTrue (list_all (ends_before (T.rank from)) (take result.0 (plain_spans T.rank (I.spans kept.now.spans)))) }
    ensures lasting { IsTrue (list_all (λ interval. not (ends_before (T.rank from) interval)) (drop result.0 (plain_spans T.rank (I.spans kept.now.spans)))) }
    ensures opened { option_map (plain_begin T.rank) result.1 ≡ open_through strong (first_open initial) (plain_marks T.rank (marks_before T.rank (T.rank from) (M.marks row.now))) }
{
    if let Some(place) = kept.spans.covering(from) {
        let begin = Begin::At(kept.spans.get(place).from);
        return (place, Some(begin));
    }
    let place = kept.spans.count_before(from);
    if front_reaches(kept.front, from) {
        return (place, Some(Begin::Initial));
    }
    let count = row.count_before(from, 0);
    (place, find_open(row, count, strong, initial))
}

/// How many spans start up to a time and at it.
pub(crate) fn count_up_to<T: Moment, I: SpanRow<T>>(spans: &I, at: T) -> usize
    ensures count { result ≡ length (spans_up_to T.rank (T.rank at) (I.spans spans.now)) }
    ensures within { result ≤ length (I.spans spans.now) }
{
    let count = spans.count_before(at);
    if count == spans.len() {
        return count;
    }
    if spans.get(count).from.order(&at).is_eq() {
        count + 1
    } else {
        count
    }
}

/// Whether an end goes on behind a time.
fn goes_behind<T: Moment>(end: End<T>, at: T) -> bool
    ensures { result ≡ not (option_map_or (λ x. int_le x (T.rank at)) (plain_end T.rank end) false) }
{
    match end {
        End::At(end) => at.order(&end).is_lt(),
        End::Unended => true,
    }
}

/// The end of the last of the front and the first `count` spans.
fn last_end<T: Moment, I: SpanRow<T>>(kept: &KeptRow<T, I>, count: usize) -> Option<End<T>>
    requires { count ≤ length (I.spans kept.now.spans) }
    ensures { option_map (plain_end T.rank) result ≡ option_map (λ interval. interval.until) (last_or None (plain_intervals T.rank (front_members kept.now.front ++ map span_interval (take count (I.spans kept.now.spans))))) }
{
    if count == 0 {
        return kept.front;
    }
    Some(kept.spans.get(count - 1).end)
}

/// The end of the last of the front and the first `count` spans, if it goes on behind a time.
fn end_behind<T: Moment, I: SpanRow<T>>(kept: &KeptRow<T, I>, count: usize, at: T) -> Option<End<T>>
    requires { count ≤ length (I.spans kept.now.spans) }
    ensures { option_map (plain_end T.rank) result ≡ end_behind (T.rank at) (plain_intervals T.rank (front_members kept.now.front ++ map span_interval (take count (I.spans kept.now.spans)))) }
{
    let end = last_end(kept, count)?;
    if goes_behind(end, at) {
        Some(end)
    } else {
        None
    }
}

/// Gives the begin that is open behind a time the end of the interval that is there already, and the number of spans that
/// start up to this time.
fn close_behind<T: Moment, I: SpanRow<T>>(
    kept: &KeptRow<T, I>,
    draft: &mut Draft<T>,
    at: T,
) -> usize
    requires fresh { IsFresh draft.old }
    requires room { vec_len draft.old.spans < vec_capacity draft.old.spans }
    ensures count { result ≡ length (spans_up_to T.rank (T.rank at) (I.spans kept.now.spans)) }
    ensures within { result ≤ length (I.spans kept.now.spans) }
    ensures intervals { plain_intervals T.rank (drafted draft.new) ≡ plain_intervals T.rank (drafted draft.old) ++ option_to_list (lasting (end_behind (T.rank at) (plain_intervals T.rank (front_members kept.now.front ++ map span_interval (take result (I.spans kept.now.spans))))) (option_map (plain_begin T.rank) draft.old.begun)) }
    ensures len { vec_len draft.new.spans ≤ vec_len draft.old.spans + 1 }
    ensures capacity { vec_capacity draft.new.spans ≡ vec_capacity draft.old.spans }
{
    let count = count_up_to(&kept.spans, at);
    if let Some(end) = end_behind(kept, count, at) {
        draft.close(end);
    }
    count
}

/// Drafts what the marks from a place on spell, up to the first mark behind a time: from there on the spans are right
/// already. Gives the place of the first of these.
fn draft_rest<T: Moment, I: SpanRow<T>, M: MarkRow<T>>(
    kept: &KeptRow<T, I>,
    draft: &mut Draft<T>,
    row: &M,
    first: usize,
    strong: bool,
    until: T,
) -> usize
    requires old { (from : ℤ) × (initial : Bool) × (from ≤ℤ T.rank until) × (first ≡ length (marks_before T.rank from (M.marks row.now))) × (option_map (plain_begin T.rank) draft.old.begun ≡ open_through strong (first_open initial) (plain_marks T.rank (marks_before T.rank from (M.marks row.now)))) × AreOfOldMarks T.rank from (T.rank until) strong initial (M.marks row.now) (plain_intervals T.rank (members_in (Some (seen I.spans I.spare kept.now)))) }
    requires row { IsMarkRow T.rank (M.marks row.now) }
    requires empty { drafted draft.old ≡ [] }
    requires none { vec_len draft.old.spans ≡ 0 }
    requires room { length (M.marks row.now) < vec_capacity draft.old.spans }
    ensures spelt { plain_intervals T.rank (drafted draft.new) ++ drop result (plain_spans T.rank (I.spans kept.now.spans)) ≡ spelt_through strong (option_map (plain_begin T.rank) draft.old.begun) (drop first (plain_marks T.rank (M.marks row.now))) }
    ensures starts { (option_map (plain_begin T.rank) draft.old.begun ≡ Some before_all → ⊥) → draft.new.front ≡ None }
    ensures within { result ≤ length (I.spans kept.now.spans) }
    ensures later { length (spans_up_to T.rank (T.rank until) (I.spans kept.now.spans)) ≤ result }
    ensures capacity { vec_capacity draft.new.spans ≡ vec_capacity draft.old.spans }
{
    match draft.read_row(row, first, strong, Some(until)) {
        Some(at) => close_behind(kept, draft, at),
        None => {
            draft.close(End::Unended);
            kept.spans.len()
        }
    }
}

/// Whether the begin before all events is open.
fn is_initial<T: Moment>(begun: Option<Begin<T>>) -> bool
    ensures { IsTrue result ↔ (option_map (plain_begin T.rank) begun ≡ Some before_all) }
{
    match begun {
        Some(Begin::Initial) => true,
        _ => false,
    }
}

/// Drafts what a row of marks spells between two times, outside which the marks are those of the intervals that are
/// there. Gives the places of the spans that the draft stands for.
pub(crate) fn draft_window<T: Moment, I: SpanRow<T>, M: MarkRow<T>>(
    kept: &KeptRow<T, I>,
    draft: &mut Draft<T>,
    row: &M,
    strong: bool,
    initial: bool,
    from: T,
    until: T,
) -> (usize, usize)
    requires ordered { T.rank from ≤ℤ T.rank until }
    requires old { AreOfOldMarks T.rank (T.rank from) (T.rank until) strong initial (M.marks row.now) (plain_intervals T.rank (members_in (Some (seen I.spans I.spare kept.now)))) }
    requires room { length (M.marks row.now) < vec_capacity draft.old.spans }
    ensures ordered { result.0 ≤ result.1 }
    ensures within { result.1 ≤ length (I.spans kept.now.spans) }
    ensures row { IsMarkRow T.rank (M.marks row.now) }
    ensures intervals { plain_intervals T.rank (front_members draft.new.front ++ map span_interval (splice (I.spans kept.now.spans) result.0 result.1 draft.new.spans.items)) ≡ spans_of (plain_marks T.rank (M.marks row.now)) strong initial }
    ensures capacity { vec_capacity draft.new.spans ≡ vec_capacity draft.old.spans }
{
    let (start, begun) = find_start(kept, row, from, strong, initial);
    let first = row.count_before(from, 0);
    draft.start(begun);
    let end = draft_rest(kept, draft, row, first, strong, until);
    if is_initial(begun) {
        return (start, end);
    }
    draft.front = kept.front;
    (start, end)
}
