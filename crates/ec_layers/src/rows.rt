//! What no clause shows: that memory is given, and the answers at worked rows, through each bound.
ghost use Rattle.std.specs.Prelude.{◌+◌, ◌≤◌};

use crate::block_spans::{spans_of, splice_row};
use crate::block_times::{is_same, turn};
use crate::intervals::{end, row_of_marks, time_of};
use crate::plain::three;
use crate::tables::row_of;
use crate::terms::name;
use ec_moment::Tick;
use ec_rows::{Mark, MarkRow, Span, SpanRow, TimeRow, VecMarks, VecSpans, VecTimes};
use ec_terms::{Name, Slot};
use std::alloc::Global;
use std::process::Abort;

/// The time that is spelt.
fn tick_of(rt: &impl Abort, spelt: &str) -> Tick {
    Tick(time_of(spelt).expect(rt, spelt))
}

/// A place that is spelt; `none` is none.
fn place_of(spelt: &str) -> Option<usize> {
    spelt.parse::<usize>().ok()
}

/// Rows of marks, each spelt as its time and its counts of starts, ends and clashes; a time; and the places of the last mark before
/// it and the next one after it.
const SEARCHES: &str = "
5:1,0,0 9:1,0,0 at 5 => none 1
5:1,0,0 9:1,0,0 at 6 => 0 1
5:1,0,0 9:1,0,0 at 9 => 0 none
9:1,0,0 5:1,0,0 at 10 => 1 none
9:1,0,0 5:1,0,0 at 4 => none 0
 at 0 => none none
7:1,0,0 at 6 => none 0
7:1,0,0 at 7 => none none
7:1,0,0 at 8 => 0 none
9223372036854775807:1,0,0 -9223372036854775808:1,0,0 at -9223372036854775808 => none 1
9223372036854775807:1,0,0 -9223372036854775808:1,0,0 at 0 => 0 1
9223372036854775807:1,0,0 -9223372036854775808:1,0,0 at 9223372036854775807 => 0 none
";

/// Whether the last mark before a time and the next one after it stand at these places.
fn stand_at<M: MarkRow<Tick>>(row: &M, at: Tick, last: &str, next: &str) -> bool {
    row.last_before(at) == place_of(last) && row.next_after(at) == place_of(next)
}

/// Whether a search in a row of marks finds what stands behind it.
fn is_found<M: MarkRow<Tick>>(rt: &impl Abort, alloc: Global, search: &str, wanted: &str) -> bool {
    let (marks, at) = search.split_once("at ").expect(rt, search);
    let (last, next) = wanted.split_once(' ').expect(rt, wanted);
    let row: M = row_of_marks(rt, alloc, marks);
    row.len() == marks.split_whitespace().count() && stand_at(&row, tick_of(rt, at), last, next)
}

/// Whether the marks of a row are at these times.
fn has_times<M: MarkRow<Tick>>(row: &M, times: &[i64]) -> bool {
    if row.len() != times.len() {
        return false;
    }
    for i in 0..row.len() {
        if row.get(i).at != Tick(times[i]) {
            return false;
        }
    }
    true
}

/// Puts a mark where there is room for one.
fn put_within<M: MarkRow<Tick>>(row: &mut M, time: i64)
    requires { 1 ≤ M.spare row.old }
    ensures { M.spare row.old ≤ M.spare row.new + 1 }
{
    row.put(Mark {
        at: Tick(time),
        inits: 0,
        terms: 0,
        clashes: 3,
    });
}

/// Puts three marks, for which room is made at once.
fn put_three<M: MarkRow<Tick>>(rt: &impl Abort, row: &mut M) {
    row.reserve(3).expect(rt, "memory");
    put_within(row, 5);
    put_within(row, 15);
    put_within(row, 25);
}

/// A mark with two ends.
const ENDED: Mark<Tick> = Mark {
    at: Tick(20),
    inits: 0,
    terms: 2,
    clashes: 0,
};

/// Puts the mark with two ends.
fn put_ended<M: MarkRow<Tick>>(rt: &impl Abort, row: &mut M) {
    row.reserve(1).expect(rt, "memory");
    row.put(ENDED);
}

/// Whether the mark at a place is the one with two ends, as it stands there and as it is taken out.
fn takes_ended<M: MarkRow<Tick>>(row: &mut M, place: usize) -> bool {
    place < row.len() && row.get(place) == ENDED && row.take_out(place) == ENDED
}

/// Whether the marks of a row with marks at 10 and 20 change as they are put and taken out.
fn edits_marks<M: MarkRow<Tick>>(rt: &impl Abort, row: &mut M) -> bool {
    put_three(rt, row);
    let put = has_times(row, &[5, 10, 15, 20, 25]);
    put_ended(rt, row);
    put && has_times(row, &[5, 10, 15, 20, 25])
        && takes_ended(row, 3)
        && has_times(row, &[5, 10, 15, 25])
}

/// Sees that searches in rows of marks find their places, and that the marks of a row are edited.
fn check_marks<M: MarkRow<Tick>>(rt: &impl Abort, alloc: Global) {
    for line in SEARCHES.lines() {
        if let Some((search, wanted)) = row_of(line) {
            assert!(rt; is_found::<M>(rt, alloc, search, wanted), "{line}");
        }
    }
    let mut row: M = row_of_marks(rt, alloc, "10:1,0,0 20:1,0,0");
    assert!(rt; edits_marks(rt, &mut row));
}

#[test]
fn a_row_of_marks_answers_through_its_bound(rt: HostRuntime) {
    check_marks::<VecMarks<Tick>>(&rt, rt.alloc());
}

/// The span that is spelt as `5..10` or `5..inf`.
fn span_of(rt: &impl Abort, spelt: &str) -> Span<Tick> {
    let (from, until) = spelt.split_once("..").expect(rt, spelt);
    Span {
        from: tick_of(rt, from),
        end: end(time_of(until)),
    }
}

/// The spans that are spelt as `1..5 5..inf`.
fn spelt_spans(rt: &impl Abort, alloc: Global, spelt: &str) -> Vec<Span<Tick>> {
    let mut spans = Vec::new(alloc);
    for spelt in spelt.split_whitespace() {
        spans.push(span_of(rt, spelt)).expect(rt, "memory");
    }
    spans
}

/// Rows of spans, a time, and the place of the span that covers it.
const COVERED: &str = "
 at 0 => none
-9223372036854775808..9223372036854775807 at -9223372036854775808 => none
-9223372036854775808..9223372036854775807 at 0 => 0
-9223372036854775808..9223372036854775807 at 9223372036854775807 => 0
5..10 10..inf at 5 => none
5..10 10..inf at 10 => 0
5..10 10..inf at 11 => 1
5..10 10..inf at 9223372036854775807 => 1
";

/// Whether the span of a row that covers a time stands at this place.
fn is_covered<S: SpanRow<Tick>>(rt: &impl Abort, alloc: Global, search: &str, place: &str) -> bool {
    let (spans, at) = search.split_once("at ").expect(rt, search);
    let spans = spelt_spans(rt, alloc, spans);
    let mut row = S::new(alloc).expect(rt, "memory");
    splice_row(rt, alloc, &mut row, 0, 0, &spans)
        && row.covering(tick_of(rt, at)) == place_of(place)
}

/// Spans that are put in a row in place of those from one place up to another, and what the row then has.
const SPLICES: &str = "
0 0 5..10 30..40 => 5..10 30..40
1 1 10..20 => 5..10 10..20 30..40
0 0 1..5 => 1..5 5..10 10..20 30..40
4 4 40..inf => 1..5 5..10 10..20 30..40 40..inf
1 4 10..20 => 1..5 10..20 40..inf
";

/// Whether a row has the spans that are spelt.
fn has_spans<S: SpanRow<Tick>>(rt: &impl Abort, alloc: Global, row: &S, wanted: &str) -> bool {
    let spans = spans_of(alloc, row).expect(rt, "memory");
    spans.as_slice() == spelt_spans(rt, alloc, wanted).as_slice()
}

/// Whether spans that are spelt as `1 4 5..10` can be put in their place in a row.
fn can_splice<S: SpanRow<Tick>>(rt: &impl Abort, alloc: Global, row: &mut S, spelt: &str) -> bool {
    let (from, rest) = spelt.split_once(' ').expect(rt, spelt);
    let (to, spans) = rest.split_once(' ').expect(rt, spelt);
    let from = place_of(from).expect(rt, spelt);
    let to = place_of(to).expect(rt, spelt);
    splice_row(rt, alloc, row, from, to, &spelt_spans(rt, alloc, spans))
}

/// Sees that the times of a table are covered as it tells.
fn check_covered<S: SpanRow<Tick>>(rt: &impl Abort, alloc: Global) {
    for line in COVERED.lines() {
        if let Some((search, place)) = row_of(line) {
            assert!(rt; is_covered::<S>(rt, alloc, search, place), "{line}");
        }
    }
}

/// Whether a row that has no spans has the wanted ones after each splice.
fn splices<S: SpanRow<Tick>>(rt: &impl Abort, alloc: Global, row: &mut S) -> bool {
    for line in SPLICES.lines() {
        if let Some((spelt, wanted)) = row_of(line) {
            if !can_splice(rt, alloc, row, spelt) || !has_spans(rt, alloc, row, wanted) {
                return false;
            }
        }
    }
    true
}

/// Sees that a row of spans finds what covers a time, and is spliced.
fn check_spans<S: SpanRow<Tick>>(rt: &impl Abort, alloc: Global) {
    check_covered::<S>(rt, alloc);
    let mut row = S::new(alloc).expect(rt, "memory");
    assert!(rt; splices(rt, alloc, &mut row));
}

#[test]
fn a_row_of_spans_answers_through_its_bound(rt: HostRuntime) {
    check_spans::<VecSpans<Tick>>(&rt, rt.alloc());
}

/// The entry that is spelt by its identity, its time and its slot.
fn entry_of(rt: &impl Abort, spelt: &str) -> (Tick, Name, Slot) {
    let (id, at, slot) = three(rt, spelt);
    let slot = place_of(slot).expect(rt, spelt);
    (at, name(rt, id.as_bytes()), Slot(slot))
}

/// Entries that are put in a row of times, and what the row then has.
const ENTRIES: &str = "
q 10 7 => q 10 7
q -9223372036854775808 0 => q -9223372036854775808 0, q 10 7
p 9223372036854775807 1 => q -9223372036854775808 0, q 10 7, p 9223372036854775807 1
p 10 2 => q -9223372036854775808 0, p 10 2, q 10 7, p 9223372036854775807 1
";

/// An entry that is taken out of them, and what the row then has.
const TAKEN: &str = "p 10 2 => q -9223372036854775808 0, q 10 7, p 9223372036854775807 1";

/// Whether a row has the entries that are spelt.
fn has_entries<X: TimeRow<Tick>>(rt: &impl Abort, row: &X, wanted: &str) -> bool {
    for (i, spelt) in wanted.split(", ").enumerate() {
        if row.len() <= i || !is_same(&row.get(i), &entry_of(rt, spelt)) {
            return false;
        }
    }
    row.len() == wanted.split(", ").count()
}

/// Whether an entry is put in a row, or taken out, with its own slot.
fn is_turned<X: TimeRow<Tick>>(rt: &impl Abort, row: &mut X, spelt: &str) -> bool {
    let (at, id, slot) = entry_of(rt, spelt);
    turn(rt, row, at, &id, slot) == slot
}

/// Whether the entries of a table are put in a row or taken out, and the row has the wanted ones after each.
fn are_turned<X: TimeRow<Tick>>(rt: &impl Abort, row: &mut X, table: &str) -> bool {
    for line in table.lines() {
        if let Some((spelt, wanted)) = row_of(line) {
            if !is_turned(rt, row, spelt) || !has_entries(rt, row, wanted) {
                return false;
            }
        }
    }
    true
}

/// Whether the first entries from some times on stand at their places.
fn has_firsts<X: TimeRow<Tick>>(row: &X) -> bool {
    for (at, place) in [(i64::MIN, 0), (10, 1), (11, 3), (i64::MAX, 3)] {
        if row.first_at(Tick(at)) != place {
            return false;
        }
    }
    true
}

/// Whether a row that has no entries orders those that it is given.
fn orders_times<X: TimeRow<Tick>>(rt: &impl Abort, row: &mut X) -> bool {
    row.first_at(Tick(0)) == 0
        && are_turned(rt, row, ENTRIES)
        && has_firsts(row)
        && are_turned(rt, row, TAKEN)
}

#[test]
fn a_row_of_times_answers_through_its_bound(rt: HostRuntime) {
    let mut row = VecTimes::new(rt.alloc()).expect(&rt, "memory");
    assert!(rt; orders_times(&rt, &mut row));
}
