//! The intervals and the broken begins of worked rows of marks, and that a mended row is the one rebuilt.
ghost use Rattle.std.specs.Prelude.{◌≡◌, ◌+◌, ◌<◌, ◌≤◌, IsTrue, length};
ghost use Rattle.ec_axioms.specs.Marks.{spans_of};
ghost use Rattle.ec_intervals.specs.Table.{IsGrown, has_row, members_at, plain_intervals, room_at, row_at};
ghost use Rattle.ec_rows.specs.Marks.{IsMarkRow, is_counted, with_mark};
ghost use Rattle.ec_rows.specs.PlainMarks.{plain_marks};

use crate::tables::row_of;
use crate::tally::TallySpans;
use ec_intervals::{Begin, Interval, Intervals, broken_after};
use ec_moment::{Moment, Tick};
use ec_rows::{End, Mark, MarkRow, SpanRow, VecMarks, VecSpans};
use ec_terms::PropId;
use std::alloc::Global;
use std::process::Abort;

/// The property that the marks are of.
const P: PropId = PropId(3);

/// Another property, of which nothing changes.
const Q: PropId = PropId(1);

/// What can be at one time: nothing, a start, an end, both, a clash, a start with a clash.
const KINDS: [(u32, u32, u32); 6] = [
    (0, 0, 0),
    (1, 0, 0),
    (0, 1, 0),
    (1, 1, 0),
    (0, 0, 1),
    (1, 0, 1),
];

/// A mark with its three counts.
fn mark(at: i64, inits: u32, terms: u32, clashes: u32) -> Mark<Tick>
    ensures { (result.inits ≡ inits) × (result.terms ≡ terms) × (result.clashes ≡ clashes) }
{
    Mark {
        at: Tick(at),
        inits,
        terms,
        clashes,
    }
}

/// A mark of a kind.
fn mark_of_kind(at: i64, kind: usize) -> Mark<Tick> {
    let (inits, terms, clashes) = KINDS[kind % 6];
    mark(at, inits, terms, clashes)
}

/// Whether some count of a mark is not zero.
fn is_counted<T: Moment>(mark: Mark<T>) -> bool
    ensures { result ≡ is_counted mark }
{
    mark.inits > 0 || mark.terms > 0 || mark.clashes > 0
}

/// Puts a mark into a row.
fn put<T: Moment, M: MarkRow<T>>(rt: &impl Abort, row: &mut M, mark: Mark<T>)
    requires { IsTrue (is_counted mark) }
    ensures { M.marks row.new ≡ with_mark T.rank mark (M.marks row.old) }
{
    row.reserve(1).expect(rt, "memory");
    row.put(mark);
}

/// Puts a mark with a count into a row.
fn put_counted<M: MarkRow<Tick>>(rt: &impl Abort, row: &mut M, mark: Mark<Tick>) {
    if is_counted(mark) {
        put(rt, row, mark);
    }
}

/// Makes room for the intervals that a short row of marks spells.
fn prepare<T: Moment, I: SpanRow<T>, M: MarkRow<T>>(
    rt: &impl Abort,
    intervals: &mut Intervals<T, I>,
    p: PropId,
    row: &M,
)
    ensures room { length (M.marks row.now) + 1 ≤ room_at p.0 intervals.new }
    ensures buffer { length (M.marks row.now) < intervals.new.buffer }
    ensures there { IsTrue (has_row p.0 intervals.new) }
    ensures grown { IsGrown (row_at p.0 intervals.old) (row_at p.0 intervals.new) }
    ensures row { IsMarkRow T.rank (M.marks row.now) }
{
    let marks = row.len();
    assert!(rt; marks < 1000);
    let ready = intervals.prepare(p, marks + 1, marks);
    ready.expect(rt, "memory");
}

/// Rebuilds the intervals of a property from a short row of marks.
fn rebuild<T: Moment, I: SpanRow<T>, M: MarkRow<T>>(
    rt: &impl Abort,
    intervals: &mut Intervals<T, I>,
    p: PropId,
    row: &M,
    strong: bool,
    initial: bool,
)
    ensures spelt { plain_intervals T.rank (members_at p.0 intervals.new) ≡ spans_of (plain_marks T.rank (M.marks row.now)) strong initial }
    ensures there { IsTrue (has_row p.0 intervals.new) }
    ensures row { IsMarkRow T.rank (M.marks row.now) }
{
    prepare(rt, intervals, p, row);
    intervals.rebuild(p, row, strong, initial);
}

/// Puts a mark into a short row, and mends the intervals that it spelt.
fn mend<T: Moment, I: SpanRow<T>, M: MarkRow<T>>(
    rt: &impl Abort,
    intervals: &mut Intervals<T, I>,
    row: &mut M,
    strong: bool,
    initial: bool,
    mark: Mark<T>,
)
    requires spelt { plain_intervals T.rank (members_at P.0 intervals.old) ≡ spans_of (plain_marks T.rank (M.marks row.old)) strong initial }
    requires there { IsTrue (has_row P.0 intervals.old) }
    requires row { IsMarkRow T.rank (M.marks row.old) }
    requires counted { IsTrue (is_counted mark) }
    ensures spelt { plain_intervals T.rank (members_at P.0 intervals.new) ≡ spans_of (plain_marks T.rank (M.marks row.new)) strong initial }
    ensures there { IsTrue (has_row P.0 intervals.new) }
    ensures row { IsMarkRow T.rank (M.marks row.new) }
{
    put(rt, row, mark);
    prepare(rt, intervals, P, row);
    intervals.splice_from(P, row, strong, initial, mark.at, mark.at);
}

/// A begin or an end that is spelt: `inf` is none.
pub fn time_of(spelt: &str) -> Option<i64> {
    spelt.parse::<i64>().ok()
}

/// A count that is spelt.
fn count_of(rt: &impl Abort, spelt: &str) -> u32 {
    spelt.parse::<u32>().expect(rt, "a count")
}

/// The mark that is spelt as `10:1,0,0`.
fn mark_of(rt: &impl Abort, spelt: &str) -> Mark<Tick> {
    let (at, counts) = spelt.split_once(':').expect(rt, "a mark");
    let (inits, counts) = counts.split_once(',').expect(rt, "a count");
    let (terms, clashes) = counts.split_once(',').expect(rt, "a count");
    Mark {
        at: Tick(time_of(at).expect(rt, "a time")),
        inits: count_of(rt, inits),
        terms: count_of(rt, terms),
        clashes: count_of(rt, clashes),
    }
}

/// The row of the marks that are spelt as `10:1,0,0 20:0,1,0`.
pub fn row_of_marks<M: MarkRow<Tick>>(rt: &impl Abort, alloc: Global, spelt: &str) -> M {
    let mut row = M::new(alloc).expect(rt, "memory");
    for mark in spelt.split_whitespace() {
        put_counted(rt, &mut row, mark_of(rt, mark));
    }
    row
}

/// A begin: before all events, or at a time.
fn begin(at: Option<i64>) -> Begin<Tick> {
    match at {
        Some(at) => Begin::At(Tick(at)),
        None => Begin::Initial,
    }
}

/// An end: at a time, or none.
pub fn end(at: Option<i64>) -> End<Tick> {
    match at {
        Some(at) => End::At(Tick(at)),
        None => End::Unended,
    }
}

/// The interval that is spelt as `5..10`.
fn interval_of(rt: &impl Abort, spelt: &str) -> Interval<Tick> {
    let (from, until) = spelt.split_once("..").expect(rt, "an interval");
    Interval {
        from: begin(time_of(from)),
        end: end(time_of(until)),
    }
}

/// No intervals, in a box. What holds a box is proved at less cost than what holds its value.
fn no_intervals<I: SpanRow<Tick>>(rt: &impl Abort, alloc: Global) -> Box<Intervals<Tick, I>> {
    Box::new(alloc, Intervals::new(alloc)).expect(rt, "memory")
}

/// The intervals that are spelt as `5..10 20..inf`.
fn intervals_of(rt: &impl Abort, alloc: Global, spelt: &str) -> Vec<Interval<Tick>> {
    let mut intervals = Vec::new(alloc);
    for spelt in spelt.split_whitespace() {
        intervals.push(interval_of(rt, spelt)).expect(rt, "memory");
    }
    intervals
}

/// The begin in front of a place, if there is one.
fn begin_before(wanted: &[Interval<Tick>], i: usize) -> Option<Begin<Tick>> {
    if i == 0 || wanted.len() < i {
        return None;
    }
    Some(wanted[i - 1].from)
}

/// Whether a begin is before all events, or the last begin of a property before it is this one.
fn is_behind<I: SpanRow<Tick>>(
    intervals: &Intervals<Tick, I>,
    from: Begin<Tick>,
    last: Option<Begin<Tick>>,
) -> bool {
    match from {
        Begin::At(at) => intervals.last_begin_before(P, at) == last,
        Begin::Initial => true,
    }
}

/// Whether a property has an interval at a place, the last begin before which is this one.
fn stands_at<I: SpanRow<Tick>>(
    intervals: &Intervals<Tick, I>,
    i: usize,
    wanted: Interval<Tick>,
    last: Option<Begin<Tick>>,
) -> bool {
    i < intervals.len(P)
        && intervals.member(P, i) == wanted
        && is_behind(intervals, wanted.from, last)
}

/// Whether a property has these intervals, and whether the last begin before each of them, and before a later time, is the one in
/// front of it.
fn has_members<I: SpanRow<Tick>>(
    intervals: &Intervals<Tick, I>,
    wanted: &[Interval<Tick>],
) -> bool {
    for i in 0..wanted.len() {
        if !stands_at(intervals, i, wanted[i], begin_before(wanted, i)) {
            return false;
        }
    }
    wanted.len() == intervals.len(P)
        && intervals.last_begin_before(P, Tick(100)) == begin_before(wanted, wanted.len())
}

/// A broken begin, with its break as its end.
fn broken_interval(found: Option<(Begin<Tick>, Tick)>) -> Option<Interval<Tick>> {
    match found {
        Some((from, at)) => Some(Interval {
            from,
            end: End::At(at),
        }),
        None => None,
    }
}

/// Whether the next broken begin of a row behind a begin is this one, or none.
fn is_next_broken<M: MarkRow<Tick>>(
    row: &M,
    kind: &str,
    after: Option<Begin<Tick>>,
    wanted: Option<Interval<Tick>>,
) -> bool {
    let found = broken_after(row, kind == "strong", kind == "initial", after);
    broken_interval(found) == wanted
}

/// Whether the broken begins of a row are these, one after the other.
fn has_broken<M: MarkRow<Tick>>(row: &M, kind: &str, wanted: &[Interval<Tick>]) -> bool {
    for i in 0..wanted.len() {
        if !is_next_broken(row, kind, begin_before(wanted, i), Some(wanted[i])) {
            return false;
        }
    }
    is_next_broken(row, kind, begin_before(wanted, wanted.len()), None)
}

/// Whether a row of marks, rebuilt over the intervals of the other kind of property, spells these intervals.
fn has_intervals<I: SpanRow<Tick>, M: MarkRow<Tick>>(
    rt: &impl Abort,
    intervals: &mut Intervals<Tick, I>,
    row: &M,
    kind: &str,
    wanted: &[Interval<Tick>],
) -> bool {
    let strong = kind == "strong";
    rebuild(rt, &mut *intervals, P, row, !strong, true);
    rebuild(rt, &mut *intervals, P, row, strong, kind == "initial");
    has_members(intervals, wanted)
}

/// The kind of a property and its marks, each with its time and its counts of starts, ends and clashes; the intervals and, behind
/// `broken`, the broken begins.
const ROWS: &str = "
# a property that is neither strong nor initial
weak 10:1,0,0 => 10..inf broken
weak 10:1,0,0 18:0,1,0 => 10..18 broken
weak 10:1,0,0 20:0,0,1 => broken 10..20
weak 5:1,0,0 10:1,1,0 => 5..10 10..inf broken
weak 10:1,0,0 14:1,0,0 20:0,1,0 => 10..20 broken
# a strong one, and initial ones
strong 10:1,0,0 14:1,0,0 20:0,1,0 => 14..20 broken 10..14
initial => inf..inf broken
initial 7:0,1,0 => inf..7 broken
initial 7:0,0,1 => broken inf..7
";

/// Whether a row of marks spells these intervals and these broken begins.
fn row_spells<I: SpanRow<Tick>, M: MarkRow<Tick>>(
    rt: &impl Abort,
    alloc: Global,
    row: &M,
    kind: &str,
    wanted: &str,
) -> bool {
    let (members, broken) = wanted.split_once("broken").expect(rt, wanted);
    let members = intervals_of(rt, alloc, members);
    let mut intervals = no_intervals::<I>(rt, alloc);
    has_intervals(rt, &mut *intervals, row, kind, &members)
        && has_broken(row, kind, &intervals_of(rt, alloc, broken))
}

/// Whether the marks of a property of a kind spell these intervals and these broken begins.
fn spells<I: SpanRow<Tick>, M: MarkRow<Tick>>(
    rt: &impl Abort,
    alloc: Global,
    given: &str,
    wanted: &str,
) -> bool {
    let (kind, marks) = given.split_once(' ').unwrap_or((given, ""));
    let row: M = row_of_marks(rt, alloc, marks);
    row_spells::<I, M>(rt, alloc, &row, kind, wanted)
}

/// Sees that each row of the table spells its intervals and its broken begins.
fn check_rows<I: SpanRow<Tick>, M: MarkRow<Tick>>(rt: &impl Abort, alloc: Global) {
    for line in ROWS.lines() {
        if let Some((given, wanted)) = row_of(line) {
            assert!(rt; spells::<I, M>(rt, alloc, given, wanted), "{line}");
        }
    }
}

#[test]
fn marks_spell_intervals_and_broken_begins(rt: HostRuntime) {
    check_rows::<VecSpans<Tick>, VecMarks<Tick>>(&rt, rt.alloc());
}

/// Whether two tables have the same intervals of the property.
fn have_same_members<I: SpanRow<Tick>>(
    intervals: &Intervals<Tick, I>,
    others: &Intervals<Tick, I>,
) -> bool {
    if intervals.len(P) != others.len(P) {
        return false;
    }
    for i in 0..others.len(P) {
        if i >= intervals.len(P) || intervals.member(P, i) != others.member(P, i) {
            return false;
        }
    }
    true
}

/// The row of three marks whose kinds are the digits of a number.
fn three_marks<M: MarkRow<Tick>>(rt: &impl Abort, alloc: Global, kinds: usize) -> M {
    let mut row = M::new(alloc).expect(rt, "memory");
    put_counted(rt, &mut row, mark_of_kind(1, kinds));
    put_counted(rt, &mut row, mark_of_kind(3, kinds / 6));
    put_counted(rt, &mut row, mark_of_kind(5, kinds / 36));
    row
}

/// Rebuilds the intervals that a row of marks spells, and mends them by one more mark that is put into the row. A mark with no
/// count changes nothing.
fn rebuild_and_mend<I: SpanRow<Tick>, M: MarkRow<Tick>>(
    rt: &impl Abort,
    intervals: &mut Intervals<Tick, I>,
    row: &mut M,
    mark: Mark<Tick>,
    strong: bool,
    initial: bool,
) {
    rebuild(rt, &mut *intervals, P, row, strong, initial);
    if is_counted(mark) {
        mend(rt, &mut *intervals, row, strong, initial, mark);
    }
}

/// Whether intervals are those that a row of marks spells, rebuilt.
fn is_as_rebuilt<I: SpanRow<Tick>, M: MarkRow<Tick>>(
    rt: &impl Abort,
    alloc: Global,
    intervals: &Intervals<Tick, I>,
    row: &M,
    strong: bool,
    initial: bool,
) -> bool {
    let mut wanted = no_intervals(rt, alloc);
    rebuild(rt, &mut *wanted, P, row, strong, initial);
    have_same_members(intervals, &wanted)
}

/// Whether a row of three marks whose kinds are the digits of a number, mended by one more mark, has the intervals of
/// the row rebuilt.
fn is_mended<I: SpanRow<Tick>, M: MarkRow<Tick>>(
    rt: &impl Abort,
    alloc: Global,
    kinds: usize,
    mark: Mark<Tick>,
    strong: bool,
    initial: bool,
) -> bool {
    let mut row: M = three_marks(rt, alloc, kinds);
    let mut intervals = no_intervals::<I>(rt, alloc);
    rebuild_and_mend(rt, &mut *intervals, &mut row, mark, strong, initial);
    is_as_rebuilt(rt, alloc, &*intervals, &row, strong, initial)
}

/// The same for a property of each kind.
fn is_mended_for_each<I: SpanRow<Tick>, M: MarkRow<Tick>>(
    rt: &impl Abort,
    alloc: Global,
    kinds: usize,
    mark: Mark<Tick>,
) -> bool {
    is_mended::<I, M>(rt, alloc, kinds, mark, false, false)
        && is_mended::<I, M>(rt, alloc, kinds, mark, true, false)
        && is_mended::<I, M>(rt, alloc, kinds, mark, false, true)
}

/// Sees that each row of three marks is mended by one more mark, of each kind and at each time up to the last one's and behind it.
fn check_mended<I: SpanRow<Tick>, M: MarkRow<Tick>>(rt: &impl Abort, alloc: Global) {
    for kinds in 0..216 {
        for at in 0..7 {
            for kind in 0..6 {
                let mark = mark_of_kind(at, kind);
                assert!(rt; is_mended_for_each::<I, M>(rt, alloc, kinds, mark));
            }
        }
    }
}

#[test]
fn mended_rows_are_those_rebuilt(rt: HostRuntime) {
    check_mended::<VecSpans<Tick>, VecMarks<Tick>>(&rt, rt.alloc());
}

/// The mark of a change: each even one starts the property, and each odd one ends it.
fn mark_of_change(k: i64) -> Mark<Tick>
    ensures { IsTrue (is_counted result) }
{
    let at = k.wrapping_mul(5).wrapping_add(10);
    if k % 2 == 0 {
        mark(at, 1, 0, 0)
    } else {
        mark(at, 0, 1, 0)
    }
}

/// Starts and ends the property a hundred times, and starts it once more.
fn pulse<I: SpanRow<Tick>, M: MarkRow<Tick>>(
    rt: &impl Abort,
    intervals: &mut Intervals<Tick, I>,
    row: &mut M,
) {
    rebuild(rt, &mut *intervals, P, row, false, false);
    for k in 0i64..201 {
        mend(rt, &mut *intervals, row, false, false, mark_of_change(k));
    }
}

/// How often the row of a property was spliced.
fn splices(intervals: &Intervals<Tick, TallySpans>, p: PropId) -> Option<u64> {
    match intervals.spans(p) {
        Some(row) => Some(row.splices()),
        None => None,
    }
}

/// Whether the row that was pulsed has one splice for each change, and its last spans alone were touched.
fn is_touched_last(intervals: &Intervals<Tick, TallySpans>) -> bool {
    match intervals.spans(P) {
        Some(row) => row.len() == 101 && row.splices() == 202 && row.least() == 99,
        None => false,
    }
}

/// Whether changes of one row touch the last spans of its property alone, by one splice for each change, and not the row of
/// another property.
fn touch_the_last_alone<M: MarkRow<Tick>>(
    rt: &impl Abort,
    intervals: &mut Intervals<Tick, TallySpans>,
    row: &mut M,
    other: &M,
) -> bool {
    rebuild(rt, &mut *intervals, Q, other, false, false);
    let before = splices(intervals, Q);
    pulse(rt, &mut *intervals, row);
    before.is_some() && splices(intervals, Q) == before && is_touched_last(intervals)
}

/// The same from no row on.
fn touches_the_last_alone<M: MarkRow<Tick>>(rt: &impl Abort, alloc: Global) -> bool {
    let other: M = row_of_marks(rt, alloc, "1:1,0,0");
    let mut row: M = row_of_marks(rt, alloc, "");
    touch_the_last_alone(rt, &mut no_intervals(rt, alloc), &mut row, &other)
}

#[test]
fn a_late_change_touches_the_last_spans_alone(rt: HostRuntime) {
    assert!(rt; touches_the_last_alone::<VecMarks<Tick>>(&rt, rt.alloc()));
}
