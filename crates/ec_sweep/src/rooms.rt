//! All the room that making a planned change needs.
ghost use Rattle.std.specs.Prelude.{◌≡◌, ◌+◌, ◌*◌, ◌<◌, ◌≤◌, Some, IfOk, OnOk, length};
ghost use Rattle.ec_points.specs.Table.{marks_at, room_at};
ghost use Rattle.ec_parts.specs.StandFor.{view_of};
ghost use Rattle.ec_delta.specs.Ready.{AreWindows, HasRoomForEvents, HasRoomForIntervals, HasRoomForMarks};
ghost use Rattle.ec_sweep.specs.Planned.{DifferInRoom};
ghost use Rattle.ec_sweep.specs.Rooms.{AreIntervalsGrown, AreMarksGrown, HasRoomToMove, HaveRoomIn, HaveRoomToMove, HaveSpareIn};

use ec_delta::{Planned, Touched, Touches};
use ec_intervals::Intervals;
use ec_lists::{NoMemory, add_counts};
use ec_moment::Moment;
use ec_parts::Parts;
use ec_points::Points;
use ec_revise::Change;
use ec_rows::{MarkRow, SpanRow, TimeRow};
use ec_terms::PropId;

/// How many spans a property may have besides those that it has, once so many of its marks change. `Err`: a word does not
/// count them.
fn spans_for(count: usize) -> Result<usize, NoMemory>
    ensures { IfOk result (λ spans. spans ≡ 2 * count + 1) }
{
    let twice = add_counts(count, count)?;
    add_counts(twice, 1)
}

/// How many marks a property has.
fn mark_count<T: Moment, M: MarkRow<T>>(points: &Points<T, M>, p: PropId) -> usize
    ensures { result ≡ length (marks_at p.0 points.now) }
{
    match points.row(p) {
        Some(row) => row.len(),
        None => 0,
    }
}

/// Makes room for the new marks of each touched property. `Err`: memory ran out.
fn make_room_for_marks<T: Moment, M: MarkRow<T>>(
    points: &mut Points<T, M>,
    touched: &Touches<T>,
) -> Result<(), NoMemory>
    ensures grown { AreMarksGrown points.old points.new }
    ensures clash_room { points.new.clash_room ≡ points.old.clash_room }
    ensures room { OnOk result (HaveRoomIn (λ touched. touched.grows) touched.now points.new) }
{
    for i in 0..touched.len() {
        let (p, row) = touched.row(i);
        points.reserve(p, row.grows)?;
    }
    Ok(())
}

/// Makes room for so many new initiations of a property. Most touched properties have none. `Err`: memory ran out.
fn make_room_to_start<T: Moment, M: MarkRow<T>>(
    initiations: &mut Points<T, M>,
    p: PropId,
    starts: usize,
) -> Result<(), NoMemory>
    ensures grown { AreMarksGrown initiations.old initiations.new }
    ensures room { OnOk result (starts ≤ room_at p.0 initiations.new) }
{
    if starts == 0 {
        return Ok(());
    }
    initiations.reserve(p, starts)
}

/// Makes room for the new initiations of each touched property. `Err`: memory ran out.
fn make_room_for_initiations<T: Moment, M: MarkRow<T>>(
    initiations: &mut Points<T, M>,
    touched: &Touches<T>,
) -> Result<(), NoMemory>
    ensures grown { AreMarksGrown initiations.old initiations.new }
    ensures room { OnOk result (HaveSpareIn (λ touched. touched.starts) touched.now initiations.new) }
{
    for i in 0..touched.len() {
        let (p, row) = touched.row(i);
        make_room_to_start(initiations, p, row.starts)?;
    }
    Ok(())
}

/// Makes room for the intervals of a touched property, where they may move. `Err`: memory ran out.
fn make_room_to_move<T: Moment, M: MarkRow<T>, I: SpanRow<T>>(
    intervals: &mut Intervals<T, I>,
    points: &Points<T, M>,
    p: PropId,
    touched: &Touched<T>,
) -> Result<(), NoMemory>
    ensures grown { AreIntervalsGrown intervals.old intervals.new }
    ensures room { OnOk result (HasRoomToMove p.0 (length (marks_at p.0 points.now)) touched.now intervals.new) }
{
    if !touched.matters {
        return Ok(());
    }
    let spans = spans_for(touched.count)?;
    let marks = add_counts(mark_count(points, p), touched.grows)?;
    intervals.prepare(p, spans, marks)
}

/// Makes room for the intervals of each touched property that may move. `Err`: memory ran out.
fn make_room_for_intervals<T: Moment, M: MarkRow<T>, I: SpanRow<T>>(
    intervals: &mut Intervals<T, I>,
    points: &Points<T, M>,
    touched: &Touches<T>,
) -> Result<(), NoMemory>
    ensures grown { AreIntervalsGrown intervals.old intervals.new }
    ensures room { OnOk result (HaveRoomToMove touched.now points.now intervals.new) }
{
    for i in 0..touched.len() {
        let (p, row) = touched.row(i);
        make_room_to_move(intervals, points, p, &row)?;
    }
    Ok(())
}

/// Takes all the room that making a planned change needs, so that no part of it can fail. `Err`: memory ran out; rooms alone
/// may be larger then.
pub(crate) fn make_room<T: Moment, M: MarkRow<T>, I: SpanRow<T>, X: TimeRow<T>>(
    parts: &mut Parts<T, M, I, X>,
    change: &Change<T>,
    planned: &Planned<T>,
) -> Result<(), NoMemory>
    requires windows { AreWindows T.rank (view_of parts.old) planned.now }
    ensures same { DifferInRoom (view_of parts.old) (view_of parts.new) }
    ensures checked { parts.new.checked ≡ parts.old.checked }
    ensures events { OnOk result (HasRoomForEvents (view_of parts.new) change.now) }
    ensures marks { OnOk result (HasRoomForMarks T.rank (view_of parts.new) planned.now) }
    ensures intervals { OnOk result (HasRoomForIntervals T.rank (view_of parts.new) planned.now) }
{
    parts.store.reserve(change.add.len())?;
    parts
        .entries
        .prepare(&change.entries, parts.store.places())?;
    make_room_for_marks(&mut parts.points, &planned.touched)?;
    make_room_for_initiations(&mut parts.initiations, &planned.touched)?;
    make_room_for_intervals(&mut parts.intervals, &parts.points, &planned.touched)?;
    parts.points.reserve_clashes(planned.marks.len())
}
