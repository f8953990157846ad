//! What no clause shows: that memory is given, and the currency that whole rows of marks tell.
ghost use Rattle.std.specs.Prelude.{◌≡◌, ◌≤◌, ℕ};
ghost use Rattle.ec_points.specs.Changes.{count_of};
ghost use Rattle.ec_points.specs.Table.{room_at};

use crate::fixtures::boxed;
use ec_axioms::Current;
use ec_layers::tables::row_of;
use ec_moment::Tick;
use ec_points::{MarkChange, Points};
use ec_rows::{Mark, MarkRow, VecMarks};
use ec_terms::PropId;
use std::alloc::Global;
use std::process::Abort;

// The calls that are made of a table, one a line, and what they answer. `put` makes marks in one change: the number of a
// property, the time, and how often it initiates, terminates and clashes there. `begin` leaves a property one initiation. `next`
// tells how many marks of a property are before a time, and the time of the first mark behind it.

/// A property that is initiated and terminated twice.
const CURRENCY: &str = "
row 1 => none
mark 1 7 => none
put 1 7 1 0 0, 1 10 0 1 0, 1 20 1 0 0, 1 30 0 1 0
mark 1 7 => 7 1 0 0
mark 1 8 => none
current 1 -9223372036854775808 => no
current 1 7 => no
current 1 8 => yes
current 1 10 => yes
current 1 11 => no
current 1 20 => no
current 1 21 => yes
current 1 30 => yes
current 1 31 => no
current 0 8 => no
current 2 8 => no
next 1 -9223372036854775808 => 0 7
next 1 7 => 0 10
next 1 8 => 1 10
next 1 20 => 2 30
next 1 30 => 3 none
next 1 31 => 4 none
next 0 8 => 0 none
next 2 8 => 0 none
";

/// Where 2 and 5 hold from before all events.
const INITIALS: &str = "
initial 2 => yes
initial 3 => no
initial 5 => yes
marks 5 => none
row 3 => none
put 5 10 0 0 2, 3 10 0 1 0
current 2 -9223372036854775808 => yes
current 2 9223372036854775807 => yes
current 5 10 => yes
current 5 11 => no
current 3 10 => no
current 3 11 => no
next 2 0 => 0 none
next 5 9 => 0 10
next 5 11 => 1 none
";

/// A change of two properties: at the front, in the middle, at the end, over a mark, of a mark, and of none.
const CHANGES: &str = "
put 1 7 1 0 0, 1 10 0 1 0, 1 20 1 0 0, 1 30 0 1 0
put 1 25 2 0 0, 4 3 1 0 0, 1 1 3 0 0, 1 40 4 0 0, 4 2 5 0 0, 1 20 6 1 0, 1 10 0 0 0, 1 11 0 0 0, 4 4 0 0 0
marks 1 => 1 3 0 0, 7 1 0 0, 20 6 1 0, 25 2 0 0, 30 0 1 0, 40 4 0 0
marks 4 => 2 5 0 0, 3 1 0 0
clear 1
clear 2
clear 9
marks 1 => none
marks 4 => 2 5 0 0, 3 1 0 0
row 9 => none
";

/// Marks of two properties that both initiate and clash, at 7 and at 20, and others that do one of the two. Clashes are
/// found in the order of their times, while a property has one there.
const CLASHES: &str = "
clash first => none
put 1 20 1 0 1, 2 7 2 1 3, 1 7 1 0 1, 2 9 1 0 0, 1 30 0 0 4
clash first => 7
clash 6 => 7
clash 7 => 20
clash 20 => none
put 1 7 0 0 1, 1 20 0 0 0
clash first => 7
clash 7 => none
clear 2
clash first => none
";

/// Rows that are made by adding behind the last mark, in room that was made and without.
const BEHIND: &str = "
reserve 3 2
marks 3 => none
begin 3 7
begin 1 9
marks 3 => 7 1 0 0
marks 1 => 9 1 0 0
";

/// A property and its mark.
pub(crate) type Given = (PropId, Mark<Tick>);

/// Adds a mark to a change, unless one is there for its place, and makes room for it.
fn add<M: MarkRow<Tick>>(
    rt: &impl Abort,
    points: &mut Points<Tick, M>,
    change: &mut MarkChange<Tick>,
    given: &Given,
)
    requires { (n : ℕ) → count_of n change.old ≤ room_at n points.old }
    ensures { (n : ℕ) → count_of n change.new ≤ room_at n points.new }
{
    let (p, mark) = *given;
    if change.has(p, mark.at) {
        return;
    }
    change.push(p, mark, 0).expect(rt, "memory");
    let reserved = points.reserve(p, change.count_of(p));
    reserved.expect(rt, "memory");
}

/// Makes room for so many clashes.
fn make_clash_room<M: MarkRow<Tick>>(rt: &impl Abort, points: &mut Points<Tick, M>, n: usize)
    ensures room { n ≤ points.new.clash_room }
    ensures rows { points.new.rows ≡ points.old.rows }
{
    points.reserve_clashes(n).expect(rt, "memory");
}

/// Makes the marks of properties as they are given, all in one change. Of two at one place the first counts.
pub(crate) fn put<M: MarkRow<Tick>>(
    rt: &impl Abort,
    alloc: Global,
    points: &mut Points<Tick, M>,
    given: &[Given],
) {
    let mut change = MarkChange::new(alloc);
    for one in given {
        add(rt, points, &mut change, one);
    }
    make_clash_room(rt, points, change.len());
    points.apply(&change);
}

/// The count that is spelt by a word of a text.
fn count_at(rt: &impl Abort, spelt: &str, place: usize) -> u32 {
    let word = spelt.split(' ').nth(place).expect(rt, spelt);
    word.parse::<u32>().expect(rt, spelt)
}

/// The time that a word spells. `None`: it spells none.
pub(crate) fn time_of(word: &str) -> Option<Tick> {
    let at = word.parse::<i64>().ok()?;
    Some(Tick(at))
}

/// The property whose number a word spells.
fn prop_of(rt: &impl Abort, word: &str) -> PropId {
    PropId(word.parse::<usize>().expect(rt, word))
}

/// The property and the time that are spelt as `1 7`.
fn place_of(rt: &impl Abort, spelt: &str) -> (PropId, Tick) {
    let (p, at) = spelt.split_once(' ').expect(rt, spelt);
    (prop_of(rt, p), time_of(at).expect(rt, spelt))
}

/// The mark that is spelt as `7 1 0 0`, by its time and its counts.
pub(crate) fn mark_of(rt: &impl Abort, spelt: &str) -> Mark<Tick> {
    let (at, _) = spelt.split_once(' ').expect(rt, spelt);
    Mark {
        at: time_of(at).expect(rt, spelt),
        inits: count_at(rt, spelt, 1),
        terms: count_at(rt, spelt, 2),
        clashes: count_at(rt, spelt, 3),
    }
}

/// The mark that is spelt as `1 7 1 0 0`, with its property.
fn given_of(rt: &impl Abort, spelt: &str) -> Given {
    let (p, mark) = spelt.split_once(' ').expect(rt, spelt);
    (prop_of(rt, p), mark_of(rt, mark))
}

/// The marks that are spelt as `1 7 1 0 0, 1 10 0 1 0`.
fn all_given(rt: &impl Abort, alloc: Global, spelt: &str) -> Vec<Given> {
    let mut given = Vec::new(alloc);
    for one in spelt.split(", ") {
        given.push(given_of(rt, one)).expect(rt, "memory");
    }
    given
}

/// A mark that initiates once.
pub(crate) fn initiation(at: Tick) -> Mark<Tick>
    ensures inits { result.inits ≡ 1 }
    ensures clashes { result.clashes ≡ 0 }
{
    Mark {
        at,
        inits: 1,
        terms: 0,
        clashes: 0,
    }
}

/// Takes the marks of a property out, and adds an initiation of it.
fn begin<M: MarkRow<Tick>>(rt: &impl Abort, points: &mut Points<Tick, M>, spelt: &str) {
    let (p, at) = place_of(rt, spelt);
    points.clear(p);
    points.push(p, initiation(at)).expect(rt, "memory");
}

/// Makes room in the row of a property.
fn reserve<M: MarkRow<Tick>>(rt: &impl Abort, points: &mut Points<Tick, M>, spelt: &str) {
    let (p, room) = spelt.split_once(' ').expect(rt, spelt);
    let reserved = points.reserve(prop_of(rt, p), count_at(rt, room, 0) as usize);
    reserved.expect(rt, "memory");
}

/// Makes a call that answers nothing.
fn change<M: MarkRow<Tick>>(
    rt: &impl Abort,
    alloc: Global,
    points: &mut Points<Tick, M>,
    name: &str,
    given: &str,
) {
    match name {
        "put" => put(rt, alloc, points, &all_given(rt, alloc, given)),
        "clear" => points.clear(prop_of(rt, given)),
        "begin" => begin(rt, points, given),
        _ => {
            assert!(rt; name == "reserve");
            reserve(rt, points, given);
        }
    }
}

/// Whether a row has a mark at a place that is spelt as `7 1 0 0`.
fn is_mark<M: MarkRow<Tick>>(rt: &impl Abort, row: &M, place: usize, spelt: &str) -> bool {
    place < row.len() && row.get(place) == mark_of(rt, spelt)
}

/// Whether the marks of a row are those that are spelt as `1 3 0 0, 7 1 0 0`.
fn are_marks<M: MarkRow<Tick>>(rt: &impl Abort, row: &M, spelt: &str) -> bool {
    let mut place: usize = 0;
    for mark in spelt.split(", ") {
        if !is_mark(rt, row, place, mark) {
            return false;
        }
        place = place.wrapping_add(1);
    }
    place == row.len()
}

/// Whether the marks of a property are those that are spelt so, or `none`.
fn has_marks<M: MarkRow<Tick>>(
    rt: &impl Abort,
    points: &Points<Tick, M>,
    p: PropId,
    spelt: &str,
) -> bool {
    match points.row(p) {
        Some(row) if spelt == "none" => row.len() == 0,
        Some(row) => are_marks(rt, row, spelt),
        None => false,
    }
}

/// Whether a property has the mark at a time that is spelt as `7 1 0 0`, or `none`.
fn has_mark<M: MarkRow<Tick>>(
    rt: &impl Abort,
    points: &Points<Tick, M>,
    p: PropId,
    at: Tick,
    spelt: &str,
) -> bool {
    match points.mark_at(p, at) {
        Some(mark) => mark == mark_of(rt, spelt),
        None => spelt == "none",
    }
}

/// Whether a property is current at a time.
fn is_current<C: Current<Tick>>(table: &C, p: PropId, at: Tick) -> bool {
    table.current(p, at)
}

/// Whether one search that begins at a place finds what the calls for the mark and for the currency answer.
fn is_read_from<M: MarkRow<Tick>>(
    points: &Points<Tick, M>,
    p: PropId,
    at: Tick,
    near: usize,
) -> bool {
    let reading = points.read(p, at, near);
    reading.mark == points.mark_at(p, at) && reading.is_current == is_current(points, p, at)
}

/// Whether a mark is at a time, or there is neither.
fn is_at(mark: &Option<Mark<Tick>>, at: Option<Tick>) -> bool {
    match mark {
        Some(mark) => at == Some(mark.at),
        None => at.is_none(),
    }
}

/// Whether it finds as many marks before the time as are told, and the next mark at the time that is told.
fn is_next_from<M: MarkRow<Tick>>(
    points: &Points<Tick, M>,
    p: PropId,
    at: Tick,
    near: usize,
    (before, next): (&str, &str),
) -> bool {
    let reading = points.read(p, at, near);
    before.parse::<usize>() == Ok(reading.place) && is_at(&reading.next, time_of(next))
}

/// Whether searches from a first, a middle and a far place find what the other calls answer.
fn is_read<M: MarkRow<Tick>>(points: &Points<Tick, M>, p: PropId, at: Tick) -> bool {
    for near in [0, 2, 9] {
        if !is_read_from(points, p, at, near) {
            return false;
        }
    }
    true
}

/// Whether they find the marks before a time and behind it that are spelt as `1 10`.
fn is_next<M: MarkRow<Tick>>(
    rt: &impl Abort,
    points: &Points<Tick, M>,
    p: PropId,
    at: Tick,
    spelt: &str,
) -> bool {
    let told = spelt.split_once(' ').expect(rt, spelt);
    for near in [0, 2, 9] {
        if !is_next_from(points, p, at, near, told) {
            return false;
        }
    }
    true
}

/// Asks of a property at a time, and says whether the answer is the one that is wanted.
fn answers_at<M: MarkRow<Tick>>(
    rt: &impl Abort,
    points: &Points<Tick, M>,
    name: &str,
    given: &str,
    wanted: &str,
) -> bool {
    let (p, at) = place_of(rt, given);
    match name {
        "mark" => has_mark(rt, points, p, at, wanted) && is_read(points, p, at),
        "current" => is_current(points, p, at) == (wanted == "yes") && is_read(points, p, at),
        "next" => is_next(rt, points, p, at, wanted),
        _ => false,
    }
}

/// Asks of a property, and says whether the answer is the one that is wanted.
fn answers_of<M: MarkRow<Tick>>(
    rt: &impl Abort,
    points: &Points<Tick, M>,
    name: &str,
    p: PropId,
    wanted: &str,
) -> bool {
    match name {
        "row" => points.row(p).is_none() && wanted == "none",
        "marks" => has_marks(rt, points, p, wanted),
        "initial" => points.initial(p) == (wanted == "yes"),
        _ => false,
    }
}

/// Makes a call, and says whether it answers what is wanted.
fn answers<M: MarkRow<Tick>>(
    rt: &impl Abort,
    points: &Points<Tick, M>,
    name: &str,
    given: &str,
    wanted: &str,
) -> bool {
    if name == "clash" {
        return points.next_clash(time_of(given)) == time_of(wanted);
    }
    if given.contains(' ') {
        return answers_at(rt, points, name, given, wanted);
    }
    answers_of(rt, points, name, prop_of(rt, given), wanted)
}

/// Makes the calls of a table, and sees what they answer.
fn make_calls<M: MarkRow<Tick>>(
    rt: &impl Abort,
    alloc: Global,
    points: &mut Points<Tick, M>,
    calls: &str,
) {
    for line in calls.lines() {
        let Some((call, wanted)) = row_of(line) else {
            continue;
        };
        let (name, given) = call.split_once(' ').expect(rt, line);
        if wanted.is_empty() {
            change(rt, alloc, points, name, given);
        } else {
            assert!(rt; answers(rt, points, name, given, wanted), "{line}");
        }
    }
}

/// Makes the calls of a table in which there are no marks yet.
fn make_new_calls<M: MarkRow<Tick>>(rt: &impl Abort, alloc: Global, calls: &str) {
    let points = Points::<Tick, M>::new(alloc).expect(rt, "memory");
    make_calls(rt, alloc, &mut boxed(rt, alloc, points), calls);
}

/// Makes the calls of a table in which 2 and 5 are initial.
fn make_initial_calls<M: MarkRow<Tick>>(rt: &impl Abort, alloc: Global, calls: &str) {
    let initials = [PropId(2), PropId(5)];
    let points = Points::<Tick, M>::with_initials(alloc, &initials).expect(rt, "memory");
    make_calls(rt, alloc, &mut boxed(rt, alloc, points), calls);
}

/// Makes the calls of all tables.
fn make_all_calls<M: MarkRow<Tick>>(rt: &impl Abort, alloc: Global) {
    make_initial_calls::<M>(rt, alloc, INITIALS);
    for calls in [CURRENCY, CHANGES, CLASHES, BEHIND] {
        make_new_calls::<M>(rt, alloc, calls);
    }
}

#[test]
fn points_answer_through_their_bounds(rt: HostRuntime) {
    make_all_calls::<VecMarks<Tick>>(&rt, rt.alloc());
}
