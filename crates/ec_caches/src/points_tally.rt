//! What no clause shows: that a change of one mark touches little of a long row.
ghost use Rattle.std.specs.Prelude.{◌≡◌, ◌++◌, ◌∷◌, [], ◌+◌, ◌≤◌, IsTrue, OnOk, OnErr, if◌then◌else◌};
ghost use Rattle.ec_rows.specs.Marks.{IsMarkRow, is_counted, are_before, has_mark, with_mark};

use crate::fixtures::boxed;
use crate::points::{initiation, mark_of, put};
use ec_block_rows::BlockMarks;
use ec_layers::tables::row_of;
use ec_lists::NoMemory;
use ec_moment::{Moment, Tick};
use ec_points::Points;
use ec_rows::{Mark, MarkRow};
use ec_terms::PropId;
use std::alloc::Global;
use std::cell::Cell;
use std::process::Abort;

/// A row of marks in blocks that passes each call on, and counts the calls.
#[derive(Drop)]
struct TallyMarks<T: Moment> {
    marks: BlockMarks<T>,
    calls: Cell<u64>,
}

impl<T: Moment> TallyMarks<T> {
    /// Counts one more call.
    fn count(&self) {
        self.calls.set(self.calls.get().wrapping_add(1));
    }
}

impl<T: Moment> MarkRow<T> for TallyMarks<T> {
    ghost marks = { λ row. row.marks.items };

    ghost spare = { λ row. row.marks.spare };

    fn new(alloc: Global) -> Result<Self, NoMemory> {
        Ok(TallyMarks {
            marks: BlockMarks::new(alloc)?,
            calls: Cell::new(0),
        })
    }

    fn len(&self) -> usize {
        self.count();
        self.marks.len()
    }

    fn reserve(&mut self, n: usize) -> Result<(), NoMemory> {
        self.count();
        self.marks.reserve(n)
    }

    fn get(&self, i: usize) -> Mark<T> {
        self.count();
        self.marks.get(i)
    }

    fn run(&self, i: usize) -> &[Mark<T>] {
        self.count();
        self.marks.run(i)
    }

    fn count_before(&self, at: T, near: usize) -> usize {
        self.count();
        self.marks.count_before(at, near)
    }

    fn mark_at(&self, at: T) -> Option<Mark<T>> {
        self.count();
        self.marks.mark_at(at)
    }

    fn last_before(&self, at: T) -> Option<usize> {
        self.count();
        self.marks.last_before(at)
    }

    fn next_after(&self, at: T) -> Option<usize> {
        self.count();
        self.marks.next_after(at)
    }

    fn put(&mut self, mark: Mark<T>)
        requires counted { IsTrue (is_counted mark) }
        requires room { (if has_mark T.rank (T.rank mark.at) self.old.marks.items then 0 else 1) ≤ self.old.marks.spare }
        ensures marks { self.new.marks.items ≡ with_mark T.rank mark self.old.marks.items }
        ensures spare { self.old.marks.spare ≤ self.new.marks.spare + (if has_mark T.rank (T.rank mark.at) self.old.marks.items then 0 else 1) }
        ensures row { IsMarkRow T.rank self.new.marks.items }
    {
        self.count();
        self.marks.put(mark);
    }

    fn push(&mut self, mark: Mark<T>) -> Result<(), NoMemory>
        requires counted { IsTrue (is_counted mark) }
        requires last { IsTrue (are_before T.rank self.old.marks.items mark) }
        ensures ok { OnOk result (self.new.marks.items ≡ self.old.marks.items ++ mark ∷ []) }
        ensures err { OnErr result (self.new.marks.items ≡ self.old.marks.items) }
        ensures spare { self.old.marks.spare ≤ self.new.marks.spare + 1 }
        ensures same_spare { OnErr result (self.old.marks.spare ≤ self.new.marks.spare) }
        ensures row { IsMarkRow T.rank self.new.marks.items }
    {
        self.count();
        self.marks.push(mark)
    }

    fn take_out(&mut self, i: usize) -> Mark<T> {
        self.count();
        self.marks.take_out(i)
    }
}

/// The property that the marks are of.
const P: PropId = PropId(3);

/// Makes one mark of the property.
fn put_one(
    rt: &impl Abort,
    alloc: Global,
    points: &mut Points<Tick, TallyMarks<Tick>>,
    mark: Mark<Tick>,
) {
    put(rt, alloc, points, &[(P, mark)]);
}

/// The property with so many marks, one every ten times.
fn long_row(rt: &impl Abort, alloc: Global, length: i64) -> Box<Points<Tick, TallyMarks<Tick>>> {
    let mut points = boxed(rt, alloc, Points::new(alloc).expect(rt, "memory"));
    for k in 0..length {
        put_one(rt, alloc, &mut points, initiation(Tick(k.wrapping_mul(10))));
    }
    points
}

/// How often the row of the property was called.
fn calls_of(points: &Points<Tick, TallyMarks<Tick>>) -> u64 {
    match points.row(P) {
        Some(row) => row.calls.get(),
        None => 0,
    }
}

/// The marks of a row, block by block.
fn blocks_in(rt: &impl Abort, alloc: Global, row: &TallyMarks<Tick>) -> Vec<Vec<Mark<Tick>>> {
    let mut blocks = Vec::new(alloc);
    let mut place: usize = 0;
    for _ in 0..row.len() {
        if place >= row.len() {
            return blocks;
        }
        let run = row.run(place);
        let block = run.to_vec(alloc).expect(rt, "memory");
        blocks.push(block).expect(rt, "memory");
        place = place.saturating_add(run.len());
    }
    blocks
}

/// The marks of the property, block by block.
fn blocks_of(
    rt: &impl Abort,
    alloc: Global,
    points: &Points<Tick, TallyMarks<Tick>>,
) -> Vec<Vec<Mark<Tick>>> {
    match points.row(P) {
        Some(row) => blocks_in(rt, alloc, row),
        None => Vec::new(alloc),
    }
}

/// How many blocks two lists of blocks have in common at the front.
fn common_front(blocks: &[Vec<Mark<Tick>>], others: &[Vec<Mark<Tick>>]) -> usize {
    let count = blocks.len().min(others.len());
    for i in 0..count {
        if blocks[i] != others[i] {
            return i;
        }
    }
    count
}

/// How many blocks two lists of blocks have in common at the back.
fn common_back(blocks: &[Vec<Mark<Tick>>], others: &[Vec<Mark<Tick>>]) -> usize {
    let count = blocks.len().min(others.len());
    for i in 0..count {
        if blocks[blocks.len() - 1 - i] != others[others.len() - 1 - i] {
            return i;
        }
    }
    count
}

/// How many blocks of the second list are not as in the first.
fn count_changed(before: &[Vec<Mark<Tick>>], after: &[Vec<Mark<Tick>>]) -> usize {
    let front = common_front(before, after);
    let back = common_back(before, after);
    after.len().saturating_sub(front).saturating_sub(back)
}

/// Makes a change of one mark. It gives the number of calls of the row, and how many of its blocks are not as before.
fn touched(
    rt: &impl Abort,
    alloc: Global,
    points: &mut Points<Tick, TallyMarks<Tick>>,
    mark: Mark<Tick>,
) -> (u64, usize) {
    let before = blocks_of(rt, alloc, points);
    let calls = calls_of(points);
    put_one(rt, alloc, points, mark);
    let calls = calls_of(points).wrapping_sub(calls);
    (calls, count_changed(&before, &blocks_of(rt, alloc, points)))
}

/// Whether a change of one mark calls a row of many marks as often as one of few, up to five times, and touches one block of
/// it or two.
fn touches_few(
    rt: &impl Abort,
    alloc: Global,
    few: &mut Points<Tick, TallyMarks<Tick>>,
    many: &mut Points<Tick, TallyMarks<Tick>>,
    in_few: &str,
    in_many: &str,
) -> bool {
    let (calls_of_few, _) = touched(rt, alloc, few, mark_of(rt, in_few));
    let (calls, blocks) = touched(rt, alloc, many, mark_of(rt, in_many));
    calls == calls_of_few && 1 <= calls && calls <= 5 && 1 <= blocks && blocks <= 2
}

/// Changes of one mark, in the row of few marks and in that of many: a new mark in front, in the middle and behind, another
/// one, and none.
const CHANGES: &str = "
-5 1 0 0 => -5 1 0 0
5005 1 0 0 => 500005 1 0 0
10005 0 1 0 => 1000005 0 1 0
5000 0 1 0 => 500000 0 1 0
5000 0 0 0 => 500000 0 0 0
";

#[test]
fn a_change_of_one_mark_touches_few_blocks(rt: HostRuntime) {
    let alloc = rt.alloc();
    let mut few = long_row(&rt, alloc, 1000);
    let mut many = long_row(&rt, alloc, 100000);
    for line in CHANGES.lines() {
        if let Some((in_few, in_many)) = row_of(line) {
            assert!(rt;
                touches_few(&rt, alloc, &mut few, &mut many, in_few, in_many),
                "{line}"
            );
        }
    }
}
