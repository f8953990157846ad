ghost use Rattle.std.specs.Prelude.{◌≡◌, ◌≢◌, ◌↔◌, ℕ, ◌+◌, ◌-◌, ◌<◌, ◌≤◌, ◌≤ℤ◌, [], IsTrue, IfSome, IfNone, OnErr, OnOk, Some, None, filter, length, not, option_map, slice_get};
ghost use Rattle.ec_axioms.specs.Marks.{spans_of};
ghost use Rattle.ec_axioms.specs.Timeline.{is_held_at};
ghost use Rattle.ec_intervals.specs.Near.{IsNear};
ghost use Rattle.ec_intervals.specs.OldMarks.{AreOfOldMarks};
ghost use Rattle.ec_intervals.specs.Steps.{begins_behind, ends_before, is_proper};
ghost use Rattle.ec_intervals.specs.Table.{IsGrown, front_at, has_row, last_begin_of, members_at, plain_begin, plain_interval, plain_intervals, room_at, row_at, spans_at};
ghost use Rattle.ec_rows.specs.PlainMarks.{plain_marks};

use crate::counts::{row_begun_up_to, row_ended_before};
use crate::draft::Draft;
use crate::interval::{Begin, Interval};
use crate::near::Near;
use crate::reach::{is_outside, reach_of};
use crate::reaches::Reaches;
use crate::row::{KeptRow, clear_row, count_members, member_of, row_begin_before, row_covers};
use crate::rows::prepare_row;
use crate::write::{rebuild_row, splice_row};
use ec_lists::NoMemory;
use ec_moment::Moment;
use ec_numbered::ByNumber;
use ec_rows::{End, MarkRow, SpanRow};
use ec_terms::PropId;
use std::alloc::Global;
use std::marker::Model;

/// The maximal validity intervals of each property, a row of them under the number of the property.
///
/// The interval from before all events is the front of a row; the others, which begin at a time, are its spans. The
/// reaches of all rows lie together beside them, since most questions about a time are told by these alone.
/// Intervals are made from a row of marks alone. What is written goes through a buffer that all rows share. After
/// `prepare` has made room, nothing takes memory.
#[derive(Drop)]
pub struct Intervals<T: Moment, I: SpanRow<T>> {
    rows: ByNumber<KeptRow<T, I>>,
    reaches: Reaches<T>,
    draft: Draft<T>,
    alloc: Global,
}

impl<T: Moment, I: SpanRow<T>> Model for Intervals<T, I> {
    ghost use Rattle.std.specs.Vec.{vec_capacity};
    ghost use Rattle.ec_intervals.specs.Reach.{AreKept};
    ghost use Rattle.ec_intervals.specs.RowViews.{rows_seen};
    ghost use Rattle.ec_intervals.specs.Table.{IntervalTable};

    ghost Value = { IntervalTable T };

    ghost view = { λ intervals. record { rows = rows_seen I.spans I.spare intervals.rows; buffer = vec_capacity intervals.draft.spans } };

    ghost invariant = { λ intervals. AreKept T.rank intervals.reaches (rows_seen I.spans I.spare intervals.rows) };
}

impl<T: Moment, I: SpanRow<T>> Intervals<T, I> {
    /// No rows, and a buffer for no span. It takes no memory.
    pub fn new(alloc: Global) -> Intervals<T, I>
        ensures { (n : ℕ) → row_at n result ≡ None }
    {
        Intervals {
            rows: ByNumber::new(alloc),
            reaches: Reaches::new(alloc),
            draft: Draft::new(alloc),
            alloc,
        }
    }

    /// The spans of a property. `None` exactly when it has no row.
    pub fn spans(&self, p: PropId) -> Option<&I>
        ensures there { IfSome result (λ row. IsTrue (has_row p.0 self.now)) }
        ensures spans { IfSome result (λ row. spans_at p.0 self.now ≡ I.spans row.now) }
        ensures room { IfSome result (λ row. room_at p.0 self.now ≡ I.spare row.now) }
        ensures none { IfNone result (row_at p.0 self.now ≡ None) }
    {
        match self.rows.get(p) {
            Some(kept) => Some(&kept.spans),
            None => None,
        }
    }

    /// The end of the interval of a property from before all events. `None` exactly when it has no such interval.
    pub fn front(&self, p: PropId) -> Option<End<T>>
        ensures { result ≡ front_at p.0 self.now }
    {
        match self.rows.get(p) {
            Some(kept) => kept.front,
            None => None,
        }
    }

    /// How many intervals a property has.
    pub fn len(&self, p: PropId) -> usize
        ensures { result ≡ length (members_at p.0 self.now) }
    {
        match self.rows.get(p) {
            Some(kept) => count_members(kept),
            None => 0,
        }
    }

    /// The interval of a property at a place, from 0: the front first, then the spans. Each begins before it ends.
    pub fn member(&self, p: PropId, i: usize) -> Interval<T>
        requires within { i < length (members_at p.0 self.now) }
        ensures member { slice_get (members_at p.0 self.now) i ≡ Some result }
        ensures proper { IsTrue (is_proper (plain_interval T.rank result)) }
    {
        match self.rows.get(p) {
            Some(kept) => member_of(kept, i),
            None => unreachable!(),
        }
    }

    /// Whether a property holds at a time: some interval of it covers the time. Up to its first begin and behind its last
    /// end this is told without a look at its row; else it takes one search in the row.
    pub fn covers(&self, p: PropId, at: T) -> bool
        ensures { result ≡ is_held_at (plain_intervals T.rank (members_at p.0 self.now)) (T.rank at) }
    {
        if is_outside(self.reaches.get(p), at) {
            return false;
        }
        match self.rows.get(p) {
            Some(kept) => row_covers(kept, at),
            None => false,
        }
    }

    /// The last begin of the intervals of a property before a time. It takes one search in its row.
    pub fn last_begin_before(&self, p: PropId, at: T) -> Option<Begin<T>>
        ensures { option_map (plain_begin T.rank) result ≡ last_begin_of (plain_intervals T.rank (members_at p.0 self.now)) (T.rank at) }
    {
        match self.rows.get(p) {
            Some(kept) => row_begin_before(kept, at),
            None => None,
        }
    }

    /// How many intervals of a property end before a time. As its intervals are in order, they are its first ones.
    pub fn ended_before(&self, p: PropId, at: T) -> usize
        ensures { result ≡ length (filter (ends_before (T.rank at)) (plain_intervals T.rank (members_at p.0 self.now))) }
    {
        match self.rows.get(p) {
            Some(kept) => row_ended_before(kept, at),
            None => 0,
        }
    }

    /// How many intervals of a property begin up to a time, and at it. As its intervals are in order, they are its first ones.
    pub fn begun_up_to(&self, p: PropId, at: T) -> usize
        ensures { result ≡ length (filter (λ interval. not (begins_behind (T.rank at) interval)) (plain_intervals T.rank (members_at p.0 self.now))) }
    {
        match self.rows.get(p) {
            Some(kept) => row_begun_up_to(kept, at),
            None => 0,
        }
    }

    /// Which properties may hold at a time, told for groups of them. It reads no row, and takes no memory.
    pub fn near(&self, at: T) -> Near
        ensures { IsNear T.rank (T.rank at) self.now result }
    {
        self.reaches.near(at)
    }

    /// Gives a property a row, if it has none, and makes room: in its row for this many further spans, and in the buffer
    /// for what so many marks spell. `Err`: memory ran out; then no row is new, and rooms alone may be larger.
    pub fn prepare(&mut self, p: PropId, spans: usize, marks: usize) -> Result<(), NoMemory>
        ensures room { OnOk result (spans ≤ room_at p.0 self.new) }
        ensures buffer { OnOk result (marks < self.new.buffer) }
        ensures row { OnOk result (IsTrue (has_row p.0 self.new)) }
        ensures err { OnErr result (has_row p.0 self.new ≡ has_row p.0 self.old) }
        ensures grown { IsGrown (row_at p.0 self.old) (row_at p.0 self.new) }
        ensures kept { self.old.buffer ≤ self.new.buffer }
        ensures others { (n : ℕ) → n ≢ p.0 → row_at n self.new ≡ row_at n self.old }
    {
        self.draft.make_room(marks)?;
        self.reaches.place(p)?;
        prepare_row(&mut self.rows, p, spans, self.alloc)
    }

    /// Makes the intervals of a property anew: those that its row of marks spells, by the marks alone, in place of
    /// those that were there. The property has a row with room for them, and the buffer has room for them too. It takes
    /// no memory.
    pub fn rebuild<M: MarkRow<T>>(&mut self, p: PropId, row: &M, strong: bool, initial: bool)
        requires row { IsTrue (has_row p.0 self.old) }
        requires room { length (spans_of (plain_marks T.rank (M.marks row.now)) strong initial) ≤ length (spans_at p.0 self.old) + room_at p.0 self.old }
        requires buffer { length (M.marks row.now) < self.old.buffer }
        ensures intervals { plain_intervals T.rank (members_at p.0 self.new) ≡ spans_of (plain_marks T.rank (M.marks row.now)) strong initial }
        ensures room { room_at p.0 self.old ≤ room_at p.0 self.new + (length (spans_at p.0 self.new) - length (spans_at p.0 self.old)) }
        ensures buffer { self.new.buffer ≡ self.old.buffer }
        ensures row { IsTrue (has_row p.0 self.new) }
        ensures others { (n : ℕ) → n ≢ p.0 → row_at n self.new ≡ row_at n self.old }
    {
        let Some(kept) = self.rows.get_mut(p) else {
            unreachable!()
        };
        rebuild_row(kept, &mut self.draft, row, strong, initial);
        self.reaches.set(p, reach_of(kept));
    }

    /// Mends the intervals of a property whose marks changed, from one time up to another and nowhere else: leaves those
    /// that its row of marks spells now, as `rebuild` does. It reads the marks from `from` up to the first one behind
    /// `until`, and back to the begin that is open at `from` where no interval shows it; and it writes no span that ends
    /// before `from` or starts behind that mark. It tells whether the intervals differ; where they do not, nothing is
    /// written. It takes no memory.
    pub fn splice_from<M: MarkRow<T>>(
        &mut self,
        p: PropId,
        row: &M,
        strong: bool,
        initial: bool,
        from: T,
        until: T,
    ) -> bool
        requires row { IsTrue (has_row p.0 self.old) }
        requires ordered { T.rank from ≤ℤ T.rank until }
        requires old { AreOfOldMarks T.rank (T.rank from) (T.rank until) strong initial (M.marks row.now) (plain_intervals T.rank (members_at p.0 self.old)) }
        requires room { length (spans_of (plain_marks T.rank (M.marks row.now)) strong initial) ≤ length (spans_at p.0 self.old) + room_at p.0 self.old }
        requires buffer { length (M.marks row.now) < self.old.buffer }
        ensures intervals { plain_intervals T.rank (members_at p.0 self.new) ≡ spans_of (plain_marks T.rank (M.marks row.now)) strong initial }
        ensures differs { IsTrue result ↔ (plain_intervals T.rank (members_at p.0 self.old) ≢ plain_intervals T.rank (members_at p.0 self.new)) }
        ensures room { room_at p.0 self.old ≤ room_at p.0 self.new + (length (spans_at p.0 self.new) - length (spans_at p.0 self.old)) }
        ensures buffer { self.new.buffer ≡ self.old.buffer }
        ensures row { IsTrue (has_row p.0 self.new) }
        ensures others { (n : ℕ) → n ≢ p.0 → row_at n self.new ≡ row_at n self.old }
    {
        let Some(kept) = self.rows.get_mut(p) else {
            unreachable!()
        };
        let differs = splice_row(kept, &mut self.draft, row, strong, initial, from, until);
        self.reaches.set(p, reach_of(kept));
        differs
    }

    /// Takes all intervals of a property out. Its row stays, empty, if it has one. It takes no memory.
    pub fn clear(&mut self, p: PropId)
        ensures front { front_at p.0 self.new ≡ None }
        ensures spans { spans_at p.0 self.new ≡ [] }
        ensures room { room_at p.0 self.old ≤ room_at p.0 self.new }
        ensures buffer { self.new.buffer ≡ self.old.buffer }
        ensures row { has_row p.0 self.new ≡ has_row p.0 self.old }
        ensures others { (n : ℕ) → n ≢ p.0 → row_at n self.new ≡ row_at n self.old }
    {
        let Some(kept) = self.rows.get_mut(p) else {
            return;
        };
        clear_row(kept);
        self.reaches.set(p, None);
    }
}
