ghost use Rattle.std.specs.Prelude.{◌≡◌, ◌≢◌, ℕ, ℤ, ◌+◌, ◌≤◌, ◌++◌, ◌∷◌, [], false, IsTrue, IfOk, IfSome, IfNone, OnOk, OnErr, Some, None, int_lt, length, option_map, slice_get};
ghost use Rattle.ec_axioms.specs.Marks.{last_mark_before};
ghost use Rattle.ec_numbered.specs.PropSet.{are_ascending, has_number};
ghost use Rattle.ec_points.specs.Changes.{changed, count_of as changes_of, growth_of};
ghost use Rattle.ec_points.specs.Clashes.{clashes_at, is_behind, is_clash, new_clashes, some_clash_at};
ghost use Rattle.ec_points.specs.SeenRows.{IsGrown};
ghost use Rattle.ec_points.specs.Table.{has_row, is_current_at, is_initial_at, marks_at, room_at, row_at, row_of};
ghost use Rattle.ec_rows.specs.Marks.{IsMarkRow, are_before, is_counted, mark_at, marks_after, marks_before};
ghost use Rattle.ec_rows.specs.PlainMarks.{plain_mark, plain_marks};

use crate::change::MarkChange;
use crate::clashes::Clashes;
use crate::noted::{forget, note_changes};
use crate::reading::{Reading, read_row};
use crate::row::last_mark;
use crate::rows::{change_rows, clear_in, empty_rows, push_in, reserve_in};
use ec_axioms::Current;
use ec_lists::NoMemory;
use ec_moment::Moment;
use ec_numbered::{ByNumber, PropSet};
use ec_rows::{Mark, MarkRow};
use ec_terms::PropId;
use std::alloc::Global;
use std::marker::{Model, PhantomData};

/// The marks of each property, a row of them under the number of the property, and the numbers of the
/// properties that hold from before all events.
///
/// After `reserve` and `reserve_clashes` have made room for the new marks of a change, `apply` takes no memory.
#[derive(Drop)]
pub struct Points<T: Moment, M: MarkRow<T>> {
    rows: ByNumber<M>,
    initials: PropSet,
    clashes: Clashes<T>,
    alloc: Global,
    moment: PhantomData<T>,
}

impl<T: Moment, M: MarkRow<T>> Model for Points<T, M> {
    ghost use Rattle.ec_points.specs.Clashes.{AreClashesOf};
    ghost use Rattle.ec_points.specs.SeenRows.{rows_seen};
    ghost use Rattle.ec_points.specs.Table.{PointTable};

    ghost Value = { PointTable T };

    ghost view = { λ points. record { rows = rows_seen M.marks M.spare points.rows; initials = points.initials.items; clash_room = points.clashes.spare } };

    ghost invariant = { λ points. AreClashesOf T.rank M.marks M.spare points.rows points.clashes.items };
}

impl<T: Moment, M: MarkRow<T>> Points<T, M> {
    /// No rows, and no initial properties.
    pub fn new(alloc: Global) -> Result<Points<T, M>, NoMemory>
        ensures rows { IfOk result (λ points. (n : ℕ) → row_at n points ≡ None) }
        ensures initials { IfOk result (λ points. points.initials ≡ []) }
    {
        Ok(Points {
            rows: ByNumber::new(alloc),
            initials: PropSet::new(alloc),
            clashes: Clashes::new(alloc),
            alloc,
            moment: PhantomData,
        })
    }

    /// The initial properties of these numbers, which ascend; each has a row of no marks from the start.
    pub fn with_initials(alloc: Global, initials: &[PropId]) -> Result<Points<T, M>, NoMemory>
        requires { IsTrue (are_ascending initials.now) }
        ensures initials { IfOk result (λ points. points.initials ≡ initials.now) }
        ensures rows { IfOk result (λ points. (n : ℕ) → has_row n points ≡ has_number n initials.now) }
        ensures marks { IfOk result (λ points. (n : ℕ) → marks_at n points ≡ []) }
    {
        Ok(Points {
            rows: empty_rows(alloc, initials)?,
            initials: PropSet::from_ascending(initials.to_vec(alloc)?),
            clashes: Clashes::new(alloc),
            alloc,
            moment: PhantomData,
        })
    }

    /// Whether a property holds from before all events.
    pub fn initial(&self, p: PropId) -> bool
        ensures { result ≡ is_initial_at p.0 self.now }
    {
        self.initials.contains(p)
    }

    /// The row of a property. `None` exactly when it has none.
    pub fn row(&self, p: PropId) -> Option<&M>
        ensures some { IfSome result (λ row. row_at p.0 self.now ≡ Some (row_of M.marks M.spare row.now)) }
        ensures none { IfNone result (row_at p.0 self.now ≡ None) }
    {
        self.rows.get(p)
    }

    /// The mark of a property at a time. `None` exactly when it has none there.
    pub fn mark_at(&self, p: PropId, at: T) -> Option<Mark<T>>
        ensures { result ≡ mark_at T.rank (T.rank at) (marks_at p.0 self.now) }
    {
        self.row(p)?.mark_at(at)
    }

    /// What the marks of a property say at a time, by one search. `near` is a place in its row to look at first; it does not
    /// change the answer.
    pub fn read(&self, p: PropId, at: T, near: usize) -> Reading<T>
        ensures mark { result.mark ≡ mark_at T.rank (T.rank at) (marks_at p.0 self.now) }
        ensures current { result.is_current ≡ is_current_at T.rank self.now p.0 (T.rank at) }
        ensures next { result.next ≡ slice_get (marks_after T.rank (T.rank at) (marks_at p.0 self.now)) 0 }
        ensures place { result.place ≡ length (marks_before T.rank (T.rank at) (marks_at p.0 self.now)) }
        ensures row { IsMarkRow T.rank (marks_at p.0 self.now) }
    {
        let initial = self.initial(p);
        match self.row(p) {
            Some(row) => read_row(row, at, near, initial),
            None => Reading {
                mark: None,
                is_current: initial,
                next: None,
                place: 0,
            },
        }
    }

    /// The next time, behind one or the first of all, at which some property has a mark that both initiates and
    /// clashes. It is found at once, however many marks there are.
    pub fn next_clash(&self, after: Option<T>) -> Option<T>
        ensures some { IfSome result (λ at. IsTrue (some_clash_at T.rank (T.rank at) self.now)) }
        ensures behind { IfSome result (λ at. IsTrue (is_behind T.rank after (T.rank at))) }
        ensures least { IfSome result (λ at. (n : ℕ) (t : ℤ) → IsTrue (is_behind T.rank after t) → IsTrue (int_lt t (T.rank at)) → clashes_at T.rank n t self.now ≡ false) }
        ensures none { IfNone result ((n : ℕ) (t : ℤ) → IsTrue (is_behind T.rank after t) → clashes_at T.rank n t self.now ≡ false) }
    {
        match self.clashes.next(after) {
            Some(clash) => Some(clash.at),
            None => None,
        }
    }

    /// The last mark of a property strictly before a time.
    fn last_mark(&self, p: PropId, at: T) -> Option<Mark<T>>
        ensures { option_map (plain_mark T.rank) result ≡ last_mark_before (plain_marks T.rank (marks_at p.0 self.now)) (T.rank at) }
    {
        let row = self.row(p)?;
        last_mark(row, at)
    }

    /// Gives a property a row, if it has none, and makes room in its row for `n` further marks. `Err`: memory ran out,
    /// and the same rows are there.
    pub fn reserve(&mut self, p: PropId, n: usize) -> Result<(), NoMemory>
        ensures room { OnOk result (n ≤ room_at p.0 self.new) }
        ensures row { OnOk result (IsTrue (has_row p.0 self.new)) }
        ensures err { OnErr result (has_row p.0 self.new ≡ has_row p.0 self.old) }
        ensures grown { IsGrown (row_at p.0 self.old) (row_at p.0 self.new) }
        ensures others { (m : ℕ) → m ≢ p.0 → row_at m self.new ≡ row_at m self.old }
        ensures initials { self.new.initials ≡ self.old.initials }
        ensures clash_room { self.new.clash_room ≡ self.old.clash_room }
    {
        reserve_in(self.alloc, &mut self.rows, p, n)
    }

    /// Makes room for `n` further marks that both initiate and clash, whichever properties they are of. `Err`: memory
    /// ran out.
    pub fn reserve_clashes(&mut self, n: usize) -> Result<(), NoMemory>
        ensures room { OnOk result (n ≤ self.new.clash_room) }
        ensures grown { self.old.clash_room ≤ self.new.clash_room }
        ensures rows { self.new.rows ≡ self.old.rows }
        ensures initials { self.new.initials ≡ self.old.initials }
    {
        self.clashes.reserve(n)
    }

    /// Adds a mark of a property behind all its others, one that does not both initiate and clash; the property gets a
    /// row, if it has none. `Err`: memory ran out, and the same rows are there with the same marks.
    pub fn push(&mut self, p: PropId, mark: Mark<T>) -> Result<(), NoMemory>
        requires counted { IsTrue (is_counted mark) }
        requires last { IsTrue (are_before T.rank (marks_at p.0 self.old) mark) }
        requires no_clash { is_clash mark ≡ false }
        ensures ok { OnOk result (marks_at p.0 self.new ≡ marks_at p.0 self.old ++ mark ∷ []) }
        ensures err { OnErr result (marks_at p.0 self.new ≡ marks_at p.0 self.old) }
        ensures row { OnErr result (has_row p.0 self.new ≡ has_row p.0 self.old) }
        ensures room { room_at p.0 self.old ≤ room_at p.0 self.new + 1 }
        ensures others { (m : ℕ) → m ≢ p.0 → row_at m self.new ≡ row_at m self.old }
        ensures initials { self.new.initials ≡ self.old.initials }
        ensures clash_room { self.new.clash_room ≡ self.old.clash_room }
    {
        push_in(self.alloc, &mut self.rows, p, mark)
    }

    /// Puts each new mark of a change in place of the mark of its property at its time. Three zeros take that mark
    /// out, if it is there; a row that loses its last mark stays, empty. It takes no memory, and room only for marks
    /// at times at which the property has none, and for marks that both initiate and clash where none did.
    pub fn apply(&mut self, change: &MarkChange<T>)
        requires room { (n : ℕ) → growth_of T.rank n change.now (marks_at n self.old) ≤ room_at n self.old }
        requires clash_room { new_clashes T.rank (λ n t. clashes_at T.rank n t self.old) change.now ≤ self.old.clash_room }
        ensures marks { (n : ℕ) → marks_at n self.new ≡ changed T.rank n change.now (marks_at n self.old) }
        ensures room { (n : ℕ) → room_at n self.old ≤ room_at n self.new + growth_of T.rank n change.now (marks_at n self.old) }
        ensures rows { (n : ℕ) → has_row n self.new ≡ has_row n self.old }
        ensures others { (n : ℕ) → changes_of n change.now ≡ 0 → row_at n self.new ≡ row_at n self.old }
        ensures initials { self.new.initials ≡ self.old.initials }
        ensures clash_room { self.old.clash_room ≤ self.new.clash_room + new_clashes T.rank (λ n t. clashes_at T.rank n t self.old) change.now }
    {
        note_changes(&mut self.clashes, change);
        change_rows(&mut self.rows, change);
    }

    /// Takes all marks of a property out. Its row stays, empty, if it has one. It takes no memory.
    pub fn clear(&mut self, p: PropId)
        ensures marks { marks_at p.0 self.new ≡ [] }
        ensures room { room_at p.0 self.old ≤ room_at p.0 self.new }
        ensures row { has_row p.0 self.new ≡ has_row p.0 self.old }
        ensures others { (n : ℕ) → n ≢ p.0 → row_at n self.new ≡ row_at n self.old }
        ensures initials { self.new.initials ≡ self.old.initials }
        ensures clash_room { self.old.clash_room ≤ self.new.clash_room }
    {
        forget(&mut self.clashes, &self.rows, p);
        clear_in(&mut self.rows, p);
    }
}

impl<T: Moment, M: MarkRow<T>> Current<T> for Points<T, M> {
    ghost is_current = { is_current_at T.rank };

    fn current(&self, p: PropId, at: T) -> bool {
        match self.last_mark(p, at) {
            Some(mark) => mark.inits > 0,
            None => self.initial(p),
        }
    }
}
