ghost use Rattle.std.specs.Prelude.{◌≡◌, ◌++◌, ◌∷◌, [], ◌+◌, ◌-◌, ◌<◌, ◌≤◌, IsTrue, Some, OnOk, OnErr, length, if◌then◌else◌, vec_len, slice_get};
ghost use Rattle.std.specs.List.{remove};
ghost use Rattle.std.specs.Vec.{vec_capacity};
ghost use Rattle.ec_rows.specs.Marks.{IsMarkRow, is_counted, are_before, has_mark, with_mark, marks_before, mark_at};

use crate::edits::insert_within;
use crate::mark::Mark;
use crate::mark_row::MarkRow;
use crate::search::{count_before, count_up_to, place_of};
use ec_lists::NoMemory;
use ec_moment::Moment;
use std::alloc::Global;
use std::marker::Model;

/// A row of marks in one `Vec`.
#[derive(Drop)]
pub struct VecMarks<T: Moment> {
    marks: Vec<Mark<T>>,
}

impl<T: Moment> Model for VecMarks<T> {
    ghost use Rattle.std.specs.Prelude.{◌-◌, vec_len};
    ghost use Rattle.std.specs.Vec.{vec_capacity};
    ghost use Rattle.ec_rows.specs.declared.mark.Mark.{Mark};
    ghost use Rattle.ec_lists.specs.Reserved.{Reserved};
    ghost use Rattle.ec_rows.specs.Marks.{IsMarkRow};

    ghost Value = { Reserved (Mark T) };

    ghost view = { λ row. record { items = row.marks.items; spare = vec_capacity row.marks - vec_len row.marks } };

    ghost invariant = { λ row. IsMarkRow T.rank row.marks.items };
}

impl<T: Moment> MarkRow<T> for VecMarks<T> {
    ghost marks = { λ row. row.items };

    ghost spare = { λ row. row.spare };

    fn new(alloc: Global) -> Result<Self, NoMemory> {
        Ok(VecMarks {
            marks: Vec::new(alloc),
        })
    }

    fn len(&self) -> usize {
        self.marks.len()
    }

    fn reserve(&mut self, n: usize) -> Result<(), NoMemory> {
        self.marks.reserve(n)?;
        Ok(())
    }

    fn get(&self, i: usize) -> Mark<T> {
        self.marks[i]
    }

    fn run(&self, i: usize) -> &[Mark<T>] {
        &self.marks[i..]
    }

    fn count_before(&self, at: T, _near: usize) -> usize {
        count_marks_before(&self.marks, at)
    }

    fn mark_at(&self, at: T) -> Option<Mark<T>> {
        find_mark(&self.marks, at)
    }

    fn last_before(&self, at: T) -> Option<usize> {
        count_before(&self.marks, at).checked_sub(1)
    }

    fn next_after(&self, at: T) -> Option<usize> {
        let place = count_up_to(&self.marks, at);
        if place < self.marks.len() {
            Some(place)
        } else {
            None
        }
    }

    fn put(&mut self, mark: Mark<T>)
        requires counted { IsTrue (is_counted mark) }
        requires room { (if has_mark T.rank (T.rank mark.at) self.old.items then 0 else 1) ≤ self.old.spare }
        ensures marks { self.new.items ≡ with_mark T.rank mark self.old.items }
        ensures spare { self.old.spare ≤ self.new.spare + (if has_mark T.rank (T.rank mark.at) self.old.items then 0 else 1) }
        ensures row { IsMarkRow T.rank self.new.items }
    {
        put_mark(&mut self.marks, mark);
    }

    fn push(&mut self, mark: Mark<T>) -> Result<(), NoMemory>
        requires counted { IsTrue (is_counted mark) }
        requires last { IsTrue (are_before T.rank self.old.items mark) }
        ensures ok { OnOk result (self.new.items ≡ self.old.items ++ mark ∷ []) }
        ensures err { OnErr result (self.new.items ≡ self.old.items) }
        ensures spare { self.old.spare ≤ self.new.spare + 1 }
        ensures same_spare { OnErr result (self.old.spare ≤ self.new.spare) }
        ensures row { IsMarkRow T.rank self.new.items }
    {
        self.marks.push(mark)?;
        Ok(())
    }

    fn take_out(&mut self, i: usize) -> Mark<T> {
        take_out_mark(&mut self.marks, i)
    }
}

/// How many marks are before a time.
fn count_marks_before<T: Moment>(marks: &[Mark<T>], at: T) -> usize
    requires { IsMarkRow T.rank marks.now }
    ensures { result ≡ length (marks_before T.rank (T.rank at) marks.now) }
{
    count_before(marks, at)
}

/// The mark at a time.
fn find_mark<T: Moment>(marks: &[Mark<T>], at: T) -> Option<Mark<T>>
    requires { IsMarkRow T.rank marks.now }
    ensures { result ≡ mark_at T.rank (T.rank at) marks.now }
{
    match place_of(marks, at) {
        Ok(place) => Some(marks[place]),
        Err(_) => None,
    }
}

/// Puts a mark at its time, in place of the mark that is there. Where none is, there is room for it.
fn put_mark<T: Moment>(marks: &mut Vec<Mark<T>>, mark: Mark<T>)
    requires row { IsMarkRow T.rank marks.old.items }
    requires counted { IsTrue (is_counted mark) }
    requires room { (if has_mark T.rank (T.rank mark.at) marks.old.items then 0 else 1) ≤ vec_capacity marks.old - vec_len marks.old }
    ensures marks { marks.new.items ≡ with_mark T.rank mark marks.old.items }
    ensures row { IsMarkRow T.rank marks.new.items }
    ensures len { vec_len marks.new ≡ vec_len marks.old + (if has_mark T.rank (T.rank mark.at) marks.old.items then 0 else 1) }
    ensures capacity { vec_capacity marks.new ≡ vec_capacity marks.old }
{
    match place_of(marks, mark.at) {
        Ok(place) => marks[place] = mark,
        Err(place) => insert_within(marks, place, mark),
    }
}

/// Takes out the mark at a place.
fn take_out_mark<T: Moment>(marks: &mut Vec<Mark<T>>, i: usize) -> Mark<T>
    requires row { IsMarkRow T.rank marks.old.items }
    requires within { i < vec_len marks.old }
    ensures mark { slice_get marks.old.items i ≡ Some result }
    ensures marks { marks.new.items ≡ remove marks.old.items i }
    ensures row { IsMarkRow T.rank marks.new.items }
    ensures len { vec_len marks.new + 1 ≡ vec_len marks.old }
    ensures capacity { vec_capacity marks.new ≡ vec_capacity marks.old }
{
    marks.remove(i)
}
