ghost use Rattle.std.specs.Prelude.{◌≡◌, ◌+◌, ◌-◌, ◌<◌, ◌≤◌, ◌++◌, ◌∷◌, ℕ, List, [], IsTrue, Some, IfSome, IfNone, IfOk, OnOk, OnErr, length, take, drop, slice_get, if◌then◌else◌};
ghost use Rattle.std.specs.List.{remove};
ghost use Rattle.ec_rows.specs.declared.mark.Mark.{Mark};
ghost use Rattle.ec_rows.specs.Marks.{IsMarkRow, is_counted, marks_before, marks_after, mark_at, has_mark, with_mark, are_before};

use crate::mark::Mark;
use ec_lists::NoMemory;
use ec_moment::Moment;
use std::alloc::Global;

/// The marks of one property: a list in the order of their times, at each time one mark at the most and
/// none whose counts are all zero.
pub trait MarkRow<T: Moment>: Drop {
    // The marks, in the order of their times.
    ghost marks: { Self → List (Mark T) };

    // How many further marks the row takes without memory.
    ghost spare: { Self → ℕ };

    /// The row of no marks.
    fn new(alloc: Global) -> Result<Self, NoMemory>
        ensures { IfOk result (λ row. marks row ≡ []) };

    /// How many marks there are.
    fn len(&self) -> usize
        ensures len { result ≡ length (marks self.now) }
        ensures row { IsMarkRow T.rank (marks self.now) };

    /// Makes room for `n` further marks. A refusal leaves all as it was.
    fn reserve(&mut self, n: usize) -> Result<(), NoMemory>
        ensures same { marks self.new ≡ marks self.old }
        ensures ok { OnOk result (n ≤ spare self.new) }
        ensures kept { spare self.old ≤ spare self.new };

    /// The mark at a place, from 0.
    fn get(&self, i: usize) -> Mark<T>
        requires { i < length (marks self.now) }
        ensures mark { slice_get (marks self.now) i ≡ Some result }
        ensures row { IsMarkRow T.rank (marks self.now) };

    /// The marks from a place on that lie together in memory. A walk by runs reads each mark once, and
    /// searches once a run.
    fn run(&self, i: usize) -> &[Mark<T>]
        requires { i < length (marks self.now) }
        ensures some { 1 ≤ length result.now }
        ensures run { result.now ≡ take (length result.now) (drop i (marks self.now)) }
        ensures row { IsMarkRow T.rank (marks self.now) };

    /// How many marks are strictly before a time. `near` is a place to look at first; it doesn't change
    /// the answer.
    fn count_before(&self, at: T, near: usize) -> usize
        ensures count { result ≡ length (marks_before T.rank (T.rank at) (marks self.now)) }
        ensures row { IsMarkRow T.rank (marks self.now) };

    /// The mark at a time. `None` where no mark is at it.
    fn mark_at(&self, at: T) -> Option<Mark<T>>
        ensures mark { result ≡ mark_at T.rank (T.rank at) (marks self.now) }
        ensures row { IsMarkRow T.rank (marks self.now) };

    /// The place of the last mark strictly before a time. `None` where no mark is before it.
    fn last_before(&self, at: T) -> Option<usize>
        ensures within { IfSome result (λ i. i < length (marks self.now)) }
        ensures last { IfSome result (λ i. marks_before T.rank (T.rank at) (marks self.now) ≡ take (i + 1) (marks self.now)) }
        ensures none { IfNone result (marks_before T.rank (T.rank at) (marks self.now) ≡ []) }
        ensures row { IsMarkRow T.rank (marks self.now) };

    /// The place of the first mark strictly after a time. `None` where no mark is after it.
    fn next_after(&self, at: T) -> Option<usize>
        ensures within { IfSome result (λ i. i < length (marks self.now)) }
        ensures next { IfSome result (λ i. marks_after T.rank (T.rank at) (marks self.now) ≡ drop i (marks self.now)) }
        ensures none { IfNone result (marks_after T.rank (T.rank at) (marks self.now) ≡ []) }
        ensures row { IsMarkRow T.rank (marks self.now) };

    /// Puts a mark at its time, in place of the mark that is there. It takes no memory, and room for one
    /// mark only where none is there yet.
    fn put(&mut self, mark: Mark<T>)
        requires counted { IsTrue (is_counted mark) }
        requires room { (if has_mark T.rank (T.rank mark.at) (marks self.old) then 0 else 1) ≤ spare self.old }
        ensures marks { marks self.new ≡ with_mark T.rank mark (marks self.old) }
        ensures spare { spare self.old ≤ spare self.new + (if has_mark T.rank (T.rank mark.at) (marks self.old) then 0 else 1) }
        ensures row { IsMarkRow T.rank (marks self.new) };

    /// Adds a mark behind all others. `Err`: memory ran out, and all is as it was.
    fn push(&mut self, mark: Mark<T>) -> Result<(), NoMemory>
        requires counted { IsTrue (is_counted mark) }
        requires last { IsTrue (are_before T.rank (marks self.old) mark) }
        ensures ok { OnOk result (marks self.new ≡ marks self.old ++ mark ∷ []) }
        ensures err { OnErr result (marks self.new ≡ marks self.old) }
        ensures spare { spare self.old ≤ spare self.new + 1 }
        ensures same_spare { OnErr result (spare self.old ≤ spare self.new) }
        ensures row { IsMarkRow T.rank (marks self.new) };

    /// Takes out the mark at a place.
    fn take_out(&mut self, i: usize) -> Mark<T>
        requires { i < length (marks self.old) }
        ensures mark { slice_get (marks self.old) i ≡ Some result }
        ensures marks { marks self.new ≡ remove (marks self.old) i }
        ensures spare { spare self.old ≤ spare self.new }
        ensures row { IsMarkRow T.rank (marks self.new) };
}
