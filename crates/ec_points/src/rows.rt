//! Rows of marks that are kept by the numbers of their properties.
ghost use Rattle.std.specs.Prelude.{◌≡◌, ◌≢◌, ℕ, ◌+◌, ◌≤◌, ◌++◌, ◌∷◌, [], IsTrue, IfOk, OnOk, OnErr, is_some, if◌then◌else◌};
ghost use Rattle.ec_numbered.specs.ByNumber.{kept_at};
ghost use Rattle.ec_numbered.specs.PropSet.{has_number};
ghost use Rattle.ec_rows.specs.Marks.{are_before, is_counted};
ghost use Rattle.ec_points.specs.Changes.{changed, count_of as changes_of, growth_of, is_new, with_change};
ghost use Rattle.ec_points.specs.SeenRows.{IsGrown, seen_at};
ghost use Rattle.ec_points.specs.Table.{marks_in, room_in};

use crate::change::MarkChange;
use crate::row::{change_row, clear_row};
use ec_lists::NoMemory;
use ec_moment::Moment;
use ec_numbered::ByNumber;
use ec_rows::{Mark, MarkRow};
use ec_terms::PropId;
use std::alloc::Global;

/// Makes room for `n` further marks of `p`, which gets a row of no marks where it has none. A refusal leaves the same
/// rows.
pub(crate) fn reserve_in<T: Moment, M: MarkRow<T>>(
    alloc: Global,
    rows: &mut ByNumber<M>,
    p: PropId,
    n: usize,
) -> Result<(), NoMemory>
    ensures others { (m : ℕ) → m ≢ p.0 → kept_at m rows.new ≡ kept_at m rows.old }
    ensures grown { IsGrown (seen_at M.marks M.spare p.0 rows.old) (seen_at M.marks M.spare p.0 rows.new) }
    ensures row { OnOk result (IsTrue (is_some (kept_at p.0 rows.new))) }
    ensures room { OnOk result (n ≤ room_in (seen_at M.marks M.spare p.0 rows.new)) }
    ensures err { OnErr result (is_some (kept_at p.0 rows.new) ≡ is_some (kept_at p.0 rows.old)) }
{
    if let Some(row) = rows.get_mut(p) {
        return row.reserve(n);
    }
    rows.place(p)?;
    let mut row = M::new(alloc)?;
    row.reserve(n)?;
    rows.set(p, row);
    Ok(())
}

/// Adds a mark of `p` behind all its others; `p` gets a row where it has none. A refusal leaves the same rows.
pub(crate) fn push_in<T: Moment, M: MarkRow<T>>(
    alloc: Global,
    rows: &mut ByNumber<M>,
    p: PropId,
    mark: Mark<T>,
) -> Result<(), NoMemory>
    requires counted { IsTrue (is_counted mark) }
    requires last { IsTrue (are_before T.rank (marks_in (seen_at M.marks M.spare p.0 rows.old)) mark) }
    ensures others { (m : ℕ) → m ≢ p.0 → kept_at m rows.new ≡ kept_at m rows.old }
    ensures ok { OnOk result (marks_in (seen_at M.marks M.spare p.0 rows.new) ≡ marks_in (seen_at M.marks M.spare p.0 rows.old) ++ mark ∷ []) }
    ensures err { OnErr result (marks_in (seen_at M.marks M.spare p.0 rows.new) ≡ marks_in (seen_at M.marks M.spare p.0 rows.old)) }
    ensures room { room_in (seen_at M.marks M.spare p.0 rows.old) ≤ room_in (seen_at M.marks M.spare p.0 rows.new) + 1 }
    ensures there { OnErr result (is_some (kept_at p.0 rows.new) ≡ is_some (kept_at p.0 rows.old)) }
{
    if let Some(row) = rows.get_mut(p) {
        return row.push(mark);
    }
    rows.place(p)?;
    let mut row = M::new(alloc)?;
    row.push(mark)?;
    rows.set(p, row);
    Ok(())
}

/// Rows of no marks, one for each of `props`.
pub(crate) fn empty_rows<T: Moment, M: MarkRow<T>>(
    alloc: Global,
    props: &[PropId],
) -> Result<ByNumber<M>, NoMemory>
    ensures rows { IfOk result (λ rows. (n : ℕ) → is_some (kept_at n rows) ≡ has_number n props.now) }
    ensures marks { IfOk result (λ rows. (n : ℕ) → marks_in (seen_at M.marks M.spare n rows) ≡ []) }
{
    let mut rows = ByNumber::new(alloc);
    for p in props {
        reserve_in(alloc, &mut rows, *p, 0)?;
    }
    Ok(rows)
}

/// Puts a mark into the row of `p`, in place of the one at its time; three zeros take that one out.
fn change_in<T: Moment, M: MarkRow<T>>(
    rows: &mut ByNumber<M>,
    p: PropId,
    mark: Mark<T>,
    near: usize,
)
    requires room { (if is_new T.rank (marks_in (seen_at M.marks M.spare p.0 rows.old)) mark then 1 else 0) ≤ room_in (seen_at M.marks M.spare p.0 rows.old) }
    ensures others { (n : ℕ) → n ≢ p.0 → kept_at n rows.new ≡ kept_at n rows.old }
    ensures there { is_some (kept_at p.0 rows.new) ≡ is_some (kept_at p.0 rows.old) }
    ensures marks { marks_in (seen_at M.marks M.spare p.0 rows.new) ≡ with_change T.rank mark (marks_in (seen_at M.marks M.spare p.0 rows.old)) }
    ensures room { room_in (seen_at M.marks M.spare p.0 rows.old) ≤ room_in (seen_at M.marks M.spare p.0 rows.new) + (if is_new T.rank (marks_in (seen_at M.marks M.spare p.0 rows.old)) mark then 1 else 0) }
{
    if let Some(row) = rows.get_mut(p) {
        change_row(row, mark, near);
    }
}

/// Puts each new mark of a change into the row of its property.
pub(crate) fn change_rows<T: Moment, M: MarkRow<T>>(rows: &mut ByNumber<M>, change: &MarkChange<T>)
    requires room { (n : ℕ) → growth_of T.rank n change.now (marks_in (seen_at M.marks M.spare n rows.old)) ≤ room_in (seen_at M.marks M.spare n rows.old) }
    ensures marks { (n : ℕ) → marks_in (seen_at M.marks M.spare n rows.new) ≡ changed T.rank n change.now (marks_in (seen_at M.marks M.spare n rows.old)) }
    ensures room { (n : ℕ) → room_in (seen_at M.marks M.spare n rows.old) ≤ room_in (seen_at M.marks M.spare n rows.new) + growth_of T.rank n change.now (marks_in (seen_at M.marks M.spare n rows.old)) }
    ensures there { (n : ℕ) → is_some (kept_at n rows.new) ≡ is_some (kept_at n rows.old) }
    ensures others { (n : ℕ) → changes_of n change.now ≡ 0 → seen_at M.marks M.spare n rows.new ≡ seen_at M.marks M.spare n rows.old }
{
    for i in 0..change.len() {
        let (p, mark) = *change.get(i);
        change_in(rows, p, mark, change.near(i));
    }
}

/// Takes all marks out of the row of `p`, if it has one.
pub(crate) fn clear_in<T: Moment, M: MarkRow<T>>(rows: &mut ByNumber<M>, p: PropId)
    ensures others { (n : ℕ) → n ≢ p.0 → kept_at n rows.new ≡ kept_at n rows.old }
    ensures there { is_some (kept_at p.0 rows.new) ≡ is_some (kept_at p.0 rows.old) }
    ensures marks { marks_in (seen_at M.marks M.spare p.0 rows.new) ≡ [] }
    ensures room { room_in (seen_at M.marks M.spare p.0 rows.old) ≤ room_in (seen_at M.marks M.spare p.0 rows.new) }
{
    if let Some(row) = rows.get_mut(p) {
        clear_row(row);
    }
}
