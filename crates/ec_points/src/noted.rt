//! What changes of marks do to the list of clashes.
ghost use Rattle.std.specs.Prelude.{◌≡◌, ◌+◌, ◌≤◌, ◌&&◌, ◌==◌, ℕ, ℤ, IsTrue, false, not, if◌then◌else◌};
ghost use Rattle.std.specs.Ordering.{int_eq};
ghost use Rattle.ec_rows.specs.Marks.{has_mark};
ghost use Rattle.ec_points.specs.Changes.{are_all_apart, change_at};
ghost use Rattle.ec_points.specs.Clashes.{clash_made, has_clash, is_clash, new_clashes, IsKnown};
ghost use Rattle.ec_points.specs.SeenRows.{seen_at};
ghost use Rattle.ec_points.specs.Table.{marks_in};

use crate::change::MarkChange;
use crate::clashes::Clashes;
use ec_moment::Moment;
use ec_numbered::ByNumber;
use ec_rows::{Mark, MarkRow};
use ec_terms::PropId;

/// Whether a mark both initiates and clashes.
fn clashes<T: Moment>(mark: Mark<T>) -> bool
    ensures { result ≡ is_clash mark }
{
    mark.inits > 0 && mark.clashes > 0
}

/// Whether nothing clashes at a time. `known` is a time that was looked at before, and whether nothing clashes there.
fn is_calm<T: Moment>(noted: &Clashes<T>, known: Option<(T, bool)>, at: T) -> bool
    requires { IsKnown T.rank known noted.now.items }
    ensures { IsTrue result → (n : ℕ) → has_clash T.rank n (T.rank at) noted.now.items ≡ false }
{
    if let Some((time, calm)) = known {
        if time.order(&at).is_eq() {
            return calm;
        }
    }
    noted.is_calm(at)
}

/// Notes whether a property clashes at the time of a mark that it gets. `known` is a time that was looked at before, and
/// whether nothing clashes there; the same of the mark's time is the result. Where nothing does, none is looked for.
fn note<T: Moment>(
    noted: &mut Clashes<T>,
    p: PropId,
    mark: Mark<T>,
    known: Option<(T, bool)>,
) -> Option<(T, bool)>
    requires room { (if is_clash mark && not (has_clash T.rank p.0 (T.rank mark.at) noted.old.items) then 1 else 0) ≤ noted.old.spare }
    requires known { IsKnown T.rank known noted.old.items }
    ensures has { (n : ℕ) (t : ℤ) → has_clash T.rank n t noted.new.items ≡ (if (p.0 == n) && int_eq (T.rank mark.at) t then is_clash mark else has_clash T.rank n t noted.old.items) }
    ensures spare { noted.old.spare ≤ noted.new.spare + (if is_clash mark && not (has_clash T.rank p.0 (T.rank mark.at) noted.old.items) then 1 else 0) }
    ensures known { IsKnown T.rank result noted.new.items }
{
    if clashes(mark) {
        noted.put(mark.at, p);
        return Some((mark.at, false));
    }
    if is_calm(noted, known, mark.at) {
        return Some((mark.at, true));
    }
    noted.take_out(mark.at, p);
    Some((mark.at, false))
}

/// Notes what each new mark of a change says of clashes.
pub(crate) fn note_changes<T: Moment>(noted: &mut Clashes<T>, change: &MarkChange<T>)
    requires { new_clashes T.rank (λ n t. has_clash T.rank n t noted.old.items) change.now ≤ noted.old.spare }
    ensures has { (n : ℕ) (t : ℤ) → has_clash T.rank n t noted.new.items ≡ clash_made (change_at T.rank n t change.now) (has_clash T.rank n t noted.old.items) }
    ensures apart { IsTrue (are_all_apart T.rank change.now) }
    ensures spare { noted.old.spare ≤ noted.new.spare + new_clashes T.rank (λ n t. has_clash T.rank n t noted.old.items) change.now }
{
    let mut known = None;
    for i in 0..change.len() {
        let (p, mark) = *change.get(i);
        known = note(noted, p, mark, known);
    }
}

/// Takes out the clashes of `p` at the times of the marks of a row.
fn forget_row<T: Moment, M: MarkRow<T>>(noted: &mut Clashes<T>, row: &M, p: PropId)
    ensures has { (n : ℕ) (t : ℤ) → has_clash T.rank n t noted.new.items ≡ (not ((p.0 == n) && has_mark T.rank t (M.marks row.now)) && has_clash T.rank n t noted.old.items) }
    ensures spare { noted.old.spare ≤ noted.new.spare }
{
    for i in 0..row.len() {
        noted.take_out(row.get(i).at, p);
    }
}

/// Takes out the clashes of `p` at the times of its marks.
pub(crate) fn forget<T: Moment, M: MarkRow<T>>(
    noted: &mut Clashes<T>,
    rows: &ByNumber<M>,
    p: PropId,
)
    ensures has { (n : ℕ) (t : ℤ) → has_clash T.rank n t noted.new.items ≡ (not ((p.0 == n) && has_mark T.rank t (marks_in (seen_at M.marks M.spare p.0 rows.now))) && has_clash T.rank n t noted.old.items) }
    ensures spare { noted.old.spare ≤ noted.new.spare }
{
    if let Some(row) = rows.get(p) {
        forget_row(noted, row, p);
    }
}
