//! The intervals of the properties of which marks changed.
ghost use Rattle.std.specs.Prelude.{◌≡◌, ◌≢◌, ℕ, IsTrue, IsFalse, filter, length};
ghost use Rattle.ec_intervals.specs.Table.{row_at};
ghost use Rattle.ec_delta.specs.Touched.{are_once};
ghost use Rattle.ec_apply.specs.Mended.{AreMendable, IsMendable, IsMended, are_moved, is_moved, matters_in};

use ec_delta::{Touched, Touches};
use ec_exclusive::Neighbours;
use ec_intervals::Intervals;
use ec_moment::Moment;
use ec_points::Points;
use ec_rows::{MarkRow, SpanRow};
use ec_terms::PropId;

/// Makes the intervals of a property those that its marks spell, and tells whether they are others now. It takes no memory.
fn mend_row<T: Moment, M: MarkRow<T>, I: SpanRow<T>>(
    intervals: &mut Intervals<T, I>,
    points: &Points<T, M>,
    neighbours: &Neighbours,
    p: PropId,
    touched: &Touched<T>,
) -> bool
    requires { IsMendable T.rank neighbours.now points.now p.0 touched.now intervals.old }
    ensures mended { IsMended T.rank neighbours.now points.now p.0 intervals.new }
    ensures moved { result ≡ are_moved T.rank p.0 intervals.old intervals.new }
    ensures others { (n : ℕ) → n ≢ p.0 → row_at n intervals.new ≡ row_at n intervals.old }
    ensures buffer { intervals.new.buffer ≡ intervals.old.buffer }
{
    match points.row(p) {
        Some(row) => intervals.splice_from(
            p,
            row,
            neighbours.is_strong(p),
            points.initial(p),
            touched.from,
            touched.until,
        ),
        None => unreachable!(),
    }
}

/// Makes the intervals of each touched property that matters those that its marks spell, and counts those properties that
/// have others now. It takes no memory.
pub(crate) fn mend<T: Moment, M: MarkRow<T>, I: SpanRow<T>>(
    intervals: &mut Intervals<T, I>,
    points: &Points<T, M>,
    neighbours: &Neighbours,
    touched: &Touches<T>,
) -> u64
    requires once { IsTrue (are_once touched.now) }
    requires mendable { AreMendable T.rank neighbours.now points.now touched.now intervals.old }
    ensures mended { (n : ℕ) → IsTrue (matters_in n touched.now) → IsMended T.rank neighbours.now points.now n intervals.new }
    ensures others { (n : ℕ) → IsFalse (matters_in n touched.now) → row_at n intervals.new ≡ row_at n intervals.old }
    ensures count { result ≡ length (filter (is_moved T.rank intervals.old intervals.new) touched.now) }
{
    let mut count: u64 = 0;
    for i in 0..touched.len() {
        let (p, row) = touched.row(i);
        if row.matters {
            count += u64::from(mend_row(intervals, points, neighbours, p, &row));
        }
    }
    count
}
