//! Places in an ordered row in blocks, found by binary search.
ghost use Rattle.std.specs.Prelude.{◌≡◌, ◌+◌, ◌<◌, ◌≤◌, IsTrue, true, false, IfOk, IfErr, OnOk, OnErr, length, take, drop, int_lt, int_le};
ghost use Rattle.std.specs.List.{HoldsAt};
ghost use Rattle.std.specs.List.Sorted.{IsPartitionPoint};
ghost use Rattle.std.specs.Ordering.{int_eq};
ghost use Rattle.ec_rows.specs.Ordered.{is_ascending, by_time, members_before, members_from, members_up_to, members_after, has_member};

use ec_blocks::Blocks;
use ec_lists::Copied;
use ec_moment::Moment;
use ec_rows::Timed;

/// In place of a place to look at first: none.
pub(crate) const ANYWHERE: usize = usize::MAX;

/// How many members of an ordered row stand before a time. `near` is a place to look at first.
pub(crate) fn count_before<T: Moment, X: Timed<T> + Copied + Drop>(
    row: &Blocks<X>,
    at: T,
    near: usize,
) -> usize
    requires { IsTrue (is_ascending (by_time T.rank X.time) row.now.items) }
    ensures within { result ≤ length row.now.items }
    ensures cut { IsPartitionPoint (λ x. int_lt (T.rank (X.time x)) (T.rank at) ≡ true) (λ x. int_lt (T.rank (X.time x)) (T.rank at) ≡ false) row.now.items result }
    ensures before { take result row.now.items ≡ members_before T.rank X.time (T.rank at) row.now.items }
    ensures rest { drop result row.now.items ≡ members_from T.rank X.time (T.rank at) row.now.items }
{
    row.partition_near(
        near,
        |member| -> bool
            ensures { result ≡ int_lt (T.rank (X.time member.now)) (T.rank at) }
        { member.time().order(&at).is_lt() },
    )
}

/// How many members of an ordered row stand up to a time and at it.
pub(crate) fn count_up_to<T: Moment, X: Timed<T> + Copied + Drop>(row: &Blocks<X>, at: T) -> usize
    requires { IsTrue (is_ascending (by_time T.rank X.time) row.now.items) }
    ensures within { result ≤ length row.now.items }
    ensures up_to { take result row.now.items ≡ members_up_to T.rank X.time (T.rank at) row.now.items }
    ensures rest { drop result row.now.items ≡ members_after T.rank X.time (T.rank at) row.now.items }
{
    row.partition_point(
        |member| -> bool
            ensures { result ≡ int_le (T.rank (X.time member.now)) (T.rank at) }
        { member.time().order(&at).is_le() },
    )
}

/// Whether a member stands at a time.
fn is_at<T: Moment, X: Timed<T>>(member: &X, at: T) -> bool
    ensures { result ≡ int_eq (T.rank (X.time member.now)) (T.rank at) }
{
    member.time().order(&at).is_eq()
}

/// The place of the member at a time, or, as an error, the place that a member at this time would take.
pub(crate) fn place_of<T: Moment, X: Timed<T> + Copied + Drop>(
    row: &Blocks<X>,
    at: T,
) -> Result<usize, usize>
    requires { IsTrue (is_ascending (by_time T.rank X.time) row.now.items) }
    ensures found { IfOk result (λ i. i < length row.now.items) }
    ensures present { OnOk result (IsTrue (has_member T.rank X.time (T.rank at) row.now.items)) }
    ensures at { IfOk result (λ i. HoldsAt (λ x. int_eq (T.rank (X.time x)) (T.rank at) ≡ true) row.now.items i) }
    ensures cut { IfOk result (λ i. IsPartitionPoint (λ x. int_lt (T.rank (X.time x)) (T.rank at) ≡ true) (λ x. int_lt (T.rank (X.time x)) (T.rank at) ≡ false) row.now.items i) }
    ensures before { IfOk result (λ i. take i row.now.items ≡ members_before T.rank X.time (T.rank at) row.now.items) }
    ensures after { IfOk result (λ i. drop (i + 1) row.now.items ≡ members_after T.rank X.time (T.rank at) row.now.items) }
    ensures absent { OnErr result (has_member T.rank X.time (T.rank at) row.now.items ≡ false) }
    ensures within { IfErr result (λ i. i ≤ length row.now.items) }
    ensures in_front { IfErr result (λ i. take i row.now.items ≡ members_before T.rank X.time (T.rank at) row.now.items) }
    ensures behind { IfErr result (λ i. drop i row.now.items ≡ members_after T.rank X.time (T.rank at) row.now.items) }
{
    let place = count_before(row, at, ANYWHERE);
    if place == row.len() {
        return Err(place);
    }
    if is_at(row.get(place), at) {
        Ok(place)
    } else {
        Err(place)
    }
}
