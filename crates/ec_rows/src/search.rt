//! Places in an ordered row, found by binary search.
ghost use Rattle.std.specs.Prelude.{◌≡◌, ◌+◌, ◌<◌, ◌≤◌, IsTrue, true, false, IfOk, IfErr, OnOk, OnErr, length, take, drop, int_lt, int_le};
ghost use Rattle.std.specs.List.{HoldsAt};
ghost use Rattle.std.specs.List.Sorted.{IsPartitionPoint};
ghost use Rattle.std.specs.Ordering.{int_eq};
ghost use Rattle.ec_rows.specs.Ordered.{is_ascending, by_time, members_before, members_from, members_up_to, members_after, has_member};

use ec_moment::Moment;

/// A member of a row, which stands in it at a time: a mark at its own, a span at its start.
pub trait Timed<T: Moment> {
    // The time of the member.
    ghost time: { Self → T };

    /// The time of the member.
    fn time(&self) -> T
        ensures { result ≡ time self.now };
}

/// How many members of an ordered row stand before a time.
pub(crate) fn count_before<T: Moment, X: Timed<T>>(row: &[X], at: T) -> usize
    requires { IsTrue (is_ascending (by_time T.rank X.time) row.now) }
    ensures within { result ≤ length row.now }
    ensures cut { IsPartitionPoint (λ x. int_lt (T.rank (X.time x)) (T.rank at) ≡ true) (λ x. int_lt (T.rank (X.time x)) (T.rank at) ≡ false) row.now result }
    ensures before { take result row.now ≡ members_before T.rank X.time (T.rank at) row.now }
    ensures rest { drop result row.now ≡ members_from T.rank X.time (T.rank at) row.now }
{
    row.partition_point(
        |member| -> bool
            ensures { result ≡ int_lt (T.rank (X.time member.now)) (T.rank at) }
        { member.time().order(&at).is_lt() },
    )
}

/// How many members of an ordered row stand up to a time and at it.
pub(crate) fn count_up_to<T: Moment, X: Timed<T>>(row: &[X], at: T) -> usize
    requires { IsTrue (is_ascending (by_time T.rank X.time) row.now) }
    ensures within { result ≤ length row.now }
    ensures up_to { take result row.now ≡ members_up_to T.rank X.time (T.rank at) row.now }
    ensures rest { drop result row.now ≡ members_after T.rank X.time (T.rank at) row.now }
{
    row.partition_point(
        |member| -> bool
            ensures { result ≡ int_le (T.rank (X.time member.now)) (T.rank at) }
        { member.time().order(&at).is_le() },
    )
}

/// Whether a member stands at a time.
fn is_at<T: Moment, X: Timed<T>>(member: &X, at: T) -> bool
    ensures { result ≡ int_eq (T.rank (X.time member.now)) (T.rank at) }
{
    member.time().order(&at).is_eq()
}

/// The place of the member at a time, or, as an error, the place that a member at this time would take.
pub(crate) fn place_of<T: Moment, X: Timed<T>>(row: &[X], at: T) -> Result<usize, usize>
    requires { IsTrue (is_ascending (by_time T.rank X.time) row.now) }
    ensures found { IfOk result (λ i. i < length row.now) }
    ensures present { OnOk result (IsTrue (has_member T.rank X.time (T.rank at) row.now)) }
    ensures at { IfOk result (λ i. HoldsAt (λ x. int_eq (T.rank (X.time x)) (T.rank at) ≡ true) row.now i) }
    ensures cut { IfOk result (λ i. IsPartitionPoint (λ x. int_lt (T.rank (X.time x)) (T.rank at) ≡ true) (λ x. int_lt (T.rank (X.time x)) (T.rank at) ≡ false) row.now i) }
    ensures before { IfOk result (λ i. take i row.now ≡ members_before T.rank X.time (T.rank at) row.now) }
    ensures after { IfOk result (λ i. drop (i + 1) row.now ≡ members_after T.rank X.time (T.rank at) row.now) }
    ensures absent { OnErr result (has_member T.rank X.time (T.rank at) row.now ≡ false) }
    ensures within { IfErr result (λ i. i ≤ length row.now) }
    ensures in_front { IfErr result (λ i. take i row.now ≡ members_before T.rank X.time (T.rank at) row.now) }
    ensures behind { IfErr result (λ i. drop i row.now ≡ members_after T.rank X.time (T.rank at) row.now) }
{
    let place = count_before(row, at);
    if place == row.len() {
        return Err(place);
    }
    if is_at(&row[place], at) {
        Ok(place)
    } else {
        Err(place)
    }
}
