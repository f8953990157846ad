//! The place of a due property in a list that is in order.
ghost use Rattle.std.specs.Prelude.{◌≡◌, ◌≤◌, IsTrue, IfSome, true, false, not, is_some, length};
ghost use Rattle.std.specs.List.{insert};
ghost use Rattle.std.specs.List.Sorted.{IsPartitionPoint};
ghost use Rattle.ec_numbered.specs.Due.{are_in_order, comes_before, has_due, is_due, with_due};

use ec_moment::Moment;
use ec_terms::PropId;
use std::collections::VecDeque;

/// Whether a due property comes before a property at a time.
fn is_before<T: Moment>(due: &(T, PropId), at: T, p: PropId) -> bool
    ensures { result ≡ comes_before T.rank due.now (at, p) }
{
    let order = due.0.order(&at);
    order.is_lt() || (order.is_eq() && due.1.0 < p.0)
}

/// Whether a due property is a property at a time.
fn is_same<T: Moment>(due: &(T, PropId), at: T, p: PropId) -> bool
    ensures { result ≡ is_due T.rank (T.rank at) p.0 due.now }
{
    due.0.order(&at).is_eq() && due.1.0 == p.0
}

/// How many come before a property at a time.
fn count_before<T: Moment>(dues: &VecDeque<(T, PropId)>, at: T, p: PropId) -> usize
    requires { IsTrue (are_in_order T.rank dues.now.items) }
    ensures within { result ≤ length dues.now.items }
    ensures cut { IsPartitionPoint (λ x. comes_before T.rank x (at, p) ≡ true) (λ x. comes_before T.rank x (at, p) ≡ false) dues.now.items result }
{
    dues.partition_point(
        |due| -> bool
            ensures { result ≡ comes_before T.rank due.now (at, p) }
        { is_before(due, at, p) },
    )
}

/// The place that a property at a time would take. `None` exactly when it is there already.
pub(crate) fn free_place<T: Moment>(dues: &VecDeque<(T, PropId)>, at: T, p: PropId) -> Option<usize>
    requires { IsTrue (are_in_order T.rank dues.now.items) }
    ensures some { is_some result ≡ not (has_due T.rank (T.rank at) p.0 dues.now.items) }
    ensures within { IfSome result (λ i. i ≤ length dues.now.items) }
    ensures inserted { IfSome result (λ i. insert dues.now.items i (at, p) ≡ with_due T.rank (at, p) dues.now.items) }
{
    let place = count_before(dues, at, p);
    let Some(due) = dues.get(place) else {
        return Some(place);
    };
    if is_same(due, at, p) {
        None
    } else {
        Some(place)
    }
}
