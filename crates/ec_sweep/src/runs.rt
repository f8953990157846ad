//! What of a change is at an instant.
ghost use Rattle.std.specs.Prelude.{◌≡◌, ◌≤◌, IsTrue, int_le, drop, filter, length, take};
ghost use Rattle.ec_rows.specs.Ordered.{is_ascending};
ghost use Rattle.ec_sweep.specs.Runs.{not_after};

use ec_axioms::Event;
use ec_moment::Moment;
use ec_revise::Removal;

/// How many of the events to be taken out are up to a time and at it.
pub(crate) fn count_removals<T: Moment>(removals: &[Removal<T>], at: T) -> usize
    requires { IsTrue (is_ascending (not_after T.rank (λ removal. removal.at)) removals.now) }
    ensures within { result ≤ length removals.now }
    ensures count { result ≡ length (filter (λ removal. int_le (T.rank removal.at) (T.rank at)) removals.now) }
{
    removals.partition_point(
        |removal| -> bool
            ensures { result ≡ int_le (T.rank removal.now.at) (T.rank at) }
        { removal.at.order(&at).is_le() },
    )
}

/// How many of the events to be put in are up to a time and at it.
pub(crate) fn count_added<T: Moment>(events: &[Event<T>], at: T) -> usize
    requires { IsTrue (is_ascending (not_after T.rank (λ event. event.at)) events.now) }
    ensures within { result ≤ length events.now }
    ensures count { result ≡ length (filter (λ event. int_le (T.rank event.at) (T.rank at)) events.now) }
{
    events.partition_point(
        |event| -> bool
            ensures { result ≡ int_le (T.rank event.now.at) (T.rank at) }
        { event.at.order(&at).is_le() },
    )
}

/// The members of a list from one place up to another.
pub(crate) fn between<X>(items: &[X], from: usize, to: usize) -> &[X]
    requires ordered { from ≤ to }
    requires within { to ≤ length items.now }
    ensures { result.now ≡ drop from (take to items.now) }
{
    &items[from..to]
}
