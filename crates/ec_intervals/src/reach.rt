//! The reach of a row of intervals: the times between which it holds, from its first begin up to its last end.
ghost use Rattle.std.specs.Prelude.{◌≡◌, ◌≤ℤ◌, Some, option_copied};
ghost use Rattle.ec_intervals.specs.Reach.{HasReach, IsReachOf, IsReachOfSpans, is_outside, reach_between};
ghost use Rattle.ec_intervals.specs.RowViews.{seen};
ghost use Rattle.ec_intervals.specs.Table.{members_in};

use crate::row::KeptRow;
use ec_moment::Moment;
use ec_rows::{End, SpanRow};

/// The times at which a row of intervals may hold. A row without intervals has no reach.
#[derive(Clone, Copy)]
pub(crate) enum Reach<T> {
    /// Behind the first time, up to the second and with it.
    Within(T, T),
    /// Behind a time.
    After(T),
    /// At any time.
    Any,
}

/// The reach from a begin up to an end.
fn reach_between<T: Moment>(first: T, last: End<T>) -> Reach<T>
    ensures { result ≡ reach_between first last }
{
    match last {
        End::At(last) => Reach::Within(first, last),
        End::Unended => Reach::After(first),
    }
}

/// The reach of a row of spans.
fn reach_of_spans<T: Moment, I: SpanRow<T>>(spans: &I) -> Option<Reach<T>>
    ensures { IsReachOfSpans T.rank result (I.spans spans.now) }
{
    let len = spans.len();
    if len == 0 {
        return None;
    }
    let first = spans.get(0);
    let last = spans.get(len - 1);
    Some(reach_between(first.from, last.end))
}

/// The reach of a row. With a front, it is any time.
pub(crate) fn reach_of<T: Moment, I: SpanRow<T>>(kept: &KeptRow<T, I>) -> Option<Reach<T>>
    ensures { IsReachOf T.rank result (members_in (Some (seen I.spans I.spare kept.now))) }
{
    match kept.front {
        Some(_) => Some(Reach::Any),
        None => reach_of_spans(&kept.spans),
    }
}

/// Whether a time lies outside a reach, so that no interval covers it.
pub(crate) fn is_outside<T: Moment>(reach: Option<&Reach<T>>, at: T) -> bool
    ensures { result ≡ is_outside T.rank (option_copied reach.entry) (T.rank at) }
{
    match reach {
        Some(Reach::Within(first, last)) => at.order(first).is_le() || last.order(&at).is_lt(),
        Some(Reach::After(first)) => at.order(first).is_le(),
        Some(Reach::Any) => false,
        None => true,
    }
}

/// The earlier of two times.
fn earlier<T: Moment>(one: T, other: T) -> T
    ensures one { T.rank result ≤ℤ T.rank one }
    ensures other { T.rank result ≤ℤ T.rank other }
{
    if one.order(&other).is_le() {
        one
    } else {
        other
    }
}

/// The later of two times.
fn later<T: Moment>(one: T, other: T) -> T
    ensures one { T.rank one ≤ℤ T.rank result }
    ensures other { T.rank other ≤ℤ T.rank result }
{
    if one.order(&other).is_le() {
        other
    } else {
        one
    }
}

/// A reach that has all of two others.
fn joined<T: Moment>(one: Reach<T>, other: Reach<T>) -> Reach<T>
    ensures one { HasReach T.rank (Some result) (Some one) }
    ensures other { HasReach T.rank (Some result) (Some other) }
{
    match (one, other) {
        (Reach::Within(a, b), Reach::Within(c, d)) => Reach::Within(earlier(a, c), later(b, d)),
        (Reach::Within(a, _), Reach::After(c)) => Reach::After(earlier(a, c)),
        (Reach::After(a), Reach::Within(c, _)) => Reach::After(earlier(a, c)),
        (Reach::After(a), Reach::After(c)) => Reach::After(earlier(a, c)),
        _ => Reach::Any,
    }
}

/// A reach that has all of two others, where there are such.
pub(crate) fn all_joined<T: Moment>(
    one: Option<Reach<T>>,
    other: Option<&Reach<T>>,
) -> Option<Reach<T>>
    ensures one { HasReach T.rank result one }
    ensures other { HasReach T.rank result (option_copied other.entry) }
{
    match (one, other) {
        (Some(one), Some(other)) => Some(joined(one, *other)),
        (None, Some(other)) => Some(*other),
        _ => one,
    }
}
